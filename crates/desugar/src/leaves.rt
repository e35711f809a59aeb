// The cores of ranges: how many records they have, and the records themselves, written to work memory in prefix order.
ghost use Rattle.std.specs.Prelude.{◌≡◌, Bool, [], ◌∷◌, ℕ, ◌+◌, ◌-◌, ◌*◌, ◌^◌, ◌≤◌, ◌<◌, length};
ghost use Rattle.std.proofs.lemmas.List.Edits.{sets};
ghost use Rattle.literals.specs.Bits.{bit};
ghost use Rattle.literals.specs.Results.{literal_bits};
ghost use Rattle.expr.specs.Kinds.{kind_number};
ghost use Rattle.expr.specs.Terms.{Atom, One, Op2};
ghost use Rattle.desugar.specs.Leaves.{bound, chain, each_bit};
ghost use Rattle.desugar.specs.Memory.{words};
ghost use Rattle.desugar.specs.Costs.{chain_size, bound_size};
ghost use Rattle.desugar.specs.LeafWords.{chain_operator, chain_atom, Kinds, Ready, Differs, difference_size, stretch, term};

use crate::memory::{write_bare, write_bit};
use expr::kind::Kind;
use literals::BitSlice;

// How many records a chain of atoms has.
pub fn chain_size(atoms: u64) -> u64
    requires { atoms ≤ 2 ^ 32 }
    ensures { result ≡ chain_size atoms }
{
    if atoms == 0 {
        return 1;
    }
    2 * atoms - 1
}

// What a chain does with each bit of a literal.
#[derive(Clone, Copy, Debug, PartialEq, Eq)]
pub enum Chain {
    Assigns,
    Tests,
}

impl Chain {
    // The operator between two atoms.
    fn operator(self) -> Kind
        ensures { kind_number result ≡ chain_operator self }
    {
        match self {
            Chain::Assigns => Kind::Sequence,
            Chain::Tests => Kind::Intersect,
        }
    }

    fn atom(self) -> Kind
        ensures { kind_number result ≡ chain_atom self }
    {
        match self {
            Chain::Assigns => Kind::Assign,
            Chain::Tests => Kind::Test,
        }
    }

    // An operator's record, and its first operand's: an atom.
    pub(crate) fn write_link(self, work: &mut [u32], at: usize, field: u32, b: bool)
        requires { at + 6 ≤ length work.old }
        ensures { work.new ≡ sets work.old at (chain_operator self ∷ 0 ∷ 0 ∷ chain_atom self ∷ field ∷ bit b ∷ []) }
    {
        write_bare(work, at, self.operator());
        write_bit(work, at + 3, self.atom(), field, b);
    }
}

// Bits of a literal, from index `from` on, for the fields from `start` on.
#[derive(Clone, Copy, Debug)]
pub struct Stretch<'a> {
    pub start: u32,
    pub bits: BitSlice<'a>,
    pub from: usize,
    pub count: usize,
    ghost fields: { start + count ≤ 2 ^ 32 },
    ghost reach: { from + count ≤ 2 ^ 32 },
}

impl<'a> Stretch<'a> {
    // The chain of an atom for each bit.
    #[tactic(auto, using(crate::proofs::Chains::bit_last))]
    pub fn write_chain(self, work: &mut [u32], at: usize, links: Chain)
        requires { at + 3 * chain_size self.count ≤ length work.old }
        ensures { (o : Op2) (f : ℕ → Bool → Atom) → Kinds (chain_operator links) (chain_atom links) o f
            → work.new ≡ sets work.old at (words (chain o One (each_bit f self.entry.start (stretch (literal_bits self.entry.bits) self.entry.from self.entry.count)))) }
    {
        if self.count == 0 {
            write_bare(work, at, Kind::One);
            return;
        }
        let last = self.count - 1;
        for i in 0..last {
            let b = self.bits.bit(self.from + i);
            links.write_link(work, at + 6 * i, self.start + i as u32, b);
        }
        let b = self.bits.bit(self.from + last);
        let field = self.start + last as u32;
        write_bit(work, at + 6 * last, links.atom(), field, b);
    }
}

// Where a bound's next records go, and where the links of its bits from `done` up stand: all terms begin with the same
// links, so a term's first ones are copied from the term before it.
#[derive(Clone, Copy, Debug, PartialEq, Eq)]
pub struct Progress {
    pub to: usize,
    pub from: usize,
    pub done: usize,
}

// A bound of a range: a literal padded to the range's width, and the range's first field. `upper` says which of the two a literal is tested as: a flag,
// as the definitions `bound` and `bound_size` have it.
#[derive(Clone, Copy, Debug)]
pub struct Bound<'a> {
    pub start: u32,
    pub bits: BitSlice<'a>,
    pub width: usize,
    ghost some: { 0 < width },
    ghost fields: { start + width ≤ 2 ^ 32 },
}

impl<'a> Bound<'a> {
    // The tests that the fields above bit i agree with the bound, and that the field of bit i is v.
    #[tactic(auto, using(crate::proofs::BoundWords::top_more, crate::proofs::BoundWords::top_last, crate::proofs::BoundWords::links_copied))]
    fn write_term(self, work: &mut [u32], progress: Progress, i: usize, v: bool)
        requires { (progress.to + 3 * chain_size (self.width - i) ≤ length work.old) × (i < progress.done) × Ready self.start (literal_bits self.bits) self.width work.old progress }
        ensures { work.new ≡ sets work.old progress.to (words (term self.entry.start (literal_bits self.entry.bits) self.entry.width i v)) }
    {
        let count = 6 * (self.width - progress.done);
        let mut to = progress.to + count;
        crate::memory::copy(work, progress.from, progress.to, count);
        for p in (i + 1..progress.done).rev() {
            let b = self.bits.bit(p);
            Chain::Tests.write_link(work, to, self.start + p as u32, b);
            to += 6;
        }
        write_bit(work, to, Kind::Test, self.start + i as u32, v);
    }

    // The term of bit i, with the operator before it, where the bit is `upper`; the progress then.
    fn write_difference(
        self,
        work: &mut [u32],
        progress: Progress,
        i: usize,
        upper: bool,
    ) -> Progress
        requires { (progress.to + 3 * difference_size upper (literal_bits self.bits) self.width i ≤ length work.old) × (i < progress.done) × Ready self.start (literal_bits self.bits) self.width work.old progress }
        ensures { Differs upper self.entry.start (literal_bits self.entry.bits) self.entry.width i work.old progress.to work.new result }
    {
        if self.bits.bit(i) != upper {
            return progress;
        }
        write_bare(work, progress.to, Kind::Union);
        let from = progress.to + 3;
        let term = Progress {
            to: from,
            ..progress
        };
        self.write_term(work, term, i, !upper);
        Progress {
            to: progress.to + 6 * (self.width - i),
            from,
            done: i + 1,
        }
    }

    // The tests that a value is at most the bound, if `upper`, or else at least; the index behind them.
    #[tactic(auto, using(crate::proofs::BoundWords::bound_more, crate::proofs::BoundWords::bound_last, crate::proofs::BoundWords::size_more, crate::proofs::BoundWords::size_below, crate::proofs::BoundWords::size_whole))]
    pub fn write(self, work: &mut [u32], at: usize, upper: bool) -> usize
        requires { at + 3 * bound_size upper (stretch (literal_bits self.bits) 0 self.width) ≤ length work.old }
        ensures written { work.new ≡ sets work.old at (words (bound upper self.entry.start (stretch (literal_bits self.entry.bits) 0 self.entry.width))) }
        ensures behind { result ≡ at + 3 * bound_size upper (stretch (literal_bits self.entry.bits) 0 self.entry.width) }
    {
        let mut progress = Progress {
            to: at,
            from: at,
            done: self.width,
        };
        for p in (0..self.width).rev() {
            progress = self.write_difference(work, progress, p, upper);
        }
        let b = self.bits.bit(0);
        self.write_term(work, progress, 0, b);
        progress.to + 3 * (2 * self.width - 1)
    }
}
