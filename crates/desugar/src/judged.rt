// The core of a use of fields that keeps the rules: how many records it has, and the records.
ghost use Rattle.std.specs.Prelude.{◌≡◌, Bool, ℕ, ◌+◌, ◌-◌, ◌*◌, ◌≤◌, length};
ghost use Rattle.std.proofs.lemmas.List.Edits.{sets};
ghost use Rattle.literals.specs.Results.{literal_bits};
ghost use Rattle.expr.specs.Answers.{ok};
ghost use Rattle.expr.specs.Terms.{Atom, Matches, One, Op2, size};
ghost use Rattle.expr.specs.Form.{pattern_of};
ghost use Rattle.desugar.specs.Leaves.{chain, each_bit, use_core};
ghost use Rattle.desugar.specs.Memory.{words};
ghost use Rattle.desugar.specs.Costs.{chain_size};
ghost use Rattle.desugar.specs.Rules.{use_rule};
ghost use Rattle.desugar.specs.LeafWords.{Kinds, chain_atom, chain_operator, stretch};
ghost use Rattle.desugar.specs.WalkWords.{where_of, use_of};
ghost use Rattle.desugar.specs.RangedWords.{core_on, record_in};

use crate::Fields;
use crate::between::Values;
use crate::leaves::{Chain, Stretch, chain_size};
use crate::masks::Masked;
use crate::uses::Use;
use expr::kind::{Kind, Pattern};

// A use of fields that keeps the rules.
#[derive(Clone, Copy, Debug)]
pub struct JudgedUse<'a> {
    pub used: Use<'a>,
    pub fields: Fields,
    ghost ordered: { fields.start ≤ fields.end },
    ghost kept: { use_rule (where_of (record_in used)) (use_of (record_in used)) (fields.end - fields.start) 0 ≡ ok tt },
}

impl<'a> JudgedUse<'a> {
    // How many records its core has. As calls, this and the next cost a quarter of the instructions of a prefix's cost.
    #[inline(always)]
    pub fn size(self) -> u64
        ensures { (start : ℕ) → result ≡ size (use_core (use_of (record_in self.entry.used)) start (self.entry.fields.end - self.entry.fields.start)) }
    {
        match self.used.kind {
            Kind::VarAssign | Kind::VarTest | Kind::BitRangeAssign | Kind::BitRangeTest => {
                chain_size(self.fields.count() as u64)
            }
            _ => self.pattern_size(),
        }
    }

    // How many records the core of a match has.
    #[inline(always)]
    fn pattern_size(self) -> u64
        requires { use_of (record_in self.used) ≡ Matches (pattern_of (record_in self.used)) }
        ensures { (start : ℕ) → result ≡ size (use_core (Matches (pattern_of (record_in self.entry.used))) start (self.entry.fields.end - self.entry.fields.start)) }
    {
        let u = self.used;
        let n = self.fields.count();
        match u.pattern {
            Pattern::Exact => chain_size(n as u64),
            Pattern::Cidr => chain_size(u.number as u64),
            Pattern::Wildcard => {
                let masked = Masked {
                    address: u.a,
                    mask: u.b,
                    width: n,
                };
                chain_size(masked.count() as u64)
            }
            Pattern::IpRange => {
                let values = Values {
                    low: u.a,
                    high: u.b,
                    width: n,
                };
                values.size()
            }
        }
    }

    // Its core.
    pub(crate) fn write(self, work: &mut [u32], top: usize)
        requires { top + 3 * size (core_on (use_of (record_in self.used)) self.fields) ≤ length work.old }
        ensures { work.new ≡ sets work.old top (words (core_on (use_of (record_in self.entry.used)) self.entry.fields)) }
    {
        match self.used.kind {
            Kind::VarAssign | Kind::BitRangeAssign => self.write_literal(work, top, Chain::Assigns),
            Kind::VarTest | Kind::BitRangeTest => self.write_literal(work, top, Chain::Tests),
            _ => self.write_pattern(work, top),
        }
    }

    // The chain of an atom for each field.
    fn write_literal(self, work: &mut [u32], top: usize, links: Chain)
        requires { top + 3 * chain_size (self.fields.end - self.fields.start) ≤ length work.old }
        ensures { (o : Op2) (f : ℕ → Bool → Atom) → Kinds (chain_operator links) (chain_atom links) o f
            → work.new ≡ sets work.old top (words (chain o One (each_bit f self.entry.fields.start
            (stretch (literal_bits self.entry.used.a) 0 (self.entry.fields.end - self.entry.fields.start))))) }
    {
        let literal = Stretch {
            start: self.fields.start,
            bits: self.used.a,
            from: 0,
            count: self.fields.count(),
        };
        literal.write_chain(work, top, links);
    }

    // The core of a match.
    fn write_pattern(self, work: &mut [u32], top: usize)
        requires { (use_of (record_in self.used) ≡ Matches (pattern_of (record_in self.used)))
            × (top + 3 * size (core_on (Matches (pattern_of (record_in self.used))) self.fields) ≤ length work.old) }
        ensures { work.new ≡ sets work.old top (words (core_on (Matches (pattern_of (record_in self.entry.used))) self.entry.fields)) }
    {
        let start = self.fields.start;
        let n = self.fields.count();
        let u = self.used;
        match u.pattern {
            Pattern::Exact => self.write_literal(work, top, Chain::Tests),
            Pattern::Cidr => {
                let count = u.number as usize;
                let from = n - count;
                let prefix = Stretch {
                    start: start + from as u32,
                    bits: u.a,
                    from,
                    count,
                };
                prefix.write_chain(work, top, Chain::Tests);
            }
            Pattern::Wildcard => {
                let masked = Masked {
                    address: u.a,
                    mask: u.b,
                    width: n,
                };
                masked.write(work, top, start);
            }
            Pattern::IpRange => {
                let values = Values {
                    low: u.a,
                    high: u.b,
                    width: n,
                };
                values.write(work, top, start);
            }
        }
    }
}
