// The core of a Wildcard: a test for each bit whose mask is false.
ghost use Rattle.std.specs.Prelude.{◌≡◌};
ghost use Rattle.std.proofs.lemmas.List.Edits.{sets};
ghost use Rattle.literals.specs.Results.{literal_bits};
ghost use Rattle.expr.specs.Terms.{Intersect, One};
ghost use Rattle.desugar.specs.Leaves.{chain, masked_tests};
ghost use Rattle.desugar.specs.Memory.{words};
ghost use Rattle.desugar.specs.Costs.{chain_size, clear};
ghost use Rattle.desugar.specs.LeafWords.{RangeRoom, stretch, trim};

use crate::leaves::Chain;
use crate::memory::{write_bare, write_bit};
use expr::kind::Kind;
use literals::BitSlice;

// An address of `width` bits, and its mask.
#[derive(Clone, Copy, Debug)]
pub struct Masked<'a> {
    pub address: BitSlice<'a>,
    pub mask: BitSlice<'a>,
    pub width: usize,
}

impl<'a> Masked<'a> {
    // How many bits of the mask are false.
    #[tactic(auto, using(crate::proofs::Masked::clear_one, crate::proofs::Masked::clear_none, crate::proofs::Masked::clear_most))]
    pub fn count(self) -> usize
        ensures { result ≡ clear (stretch (literal_bits self.entry.mask) 0 self.entry.width) }
    {
        let mut count = 0;
        for i in 0..self.width {
            if !self.mask.bit(i) {
                count += 1;
            }
        }
        count
    }

    // How many bits of the mask there are up to the highest that is false.
    fn trimmed(self) -> usize
        ensures { result ≡ trim (literal_bits self.entry.mask) self.entry.width }
    {
        for i in (0..self.width).rev() {
            if !self.mask.bit(i) {
                return i + 1;
            }
        }
        0
    }

    // The chain of the tests of the address whose mask is false, on the fields from `start` on.
    pub fn write(self, work: &mut [u32], at: usize, start: u32)
        requires { RangeRoom work.old at (chain_size (clear (stretch (literal_bits self.mask) 0 self.width))) «start» self.width }
        ensures { work.new ≡ sets work.old at (words (chain Intersect One (masked_tests «start»
            (stretch (literal_bits self.entry.address) 0 self.entry.width) (stretch (literal_bits self.entry.mask) 0 self.entry.width)))) }
    {
        let end = self.trimmed();
        if end == 0 {
            write_bare(work, at, Kind::One);
            return;
        }
        let last = end - 1;
        let mut to = at;
        for i in 0..last {
            if !self.mask.bit(i) {
                let b = self.address.bit(i);
                Chain::Tests.write_link(work, to, start + i as u32, b);
                to += 6;
            }
        }
        let b = self.address.bit(last);
        write_bit(work, to, Kind::Test, start + last as u32, b);
    }
}
