// The core of an IpRange: the values from one literal to another, both padded to the range's width.
ghost use Rattle.std.specs.Prelude.{◌≡◌, ◌≤◌, eqb};
ghost use Rattle.std.proofs.lemmas.List.Edits.{sets};
ghost use Rattle.literals.specs.Bits.{value_of};
ghost use Rattle.literals.specs.Results.{literal_bits};
ghost use Rattle.desugar.specs.Leaves.{between};
ghost use Rattle.desugar.specs.Memory.{words};
ghost use Rattle.desugar.specs.Costs.{between_size};
ghost use Rattle.desugar.specs.Rules.{max_range_bits};
ghost use Rattle.desugar.specs.LeafWords.{RangeRoom, stretch};

use crate::leaves::{Bound, Chain, Stretch, chain_size};
use crate::memory::write_bare;
use crate::standing::Standing;
use expr::kind::Kind;
use literals::BitSlice;
use std::cmp::Ordering;

// The values from one literal to another, both padded to `width` bits.
#[derive(Clone, Copy, Debug)]
pub struct Values<'a> {
    pub low: BitSlice<'a>,
    pub high: BitSlice<'a>,
    pub width: usize,
    ghost low_fits: { low.len ≤ width },
    ghost high_fits: { high.len ≤ width },
    ghost wide: { width ≤ max_range_bits },
}

impl<'a> Values<'a> {
    // Whether they are one value.
    fn is_single(self) -> bool
        ensures { result ≡ eqb (value_of (literal_bits self.entry.low)) (value_of (literal_bits self.entry.high)) }
    {
        self.low.compare(self.high, self.width).order == Ordering::Equal
    }

    // How many records their core has: of a lower bound in which no bit stands, and of an upper bound in which all do, there is no term.
    #[tactic(auto, using(crate::proofs::StandingBits::differences_most, crate::proofs::Chains::length_stretch))]
    pub fn size(self) -> u64
        ensures { result ≡ between_size (stretch (literal_bits self.entry.low) 0 self.entry.width) (stretch (literal_bits self.entry.high) 0 self.entry.width) }
    {
        let width = self.width as u64;
        if self.is_single() {
            return chain_size(width);
        }
        let lower = Standing::of_bound(self.low, self.width);
        let upper = Standing::of_bound(self.high, self.width);
        match (lower.count == 0, upper.count == width) {
            (true, true) => 1,
            (true, false) => upper.bound_size(width, true),
            (false, true) => lower.bound_size(width, false),
            (false, false) => 1 + lower.bound_size(width, false) + upper.bound_size(width, true),
        }
    }

    // Their core, on the fields from `start` on.
    pub fn write(self, work: &mut [u32], at: usize, start: u32)
        requires { RangeRoom work.old at (between_size (stretch (literal_bits self.low) 0 self.width) (stretch (literal_bits self.high) 0 self.width)) «start» self.width }
        ensures { work.new ≡ sets work.old at (words (between «start»
            (stretch (literal_bits self.entry.low) 0 self.entry.width) (stretch (literal_bits self.entry.high) 0 self.entry.width))) }
    {
        let width = self.width;
        if self.is_single() {
            let value = Stretch {
                start,
                bits: self.low,
                from: 0,
                count: width,
            };
            value.write_chain(work, at, Chain::Tests);
            return;
        }
        let lower = Bound {
            start,
            bits: self.low,
            width,
        };
        let upper = Bound {
            start,
            bits: self.high,
            width,
        };
        match (self.low.is_zero(), self.high.is_highest(width)) {
            (true, true) => write_bare(work, at, Kind::One),
            (true, false) => {
                upper.write(work, at, true);
            }
            (false, true) => {
                lower.write(work, at, false);
            }
            (false, false) => {
                write_bare(work, at, Kind::Intersect);
                let behind = lower.write(work, at + 3, false);
                upper.write(work, behind, true);
            }
        }
    }
}
