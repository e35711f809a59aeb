// The bits of a bound that stand, counted byte by byte: a bound's size follows from them, and whether it is 0 or the highest value.
ghost use Rattle.std.specs.Prelude.{◌≡◌, ◌++◌, ◌+◌, ◌*◌, ◌/◌, ◌≤◌, ◌<◌, length, get_or};
ghost use Rattle.literals.specs.Bits.{Bits, bit, bits_of};
ghost use Rattle.literals.specs.Results.{literal_bits};
ghost use Rattle.desugar.specs.Costs.{bound_size};
ghost use Rattle.desugar.specs.LeafWords.{Stands, stretch};
ghost use Rattle.desugar.specs.Rules.{max_range_bits};

use crate::leaves::chain_size;
use literals::BitSlice;

// How many bits stand, and how many records their terms have, each with an operator.
#[derive(Clone, Copy, Debug, PartialEq, Eq)]
pub struct Standing {
    pub count: u64,
    pub size: u64,
}

// The byte at an index, and 0 beyond the end.
fn byte_at(bytes: &[u8], i: usize) -> u8
    ensures { result ≡ get_or bytes.now i 0 }
{
    bytes.get(i).copied().unwrap_or(0)
}

impl Standing {
    // Those of some bits and of one above them: the term of each that stands has two records for each bit from it up. The definition of the laws of
    // `Stands`.
    fn with_bit(self, b: bool) -> Self
        requires { (self.count ≤ 256) × (self.size ≤ 65536) }
        ensures { (result.count ≡ self.count + bit b) × (result.size ≡ self.size + 2 * (self.count + bit b)) }
    {
        let count = self.count + u64::from(b);
        Standing {
            count,
            size: self.size + 2 * count,
        }
    }

    // Those of a byte.
    #[tactic(auto, using(crate::proofs::StandingBits::stands_bit, crate::proofs::StandingBits::byte_bit))]
    fn of_byte(byte: u8) -> Self
        ensures { Stands (bits_of 8 byte) result }
    {
        let mut standing = Standing { count: 0, size: 0 };
        for i in 0..u8::BITS {
            standing = standing.with_bit((byte >> i) % 2 == 1);
        }
        standing
    }

    // Those of some bits and of a byte above them, which makes the term of each bit below longer by 16 records.
    fn with_byte(self, byte: u8) -> Self
        requires { (self.count ≤ 128) × (self.size ≤ 32768) }
        ensures { (a : Bits) → Stands a self → Stands (a ++ bits_of 8 byte) result }
    {
        let above = Standing::of_byte(byte);
        Standing {
            count: self.count + above.count,
            size: self.size + 16 * self.count + above.size,
        }
    }

    // Those of the whole bytes of a literal.
    #[tactic(auto, using(crate::proofs::StandingBits::stands_few, crate::proofs::StandingBits::stretch_byte, crate::proofs::Chains::length_stretch))]
    fn of_bytes(bits: BitSlice<'_>) -> Self
        requires { bits.len ≤ max_range_bits }
        ensures { Stands (stretch (literal_bits bits.entry) 0 (8 * (bits.entry.len / 8))) result }
    {
        let mut standing = Standing { count: 0, size: 0 };
        for i in 0..bits.len / 8 {
            standing = standing.with_byte(byte_at(bits.bytes, i));
        }
        standing
    }

    // Those of a literal: behind its whole bytes bit by bit.
    fn of_literal(bits: BitSlice<'_>) -> Self
        requires { bits.len ≤ max_range_bits }
        ensures { Stands (stretch (literal_bits bits.entry) 0 bits.entry.len) result }
    {
        let mut standing = Standing::of_bytes(bits);
        for p in 8 * (bits.len / 8)..bits.len {
            standing = standing.with_bit(bits.bit(p));
        }
        standing
    }

    // Those of a bound of `width` bits: a literal, and above it bits that are false.
    #[tactic(auto, using(crate::proofs::StandingBits::padded_few))]
    pub fn of_bound(bits: BitSlice<'_>, width: usize) -> Self
        requires { (bits.len ≤ width) × (width ≤ max_range_bits) }
        ensures { Stands (stretch (literal_bits bits.entry) 0 width) result }
    {
        let below = Standing::of_literal(bits);
        let above = (width - bits.len) as u64;
        Standing {
            count: below.count,
            size: below.size + 2 * (above * below.count),
        }
    }

    // How many records the core of a bound has whose bits these are: the terms of those that stand, or of the others.
    #[tactic(auto, using(crate::proofs::StandingBits::both_all, crate::proofs::StandingBits::all_bits_are, crate::proofs::StandingBits::differences_most))]
    pub fn bound_size(self, width: u64, upper: bool) -> u64
        requires { ((a : Bits) × (length a ≡ width) × Stands a self) × (width ≤ max_range_bits) }
        ensures { (a : Bits) → length a ≡ width → Stands a self → result ≡ bound_size upper a }
    {
        let exact = chain_size(width);
        if upper {
            return exact + self.size;
        }
        exact + (width * (width + 1) - self.size)
    }
}
