// Literals: bits packed in bytes, lowest bit first. A literal is given by the bytes that its bits begin in, and how many bits it has.
#![tactic(auto)]

ghost use Rattle.std.specs.Prelude.{◌≡◌, false, cond, ◌+◌, ◌^◌, ◌≤◌, eqb, length, get_or};
ghost use Rattle.std.specs.declared.cmp.Ordering.TheVariants.{Less, Greater};
ghost use Rattle.literals.specs.Bits.{value_of, unpack};
ghost use Rattle.literals.specs.Reading.{lent};
ghost use Rattle.literals.specs.Results.{literal_bits, LiteralFound, ComparedAs, LentFound};

use refusals::Refusal;
use std::cmp::Ordering;

// The longest literal, in bits.
pub const MAX_LITERAL: usize = 192;

// Where a literal was read: the byte at which its bits begin, how many they are, and the byte behind it.
#[derive(Clone, Copy, Debug, PartialEq, Eq)]
pub struct Literal {
    pub at: usize,
    pub bits: usize,
    pub next: usize,
}

// A literal: so many bits at the front of some bytes. Beyond the last of them its bits are false.
#[derive(Clone, Copy, Debug)]
pub struct BitSlice<'a> {
    pub bytes: &'a [u8],
    pub len: usize,
}

// How one bound stands to another, and how many of the field's bits were looked at for that.
#[derive(Clone, Copy, Debug, PartialEq, Eq)]
pub struct Compared {
    pub order: Ordering,
    pub looked: usize,
}

// The bit at an index, and false beyond the end.
pub fn bit_at(bytes: &[u8], i: usize) -> bool
    ensures { result ≡ get_or (unpack bytes.now) i false }
{
    let at = i / 8;
    if bytes.len() <= at {
        return false;
    }
    let byte = bytes[at];
    let shift = i % 8;
    (byte >> shift) % 2 == 1
}

// The literal whose length byte is at `at`.
#[tactic(auto, using(crate::proofs::Values::read_zero, crate::proofs::Values::read_long, crate::proofs::Values::read_lacking, crate::proofs::Values::read_spare, crate::proofs::Values::read_got, crate::proofs::Values::last_place))]
#[inline(always)]
pub fn read_literal(s: &[u8], at: usize) -> Result<Literal, Refusal>
    requires { at ≤ length s.now }
    ensures { LiteralFound s.now at result }
{
    if s.len() <= at {
        return Err(Refusal::EndsEarly);
    }
    let bits = s[at] as usize;
    if bits == 0 {
        return Err(Refusal::ZeroWritten);
    }
    if MAX_LITERAL < bits {
        return Err(Refusal::OutOfRange);
    }
    let first = at + 1;
    let bytes = (bits + 7) / 8;
    if s.len() - first < bytes {
        return Err(Refusal::EndsEarly);
    }
    let next = first + bytes;
    let spare = bytes * 8 - bits;
    let last = s[next - 1] as u32;
    if 0 < last >> (8 - spare) {
        return Err(Refusal::ZeroWritten);
    }
    Ok(Literal {
        at: first,
        bits,
        next,
    })
}

// How two numbers stand to each other that are equal above a bit and differ in it: by that bit of the first. Of the two bits, as `cmp` asks, the loop that
// looks for them takes a quarter more time.
fn order_at(x: bool) -> Ordering
    ensures { result ≡ cond x Greater Less }
{
    if x {
        return Ordering::Greater;
    }
    Ordering::Less
}

impl<'a> BitSlice<'a> {
    // A literal of so many bits that a host lends at the front of some bytes.
    #[tactic(auto, using(crate::proofs::Values::lent_long, crate::proofs::Values::lent_lacking, crate::proofs::Values::lent_got))]
    pub fn lent(bytes: &'a [u8], bits: u32) -> Result<Self, Refusal>
        ensures { LentFound bits bytes.now result }
    {
        let len = bits as usize;
        if MAX_LITERAL < len {
            return Err(Refusal::OutOfRange);
        }
        if bytes.len() < (len + 7) / 8 {
            return Err(Refusal::EndsEarly);
        }
        Ok(BitSlice { bytes, len })
    }

    // The bit at an index, and false beyond the last.
    pub fn bit(self, i: usize) -> bool
        ensures { result ≡ get_or (literal_bits self.entry) i false }
    {
        i < self.len && bit_at(self.bytes, i)
    }

    // Whether the value is 0.
    pub fn is_zero(self) -> bool
        ensures { result ≡ eqb (value_of (literal_bits self.entry)) 0 }
    {
        for i in 0..self.len {
            if self.bit(i) {
                return false;
            }
        }
        true
    }

    // Whether the value is the highest of a width.
    pub fn is_highest(self, width: usize) -> bool
        requires { self.len ≤ width }
        ensures { result ≡ eqb (value_of (literal_bits self.entry) + 1) (2 ^ width) }
    {
        for i in 0..width {
            if !self.bit(i) {
                return false;
            }
        }
        true
    }

    // How two bounds of at most `width` bits stand to each other by value, from the top bit of the field down to the first that differs.
    pub fn compare(self, other: Self, width: usize) -> Compared
        requires { (self.len ≤ width) × (other.len ≤ width) }
        ensures { ComparedAs width (literal_bits self.entry) (literal_bits other.entry) result }
    {
        for i in (0..width).rev() {
            let x = self.bit(i);
            let y = other.bit(i);
            if x != y {
                return Compared {
                    order: order_at(x),
                    looked: width - i,
                };
            }
        }
        Compared {
            order: Ordering::Equal,
            looked: width,
        }
    }
}
