// Masks: bit i says something of packet i.
ghost use Rattle.expr.specs.Kinds.{kind_number};
ghost use Rattle.std.specs.Prelude.{◌≡◌, ℕ, ◌+◌, ◌*◌, ◌^◌, ◌≤◌, ◌<◌, List, length};
ghost use Rattle.std.specs.Prelude.{Some, eqb};
ghost use Rattle.std.specs.Option.{option_eq};
ghost use Rattle.literals.specs.Bits.{bit};
ghost use Rattle.packets.specs.Running.{max_packets, packet_bytes};
ghost use Rattle.packets.specs.Claims.{total};
ghost use Rattle.packets.specs.Results.{field_mask, leaf_mask, combined, settles, Captured, ShortFound};

use cores::records::CoreRecord;
use expr::kind::Kind;
use std::marker::Model;

// How many masks of fields are kept.
const SLOTS: usize = 256;

// The mask of a field that was asked for, if there is one. An Option of both would take half as much of the stack again: 24 bytes in place of 16.
#[derive(Clone, Copy, Debug, PartialEq, Eq)]
pub struct Kept {
    pub field: Option<u32>,
    pub mask: u64,
}

impl Kept {
    // Whether the mask is that of a field.
    fn is_of(self, field: u32) -> bool
        ensures { result ≡ option_eq eqb self.field (Some field) }
    {
        self.field == Some(field)
    }
}

// At most sixty-four packets that lie end to end, with what is asked of them again and again: where the last one ends, the mask of all, and masks of
// fields. In contracts it is the list of their bytes.
// The table is of a fixed size, as there is no heap.
#[derive(Drop)]
pub struct Capture<'a> {
    packets: &'a [u8],
    lengths: &'a [u32],
    end: usize,
    all: u64,
    kept: [Kept; SLOTS],
}

impl<'a> Model for Capture<'a> {
    ghost Value = { List (List ℕ) };

    ghost view = { λ c. packet_bytes c.lengths.now c.packets.now };

    ghost invariant = { λ c. Captured c.packets.now c.lengths.now c.end c.all c.kept };
}

// One packet more below the others: a definition of the masks' contracts.
fn with_bit(mask: u64, standing: bool) -> u64
    requires { 2 * mask + 1 < 2 ^ 64 }
    ensures { result ≡ bit standing + 2 * mask }
{
    2 * mask + standing as u64
}

// Where packets end that lie end to end.
fn end_of(lengths: &[u32]) -> usize
    requires { length lengths.now ≤ max_packets }
    ensures { result ≡ total lengths.now }
{
    lengths.iter().map(|&n| n as usize).sum()
}

// A mask with all of n packets.
fn all_of(n: usize) -> u64
    requires { n ≤ max_packets }
    ensures { result + 1 ≡ 2 ^ n }
{
    ((1u128 << n) - 1) as u64
}

impl<'a> Capture<'a> {
    pub(crate) fn new(packets: &'a [u8], lengths: &'a [u32]) -> Self
        requires { length lengths.now ≤ max_packets }
        ensures { result ≡ packet_bytes lengths.now packets.now }
    {
        let end = end_of(lengths);
        let all = all_of(lengths.len());
        Capture {
            packets,
            lengths,
            end,
            all,
            kept: [Kept {
                field: None,
                mask: 0,
            }; SLOTS],
        }
    }

    // The packets in which a field is true, from the last to the first. A packet that the slice cuts has the bytes that are there.
    fn field_mask(&self, field: usize) -> u64
        ensures { result ≡ field_mask field self.now }
    {
        let held = self.packets.len();
        let mut start = self.end;
        let mut to = start.min(held);
        let mut mask = 0;
        for &length in self.lengths.iter().rev() {
            start -= length as usize;
            let from = start.min(held);
            let standing = literals::bit_at(&self.packets[from..to], field);
            mask = with_bit(mask, standing);
            to = from;
        }
        mask
    }

    // The packets in which a field is true: the mask that was made before, if it is still kept. Of fields with the same slot the later one's mask takes
    // the place of the earlier one's.
    fn kept_mask(&mut self, field: u32) -> u64
        ensures value { result ≡ field_mask field self.old }
        ensures same { self.new ≡ self.old }
    {
        let slot = field as usize % SLOTS;
        if self.kept[slot].is_of(field) {
            return self.kept[slot].mask;
        }
        let mask = self.field_mask(field as usize);
        self.kept[slot] = Kept {
            field: Some(field),
            mask,
        };
        mask
    }

    // The packets that pass a record without operands; none passes what is no test.
    pub(crate) fn leaf_mask(&mut self, r: CoreRecord) -> u64
        ensures value { result ≡ leaf_mask (kind_number r.kind) r.field r.value self.old }
        ensures same { self.new ≡ self.old }
    {
        if r.kind == Kind::Test {
            let mask = self.kept_mask(r.field);
            if r.value == 1 {
                return mask;
            }
            return self.all ^ mask;
        }
        if r.kind == Kind::One {
            return self.all;
        }
        0
    }

    // The first packet with fewer bits than there are fields.
    pub(crate) fn first_short(&self, fields: u32) -> Option<usize>
        ensures { ShortFound fields self.now result }
    {
        let bytes = (fields as usize + 7) / 8;
        let mut start = 0;
        for (i, &length) in self.lengths.iter().enumerate() {
            let behind = start + length as usize;
            let held = self.packets.len();
            if behind.min(held) - start.min(held) < bytes {
                return Some(i);
            }
            start = behind;
        }
        None
    }
}

// The packets that pass an operator, by those that pass its operands; none passes what is no test. The kind is the number in the frame, which
// lies in memory that C lends.
pub(crate) fn combine(kind: u32, a: u64, b: u64) -> u64
    ensures { result ≡ combined kind a b }
{
    match kind {
        7 => a | b,
        9 => a ^ b,
        10 => a ^ (a & b),
        8 => a & b,
        11 => a & b,
        _ => 0,
    }
}

// Whether no packet passes an operator, since none passes its left operand.
pub(crate) fn is_settled(kind: u32, mask: u64) -> bool
    ensures { result ≡ settles kind mask }
{
    (mask == 0) & ((kind == 8) | ((kind == 10) | (kind == 11)))
}
