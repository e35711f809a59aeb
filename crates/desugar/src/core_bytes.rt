// The bytes of a core that lies in work memory: how many, and the bytes themselves.
ghost use Rattle.std.specs.Prelude.{◌≡◌, cond, ◌+◌, ◌*◌, ◌%◌, ◌≤◌, ◌<◌, leb, length};
ghost use Rattle.literals.specs.Bits.{bit};
ghost use Rattle.expr.specs.Terms.{Core};
ghost use Rattle.expr.specs.Records.{map_of, stands, write_number};
ghost use Rattle.expr.specs.Form.{encode_core};
ghost use Rattle.desugar.specs.Memory.{words};
ghost use Rattle.desugar.specs.CoreBytes.{core_record, CoreShape, Put, Writable, CoreWritten, record_at, bytes_of_record};

use crate::memory::FIRST_OPERATOR;

// The most bytes of a record.
const MAX_RECORD: usize = 7;

// The bits of a map byte for the kind, the field and the value.
const KIND_BIT: u8 = 1;

const FIELD_BIT: u8 = 4;

const VALUE_BIT: u8 = 32;

// A record of a core. Its kind stays the number that it is in work memory and in the bytes: a Kind would be made of each record and taken
// apart again.
#[derive(Clone, Copy, Debug, PartialEq, Eq)]
pub(crate) struct CoreRecord {
    pub kind: u32,
    pub field: u32,
    pub value: u32,
}

// 1 where a number is not zero, and so is written: the definition of the contracts below.
fn standing(v: u32) -> u8
    ensures { result ≡ bit (stands v) }
{
    u8::from(v != 0)
}

// A number of N bytes, lowest first, if it stands; the index behind it.
#[tactic(auto, using(crate::proofs::RecordBytes::number_length, crate::proofs::RecordBytes::number_step, crate::proofs::RecordBytes::number_end, crate::proofs::RecordBytes::number_some))]
fn write_number<const N: usize>(out: &mut [u8], to: usize, v: u32) -> usize
    requires { to + length (write_number N v) ≤ length out.old }
    ensures { Put (write_number N v) out.old to out.new result }
{
    if v == 0 {
        return to;
    }
    let mut rest = v;
    for i in 0..N {
        out[to + i] = (rest % 256) as u8;
        rest /= 256;
    }
    to + N
}

// A number's byte where it stands, and else the one that is held. A function, since the compiler makes a branch of the same choice where it is stored.
fn chosen(held: u8, v: u32) -> u8
    ensures { result ≡ cond (stands v) (v % 256) held }
{
    if v == 0 {
        return held;
    }
    (v % 256) as u8
}

// A number of one byte where a byte follows, without a branch on the number: a test's value is 0 as often as not, and no processor
// foresees which.
fn write_value(out: &mut [u8], to: usize, v: u32) -> usize
    requires { to < length out.old }
    ensures { Put (write_number 1 v) out.old to out.new result }
{
    let held = out[to];
    out[to] = chosen(held, v);
    to + usize::from(standing(v))
}

impl CoreRecord {
    // The record at an index of a core's numbers.
    fn at(core: &[u32], at: usize) -> Self
        requires { at + 3 ≤ length core.now }
        ensures { result ≡ record_at core.now at }
    {
        CoreRecord {
            kind: core[at],
            field: core[at + 1],
            value: core[at + 2],
        }
    }

    // The map byte.
    fn map(self) -> u8
        ensures { result ≡ map_of (core_record self.kind self.field self.value) }
    {
        KIND_BIT * standing(self.kind)
            + FIELD_BIT * standing(self.field)
            + VALUE_BIT * standing(self.value)
    }

    // How many bytes the record takes.
    fn length(self) -> usize
        ensures { result ≡ length (bytes_of_record self) }
    {
        1 + usize::from(standing(self.kind))
            + 4 * usize::from(standing(self.field))
            + usize::from(standing(self.value))
    }

    // The bytes of a record that has a kind and a field, where a byte follows; the index behind them. This, the next and the one that chooses
    // are three ways to the same bytes, so they promise the same.
    fn write_atom(self, out: &mut [u8], to: usize) -> usize
        requires value_in_bounds { to + length (bytes_of_record self) < length out.old }
        requires kind_nonzero { (0 < self.kind) × (0 < self.field) }
        ensures { Put (bytes_of_record self) out.old to out.new result }
    {
        out[to] = KIND_BIT + FIELD_BIT + VALUE_BIT * standing(self.value);
        out[to + 1] = (self.kind % 256) as u8;
        let end = write_number::<4>(out, to + 2, self.field);
        write_value(out, end, self.value)
    }

    // The record's bytes; the index behind them.
    fn write_any(self, out: &mut [u8], to: usize) -> usize
        requires { to + length (bytes_of_record self) ≤ length out.old }
        ensures { Put (bytes_of_record self) out.old to out.new result }
    {
        out[to] = self.map();
        let a = write_number::<1>(out, to + 1, self.kind);
        let b = write_number::<4>(out, a, self.field);
        write_number::<1>(out, b, self.value)
    }

    // The same where a byte follows: operators and atoms on a field, which are nearly all, go their own ways.
    fn write(self, out: &mut [u8], to: usize) -> usize
        requires value_in_bounds { to + length (bytes_of_record self) < length out.old }
        requires core_shape { CoreShape self.kind self.field self.value }
        ensures { Put (bytes_of_record self) out.old to out.new result }
    {
        if FIRST_OPERATOR <= self.kind {
            out[to] = KIND_BIT;
            out[to + 1] = (self.kind % 256) as u8;
            return to + 2;
        }
        if 0 < self.field {
            return self.write_atom(out, to);
        }
        self.write_any(out, to)
    }
}

// How many bytes a core takes.
#[tactic(auto, using(crate::proofs::RecordBytes::records_short, crate::proofs::RecordBytes::record_short, crate::proofs::RecordBytes::length_next, crate::proofs::RecordBytes::slice_bytes))]
pub(crate) fn core_length(core: &[u32]) -> usize
    ensures { (c : Core) → core.now ≡ words c → result ≡ length (encode_core c) }
{
    let mut total = 0;
    for j in 0..core.len() / 3 {
        total += CoreRecord::at(core, 3 * j).length();
    }
    total
}

// Whether a core's bytes fit a room. They need not be counted where there is room for the longest records.
pub(crate) fn fits(core: &[u32], room: usize) -> bool
    ensures { (c : Core) → core.now ≡ words c → result ≡ leb (length (encode_core c)) room }
{
    MAX_RECORD * (core.len() / 3) <= room || core_length(core) <= room
}

// The bytes of a core, to the front of the buffer; how many they are.
pub(crate) fn write_core(core: &[u32], out: &mut [u8]) -> usize
    requires { Writable core.now out.old }
    ensures { (c : Core) → core.now ≡ words c → CoreWritten c out.old out.new result }
{
    let last = core.len() / 3 - 1;
    let mut to = 0;
    for j in 0..last {
        to = CoreRecord::at(core, 3 * j).write(out, to);
    }
    CoreRecord::at(core, 3 * last).write_any(out, to)
}
