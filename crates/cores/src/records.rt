// One record of a core.
ghost use Rattle.std.specs.Prelude.{◌≡◌, ◌+◌, ◌*◌, ◌≤◌, length, drop};
ghost use Rattle.cores.specs.Reading.{term_kind};
ghost use Rattle.cores.specs.Results.{operator_bytes, atom_bytes, CoreRecordFound, ShortFound, widened};
ghost use Rattle.expr.specs.Answers.{answered};
ghost use Rattle.expr.specs.Kinds.{kind_number};

use expr::kind::Kind;
use refusals::{Refusal, Refused};

// A record that was read, and its length in bytes.
#[derive(Clone, Copy, Debug, PartialEq, Eq)]
pub struct CoreRecord {
    pub kind: Kind,
    pub field: u32,
    pub value: u32,
    pub size: usize,
}

impl CoreRecord {
    // The field count so far, with what this record at a place needs.
    pub fn widen(self, fields: Result<u32, Refused>, place: usize) -> Result<u32, Refused>
        ensures { answered result ≡ widened (answered fields) (kind_number self.kind) self.field place }
    {
        crate::widen(fields, self.kind.number(), self.field, place)
    }
}

// Whether the record at the front of the bytes has a kind from 16 to 26. The byte is looked at, since a record of a core has no Kind before it is read.
fn is_term_kind(s: &[u8]) -> bool
    ensures { result ≡ term_kind s.now }
{
    if s.len() < 2 {
        return false;
    }
    let map = s[0];
    let kind = s[1];
    (map % 2 == 1) & ((16 <= kind) & (kind <= 26))
}

// The record at the front of the bytes, by the reader of terms: 41 where it is a term's and no core's.
fn read_any(s: &[u8]) -> Result<CoreRecord, Refusal>
    ensures { CoreRecordFound s.now result }
{
    if is_term_kind(s) {
        return Err(Refusal::TermKind);
    }
    let head = expr::records::read_record(s)?;
    Ok(CoreRecord {
        kind: head.kind,
        field: head.start,
        value: head.number,
        size: head.size,
    })
}

// Whether these are the map and the kind of an operator: bytes, and no kind yet.
pub fn is_operator(map: u8, kind: u8) -> bool
    ensures { result ≡ operator_bytes map kind }
{
    (map == 1) & ((7 <= kind) & (kind <= 15))
}

// Whether these are the map, the kind, the field and, where the map has it, the value of an Assign or Test with a field that stands: bytes, and no kind
// yet.
pub fn is_atom(map: u8, kind: u8, field: u32, value: u8) -> bool
    ensures { result ≡ atom_bytes map kind field value }
{
    ((map == 5) | ((map == 37) & (value == 1))) & (((kind == 5) | (kind == 6)) & (field != 0))
}

// The number of four bytes, the lowest first: the library's, for a caller that has them one by one.
pub fn number_of(a: u8, b: u8, c: u8, d: u8) -> u32
    ensures { result ≡ a + 256 * (b + 256 * (c + 256 * d)) }
{
    u32::from_le_bytes([a, b, c, d])
}

// An operator or an atom on a field, which are nearly all records, by its first bytes, if one of these stands at the index.
pub fn read_short(s: &[u8], at: usize) -> Option<CoreRecord>
    requires { at ≤ length s.now }
    ensures { ShortFound (drop at s.now) result }
{
    if s.len() - at < 7 {
        return None;
    }
    let map = s[at];
    let kind = s[at + 1];
    if is_operator(map, kind) {
        return Some(CoreRecord {
            kind: Kind::try_from(kind).ok()?,
            field: 0,
            value: 0,
            size: 2,
        });
    }
    let field = u32::from_le_bytes([s[at + 2], s[at + 3], s[at + 4], s[at + 5]]);
    if !is_atom(map, kind, field, s[at + 6]) {
        return None;
    }
    let value = map / 32;
    Some(CoreRecord {
        kind: Kind::try_from(kind).ok()?,
        field,
        value: value as u32,
        size: 6 + value as usize,
    })
}

// The record at an index, where read_short found it or not. Two functions, because the compiler puts both into each loop that reads
// records, and would put in neither if they were one.
pub fn read_core_record(
    short: Option<CoreRecord>,
    s: &[u8],
    at: usize,
) -> Result<CoreRecord, Refusal>
    requires inside { at ≤ length s.now }
    requires short_found { ShortFound (drop at s.now) short }
    ensures { CoreRecordFound (drop at s.now) result }
{
    match short {
        Some(record) => Ok(record),
        None => read_any(&s[at..]),
    }
}
