// Test fragment and Field count. A term of good form is its records one after the other, so each is a loop over records.
ghost use Rattle.std.specs.Prelude.{◌≡◌};
ghost use Rattle.expr.specs.Answers.{answered};
ghost use Rattle.expr.specs.Kinds.{kind_number};
ghost use Rattle.expr.specs.Operations.{fragment_bytes, fields_bytes};
ghost use Rattle.expr.specs.Results.{Term, FragmentOf, FieldsOf, own_fields};

use crate::kind::Kind;
use refusals::{Refusal, Refused};

// Whether all records of a term of good form may stand in the test fragment.
fn all_fragment(term: &[u8]) -> bool
    requires { Term term.now }
    ensures { FragmentOf term.now result }
{
    let mut at = 0;
    // Records differ in size: no `for` counts the bytes, and an iterator over them would be a type with the laws of its trait for two loops.
    while at < term.len() {
        let Ok(head) = crate::records::read_record(&term[at..]) else {
            return false;
        };
        if !head.kind.in_fragment() {
            return false;
        }
        at += head.size;
    }
    true
}

// Whether a term is in the test fragment.
pub fn is_test_fragment(term: &[u8]) -> Result<bool, Refused>
    ensures { answered result ≡ fragment_bytes term.now }
{
    crate::form::form(term)?;
    Ok(all_fragment(term))
}

// What a record gives to the field count by itself, by its kind, its start or field, and its end: field + 1 of an Assign or Test, if 32 bits
// hold that, the end of a direct range or of a LetBitRange, and else 0.
fn own_fields(kind: Kind, start: u32, end: u32) -> Option<u32>
    ensures { result ≡ own_fields (kind_number kind) start end }
{
    match kind {
        Kind::Assign | Kind::Test => start.checked_add(1),
        Kind::LetBitRange | Kind::BitRangeAssign | Kind::BitRangeTest | Kind::BitRangeMatch => Some(
            end,
        ),
        _ => Some(0),
    }
}

// The field count of a term of good form.
fn count_fields(term: &[u8]) -> Result<u32, Refused>
    requires { Term term.now }
    ensures { FieldsOf term.now result }
{
    let mut at = 0;
    let mut place = 0;
    let mut count = 0;
    // Records differ in size: no `for` counts the bytes, and an iterator over them would be a type with the laws of its trait for two loops.
    while at < term.len() {
        let Ok(head) = crate::records::read_record(&term[at..]) else {
            return Ok(0);
        };
        let Some(own) = own_fields(head.kind, head.start, head.end) else {
            return Err(Refusal::FieldCount.at(place));
        };
        count = count.max(own);
        at += head.size;
        place += 1;
    }
    Ok(count)
}

// The field count of a term: the greatest of what its records give, 25 at the first Assign or Test of field 4,294,967,295.
pub fn num_fields(term: &[u8]) -> Result<u32, Refused>
    ensures { answered result ≡ fields_bytes term.now }
{
    crate::form::form(term)?;
    count_fields(term)
}
