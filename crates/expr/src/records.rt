// One record of a term.
ghost use Rattle.std.specs.Prelude.{◌≤◌, length};
ghost use Rattle.expr.specs.Kinds.{kind_number};
ghost use Rattle.expr.specs.Results.{BareHead, RecordFound, RecordFoundAt};

use crate::kind::{Kind, Pattern};
use crate::reader::Reader;
use literals::Literal;
use refusals::{Refusal, Refused};

// A record that was read, and its length in bytes.
#[derive(Clone, Copy, Debug, PartialEq, Eq)]
pub struct Head {
    pub kind: Kind,
    pub name: u32,
    pub start: u32,
    pub end: u32,
    pub pattern: Pattern,
    pub number: u32,
    pub a: Literal,
    pub b: Literal,
    pub size: usize,
}

impl Head {
    // The head of a record that is a kind alone: bit 0 is its whole map.
    fn bare(kind: Kind) -> Self
        ensures { BareHead (kind_number kind) result }
    {
        let none = Literal {
            at: 2,
            bits: 0,
            next: 2,
        };
        Head {
            kind,
            name: 0,
            start: 0,
            end: 0,
            pattern: Pattern::Exact,
            number: 0,
            a: none,
            b: none,
            size: 2,
        }
    }
}

// The record at the front of the bytes. One that is a kind alone, as operators are, answers without a look at each field. Inlined in
// `read_record_at`, it would build its answer and copy it: 5 % of a small term's instructions.
#[inline(never)]
pub fn read_record(s: &[u8]) -> Result<Head, Refusal>
    ensures { RecordFound s.now result }
{
    let mut reader = Reader::new(s);
    let (map, kind) = reader.kind()?;
    if map == 1 {
        return Ok(Head::bare(kind));
    }
    let (name, start, end) = reader.range(map)?;
    let (pattern, number) = reader.pattern(map, kind)?;
    let a = reader.literal(map / 64 % 2 == 1)?;
    let b = reader.literal(map / 128 % 2 == 1)?;
    Ok(Head {
        kind,
        name,
        start,
        end,
        pattern,
        number,
        a,
        b,
        size: reader.at,
    })
}

// The record from the byte `at` on, which has the index `place` in its term.
#[inline(always)]
pub fn read_record_at(s: &[u8], at: usize, place: usize) -> Result<Head, Refused>
    requires { at ≤ length s.now }
    ensures { RecordFoundAt s.now at place result }
{
    read_record(&s[at..]).map_err(|refusal| refusal.at(place))
}
