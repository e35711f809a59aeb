// Cores read back from their bytes.
#![tactic(auto)]

pub mod numbered;
pub mod records;

ghost use Rattle.std.specs.Prelude.{◌≡◌, ◌≤◌};
ghost use Rattle.expr.specs.Answers.{answered};
ghost use Rattle.cores.specs.Reading.{read_core};
ghost use Rattle.cores.specs.Results.{widened, settled, core_answer, counts_of, Listable, Listed, ReadsBack};

use expr::kind::Kind;
use refusals::{Refusal, Refused};

// The most records of a core.
pub const MAX_CORE: usize = 65535;

// How many records a core has, and how many fields it needs.
#[derive(Clone, Copy, Debug, PartialEq, Eq)]
pub struct Counts {
    pub count: usize,
    pub fields: u32,
}

// The field count so far, with what the record of a kind and a field at a place needs. It answers for any number of a kind.
pub fn widen(
    fields: Result<u32, Refused>,
    kind: u8,
    field: u32,
    place: usize,
) -> Result<u32, Refused>
    ensures { answered result ≡ widened (answered fields) kind field place }
{
    let most = fields?;
    if kind != Kind::Assign as u8 && kind != Kind::Test as u8 {
        return Ok(most);
    }
    let Some(need) = field.checked_add(1) else {
        return Err(Refusal::FieldCount.at(place));
    };
    Ok(most.max(need))
}

// What is answered of a core of good form: 25, then 10, then the counts.
pub fn settle(count: usize, fields: Result<u32, Refused>, room: usize) -> Result<Counts, Refused>
    ensures { core_answer result ≡ settled count (answered fields) room }
{
    let fields = fields?;
    if room / 3 < count {
        return Err(Refusal::WorkMemory.at(0));
    }
    Ok(Counts { count, fields })
}

// What is answered of core bytes, for a list of `room` numbers: a loop with the number of cores that are still due. It is lent nothing that
// it could write.
fn judge(s: &[u8], room: usize) -> Result<Counts, Refused>
    ensures { core_answer result ≡ counts_of (read_core s.now room) }
{
    let mut at = 0;
    let mut due = 1;
    let mut place = 0;
    let mut fields = Ok(0);
    // A record may leave more records due: no `for` counts them.
    while 0 < due {
        if MAX_CORE <= place {
            return Err(Refusal::CoreTooLarge.at(place));
        }
        let short = records::read_short(s, at);
        let r = match records::read_core_record(short, s, at) {
            Err(refusal) => return Err(refusal.at(place)),
            Ok(r) => r,
        };
        fields = r.widen(fields, place);
        due = due - 1 + r.kind.arity();
        at += r.size;
        place += 1;
    }
    if at < s.len() {
        return Err(Refusal::LeftOver.at(place));
    }
    settle(place, fields, room)
}

// The records of a core of good form, to the front of the list.
fn write_records(s: &[u8], list: &mut [u32])
    requires { Listable s.now list.old }
    ensures { Listed s.now list.old list.new }
{
    let mut at = 0;
    let mut to = 0;
    // Records differ in size: no `for` counts the bytes, and an iterator over them would be a type with the laws of its trait for one loop.
    while at < s.len() {
        let short = records::read_short(s, at);
        let Ok(r) = records::read_core_record(short, s, at) else {
            return;
        };
        desugar::memory::write_record(&mut *list, to, r.kind.number() as u32, r.field, r.value);
        at += r.size;
        to += 3;
    }
}

// A core read back: its records go to the front of the list, three numbers each. All is judged before a number is written.
pub fn read_core(s: &[u8], list: &mut [u32]) -> Result<Counts, Refused>
    ensures { ReadsBack s.now list.old list.new result }
{
    let counts = judge(s, list.len())?;
    write_records(s, list);
    Ok(counts)
}
