// Up to sixty-four packets through a core that is a test, in one pass over its records.
#![tactic(auto)]

mod cursor;
mod frames;
mod masks;
mod pairs;
mod skim;

ghost use Rattle.expr.specs.Answers.{answered};
ghost use Rattle.std.specs.Prelude.{◌≡◌, ◌≤◌, length};
ghost use Rattle.packets.specs.Running.{run_packets};
ghost use Rattle.packets.specs.Results.{Passed};

use crate::masks::Capture;
use crate::skim::Spot;
use cores::{MAX_CORE, records};
use refusals::{Refusal, Refused};

// The most packets of a call.
pub const MAX_PACKETS: usize = 64;

// A core that was read: its records, its fields, whether it is a test, and the packets that pass it.
#[derive(Clone, Copy, Debug, PartialEq, Eq)]
struct Pass {
    count: usize,
    fields: u32,
    test: bool,
    mask: u64,
}

// Reads the core once for all packets, from its first record to its last, and makes its mask on the way. Operators whose operands are being read lie in
// the list.
fn one_pass(s: &[u8], list: &mut [u32], capture: &mut Capture) -> Result<Pass, Refused>
    ensures passed { Passed s.now (length list.old) capture.old result }
    ensures same { capture.new ≡ capture.old }
{
    let room = list.len();
    let frames = list.as_chunks_mut::<3>().0;
    let mut test = true;
    let mut spot = Spot::new(s);
    // A record may leave more cores due: no `for` counts them.
    while 0 < spot.due {
        let cursor = spot.cursor;
        if MAX_CORE <= cursor.place {
            return Err(Refusal::CoreTooLarge.at(cursor.place));
        }
        let short = records::read_short(cursor.bytes, cursor.at);
        let r = match records::read_core_record(short, cursor.bytes, cursor.at) {
            Err(refusal) => return Err(refusal.at(cursor.place)),
            Ok(r) => r,
        };
        test = test & r.kind.is_test();
        let run = crate::frames::step(&mut *frames, &mut *capture, spot.run, r);
        let behind = cursor.behind(r);
        let due = spot.due - 1 + r.kind.arity();
        let read = Spot {
            cursor: behind,
            due,
            run,
        };
        spot = read.skip_cores();
    }
    let cursor = spot.cursor;
    if cursor.at < s.len() {
        return Err(Refusal::LeftOver.at(cursor.place));
    }
    let counts = cores::settle(cursor.place, cursor.fields, room)?;
    Ok(Pass {
        count: counts.count,
        fields: counts.fields,
        test,
        mask: spot.run.mask,
    })
}

// The packets that pass a core: bit i says whether packet i does. The list is scratch.
pub fn run_packets(
    core: &[u8],
    list: &mut [u32],
    packets: &[u8],
    lengths: &[u32],
) -> Result<u64, Refused>
    ensures { answered result ≡ run_packets core.now (length list.old) packets.now lengths.now }
{
    let count = lengths.len();
    let few = count.min(MAX_PACKETS);
    let mut capture = Capture::new(packets, &lengths[..few]);
    let read = one_pass(core, list, &mut capture)?;
    if !read.test {
        return Err(Refusal::CoreNotTest.at(0));
    }
    if (count < 1) | (MAX_PACKETS < count) {
        return Err(Refusal::PacketCount.at(0));
    }
    match capture.first_short(read.fields) {
        Some(short) => Err(Refusal::PacketTooShort.at(short)),
        None => Ok(read.mask),
    }
}
