// Operators whose operands are being read, a frame each: the kind; or, once the first operand was read, the kind with 16 more, and that operand's
// mask. Frames are three numbers of the list that C lends, so no enum.
ghost use Rattle.expr.specs.Kinds.{kind_number};
ghost use Rattle.std.specs.Prelude.{◌≡◌, ◌*◌, ◌≤◌, length};
ghost use Rattle.cores.specs.Reading.{max_core};
ghost use Rattle.packets.specs.Results.{nothing_yet, mask_in, framed, frames_in, state_of, fed, closed_mask, opened_kind, Stepped};

use crate::masks::Capture;
use cores::records::CoreRecord;
use expr::kind::Kind;

// What is added to the kind of an operator whose first operand was read.
const SECOND: u32 = 16;

// How far a run is: how many operators are open, the last mask, and how many of the next cores need not be looked at.
#[derive(Clone, Copy, Debug, Default, PartialEq, Eq)]
pub struct Progress {
    pub depth: usize,
    pub mask: u64,
    pub skip: usize,
}

// The mask in a frame, its lower half first.
fn mask_in(frame: &[u32; 3]) -> u64
    ensures { result ≡ mask_in frame.now }
{
    frame[1] as u64 + 0x1_0000_0000 * (frame[2] as u64)
}

// The frame of an operator: its kind and a mask.
fn framed(kind: u32, mask: u64) -> [u32; 3]
    ensures { result ≡ framed kind mask }
{
    let low = (mask % 0x1_0000_0000) as u32;
    let high = (mask / 0x1_0000_0000) as u32;
    [kind, low, high]
}

// The mask of an operator that is closed, by the last mask: one that is settled has that mask.
fn close(frame: &[u32; 3], mask: u64) -> u64
    ensures { result ≡ closed_mask frame.now mask }
{
    let kind = frame[0];
    if kind < SECOND {
        return mask;
    }
    let first = mask_in(frame);
    crate::masks::combine(kind - SECOND, first, mask)
}

// An operand of the last operator has a mask: operators are closed up to one whose second operand is needed. The second operands of those that are
// settled need not be looked at.
fn feed(frames: &mut [[u32; 3]], from: usize, value: u64) -> Progress
    requires { from ≤ length frames.old }
    ensures result_after { state_of frames.new result ≡ fed (frames_in frames.old from) value }
    ensures depth_le_from { (result.depth ≤ from) × (result.skip ≤ from) }
{
    let mut mask = value;
    let mut skip = 0;
    for under in (0..from).rev() {
        let frame = &frames[under];
        let kind = frame[0];
        let settled = crate::masks::is_settled(kind, mask);
        if (kind < SECOND) & !settled {
            frames[under] = framed(kind + SECOND, mask);
            return Progress {
                depth: under + 1,
                mask,
                skip,
            };
        }
        mask = close(frame, mask);
        skip += settled as usize;
    }
    Progress {
        depth: 0,
        mask,
        skip,
    }
}

// The kind that is written for an operator: one of a single operand waits for it as for a second one. By number, since that is what a frame of the
// list holds.
fn opened_kind(kind: Kind) -> u32
    ensures { result ≡ opened_kind (kind_number kind) }
{
    let number = kind.number() as u32;
    if number < 13 {
        return number;
    }
    number + SECOND
}

// The state behind one record of a core: the record is not looked at, it gives its mask to the last operator, or it opens one. Nothing is done where
// there is no room for an operator more: the list is then too short for the core, which is refused in the end.
pub(crate) fn step(
    frames: &mut [[u32; 3]],
    capture: &mut Capture,
    sofar: Progress,
    r: CoreRecord,
) -> Progress
    requires { (sofar.depth ≤ length frames.old) × (sofar.skip ≤ 2 * max_core) }
    ensures stepped { Stepped capture.old frames.old sofar r frames.new result }
    ensures same { capture.new ≡ capture.old }
{
    let depth = sofar.depth;
    let skip = sofar.skip;
    if frames.len() <= depth {
        return sofar;
    }
    if 0 < skip {
        let skip = skip - 1 + r.kind.arity();
        return Progress { skip, ..sofar };
    }
    // The kinds of atoms are the lowest seven.
    if r.kind.number() < 7 {
        let leaf = capture.leaf_mask(r);
        return feed(frames, depth, leaf);
    }
    frames[depth] = framed(opened_kind(r.kind), 0);
    Progress {
        depth: depth + 1,
        mask: 0,
        skip: 0,
    }
}
