// The backward pass: for each record the size of the core that begins there, and whether that is One when desugared again.
ghost use Rattle.std.specs.Prelude.{◌≡◌, true, ◌+◌, ◌*◌, ◌^◌, ◌≤◌, ◌<◌, length, get_or, set};
ghost use Rattle.expr.specs.Terms.{Core};
ghost use Rattle.desugar.specs.Memory.{Holds, Kept, Lies};
ghost use Rattle.desugar.specs.Negation.{is_test};
ghost use Rattle.desugar.specs.NegationRun.{note_number, notes_of, note_at, left_at, right_at, TwoNotes, CanNote};

use super::notes::Note;
use super::places::Places;
use crate::memory::FIRST_OPERATOR;
use expr::kind::Kind;

// The note of the second operand of the record whose note stands at `note`; `left` is the first one's.
pub(crate) fn right_note(work: &[u32], note: usize, left: Note) -> Note
    requires { TwoNotes work.now note × (note_number left ≡ left_at work.now note) }
    ensures { note_number result ≡ right_at work.now note }
{
    Note::from(work[note + 1 + left.size as usize])
}

// The note of the record at `here`; those of its operands stand above `note`. The first operand's is the last that was made: it is handed
// over, so that no turn waits for a note to be read back and taken apart.
fn own_note(work: &[u32], here: usize, note: usize, last: Note) -> Note
    requires { CanNote work.now here note last }
    ensures note { note_number result ≡ note_at work.now here note }
    ensures fits { note_number result < 2 ^ 32 }
{
    let kind = work[here];
    if kind < FIRST_OPERATOR {
        return Note {
            size: 1,
            one: kind == Kind::One as u32,
        };
    }
    let right = right_note(work, note, last);
    Note {
        size: last.size + right.size + 1,
        one: kind == Kind::Sequence as u32 && last.one && right.one,
    }
}

// Notes each record of a test, from `p.notes` on.
pub(crate) fn measure(work: &mut [u32], p: Places)
    requires lies { (c : Core) × (Lies work.old p.core.at p.core.count c) × (is_test c ≡ true) }
    requires room { p.notes + p.core.count ≤ length work.old }
    ensures kept { Kept p.notes work.old work.new }
    ensures holds { (c : Core) → Lies work.old p.core.at p.core.count c → is_test c ≡ true → Holds work.new p.notes (notes_of c) }
{
    let mut last = Note {
        size: 0,
        one: false,
    };
    for j in (0..p.core.count).rev() {
        let note = p.notes + j;
        last = own_note(work, p.core.at + 3 * j, note, last);
        work[note] = last.number();
    }
}
