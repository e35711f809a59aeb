// The forward pass: a stack of modes beside the records, which are gone through once. Kinds are numbers of work memory, which C lends.
ghost use Rattle.std.specs.Prelude.{◌≡◌, ◌+◌, ◌*◌, ◌≤◌, ◌<◌, length, get_or};
ghost use Rattle.expr.specs.Terms.{Core};
ghost use Rattle.desugar.specs.Memory.{Kept};
ghost use Rattle.desugar.specs.NegationRun.{Run, Stepped, Noted, Result};

use super::modes::Mode;
use super::places::Places;
use crate::memory::FIRST_OPERATOR;
use expr::kind::Kind;

// The top of the stack, and how many records are written; above the limit none of this turn's are.
#[derive(Clone, Copy, Debug, PartialEq, Eq)]
pub struct Next {
    pub top: usize,
    pub made: usize,
}

// A turn in the commonest case: a leaf, a Union or an Intersect is negated. One record is written and the operands' modes are Negate too, so
// no note is read and no mode computed.
fn plain_turn(work: &mut [u32], p: Places, j: usize, kind: u32, s: Next) -> Next
    requires room { p.out + 3 * p.limit ≤ length work.old }
    requires run { (t : Core) × Run work.old t p j s }
    requires left { j < p.core.count }
    requires within { s.made ≤ p.limit }
    requires negates_low_kind { (kind ≡ get_or work.old (p.core.at + 3 * j) 0) × (kind < 9) × (get_or work.old s.top 0 ≡ 0) }
    ensures kept { Kept p.modes work.old work.new }
    ensures stepped { (t : Core) → Run work.old t p j s → Stepped work.new t p (j + 1) result }
{
    let Next { top, made } = s;
    if p.limit == made {
        return Next {
            top,
            made: made + 1,
        };
    }
    let here = p.core.at + 3 * j;
    let field = work[here + 1];
    let value = work[here + 2];
    crate::memory::write_record(
        work,
        p.out + 3 * made,
        super::written::new_kind(Mode::Negate, kind),
        field,
        super::written::new_value(Mode::Negate, kind, value),
    );
    if kind < FIRST_OPERATOR {
        return Next {
            top: top + 1,
            made: made + 1,
        };
    }
    // The mode at `top` is Negate already.
    work[top - 1] = Mode::Negate as u32;
    Next {
        top: top - 1,
        made: made + 1,
    }
}

// Writes what record j asks for, whose mode is at the top of the stack, and puts the modes of its operands there.
fn turn(work: &mut [u32], p: Places, j: usize, s: Next) -> Next
    requires room { p.out + 3 * p.limit ≤ length work.old }
    requires run { (t : Core) × Run work.old t p j s }
    requires left { j < p.core.count }
    requires within { s.made ≤ p.limit }
    ensures kept { Kept p.modes work.old work.new }
    ensures stepped { (t : Core) → Run work.old t p j s → Stepped work.new t p (j + 1) result }
{
    let Next { top, made } = s;
    let here = p.core.at + 3 * j;
    let note = p.notes + j;
    let kind = work[here];
    // Tested as a number: made a Mode before the test, it costs 6% of the instructions on negated differences.
    let number = work[top];
    if number == Mode::Negate as u32 && kind < Kind::Xor as u32 {
        return plain_turn(work, p, j, kind, s);
    }
    let mode = Mode::from(number);
    let drop = super::written::dropped(work, note, mode, kind);
    let written = super::written::written(mode, kind, drop);
    let k = written.size();
    if p.limit - made < k {
        return Next {
            top,
            made: made + k,
        };
    }
    super::written::emit(work, here, mode, written, p.out + 3 * made);
    if kind < FIRST_OPERATOR {
        return Next {
            top: top + 1,
            made: made + k,
        };
    }
    super::written::push(work, top, mode, kind, drop);
    Next {
        top: top - 1,
        made: made + k,
    }
}

// Writes the negation of the noted test from `p.out` on, and answers its size, if that is at most `p.limit`.
pub(crate) fn negate(work: &mut [u32], p: Places) -> Option<usize>
    requires room { p.out + 3 * p.limit ≤ length work.old }
    requires noted { (c : Core) × Noted work.old p c }
    ensures kept { Kept p.modes work.old work.new }
    ensures negated { (c : Core) → Noted work.old p c → Result work.new c p.out p.limit result }
{
    let mut s = Next {
        top: p.modes + p.core.count - 1,
        made: 0,
    };
    work[s.top] = Mode::Negate as u32;
    for j in 0..p.core.count {
        s = turn(work, p, j, s);
        if p.limit < s.made {
            return None;
        }
    }
    Some(s.made)
}
