// What a walk leaves in work memory, and what becomes of the cores of a node's operands.
ghost use Rattle.std.specs.Prelude.{◌≡◌, false, ℕ, ◌+◌, ◌-◌, ◌*◌, ◌≤◌, length};
ghost use Rattle.expr.specs.Terms.{Core, Op2, Union, Sequence, two, op2_kind};
ghost use Rattle.expr.specs.Kinds.{kind_number};
ghost use Rattle.desugar.specs.Meter.{left, drawing};
ghost use Rattle.desugar.specs.Negation.{join as joinCores, join_draw};
ghost use Rattle.desugar.specs.Memory.{Kept, Lies, words};
ghost use Rattle.desugar.specs.WalkWords.{WalkedAs, Operands, drops as dropsOne, negating, choosing, NegationRoom, JoinRoom, Branches, BranchRoom, United, negated_size};

use crate::guarded::Guarded;
use crate::memory::{Region, write_bare};
use crate::test_negation::{NegationError, Places};
use expr::kind::Kind;
use refusals::{Refusal, Refused};

// The index of the byte behind a term, the index of the record behind it, where its core lies, and the allowance that is left.
#[derive(Clone, Copy, Debug, PartialEq, Eq)]
pub struct Walked {
    pub used: usize,
    pub next: usize,
    pub core: Region,
    pub left: usize,
}

// Moves a core down to `to`, if it is not there; where it lies then.
pub(crate) fn settle(work: &mut [u32], core: Region, to: usize) -> Region
    requires { (to ≤ core.at) × (core.at + 3 * core.count ≤ length work.old) }
    ensures place { (result.at ≡ to) × (result.count ≡ core.count) }
    ensures kept { Kept to work.old work.new }
    ensures lies { (c : Core) → Lies work.old core.at core.count c → Lies work.new to core.count c }
{
    if core.at != to {
        crate::memory::copy(work, core.at, to, 3 * core.count);
    }
    Region { at: to, ..core }
}

// Whether the operator is a Sequence, which drops a One, and these are the numbers of a One.
pub(crate) fn drops(kind: Kind, core: &[u32]) -> bool
    ensures { (o : Op2) (c : Core) → op2_kind o ≡ kind_number kind → core.now ≡ words c → result ≡ dropsOne o c }
{
    if kind != Kind::Sequence {
        return false;
    }
    if core.len() != 3 {
        return false;
    }
    core[0] == Kind::One as u32
}

// Draws one record and writes it below its operands.
pub(crate) fn seal(
    kind: Kind,
    place: usize,
    work: &mut [u32],
    operand: Walked,
) -> Result<Walked, Refused>
    requires { (3 ≤ operand.core.at) × (operand.core.at + 3 * operand.core.count ≤ length work.old) }
    ensures { (c : Core) → Operands c (kind_number kind) operand work.old
        → WalkedAs (drawing 1 place c (left operand.left)) operand.used operand.next (operand.core.at - 3) (operand.core.count + operand.left) 0 work.old work.new result }
{
    if operand.left == 0 {
        return Err(Refusal::AllowanceSpent.at(place));
    }
    let core = Region {
        at: operand.core.at - 3,
        count: operand.core.count + 1,
    };
    write_bare(work, core.at, kind);
    Ok(Walked {
        core,
        left: operand.left - 1,
        ..operand
    })
}

// Two operands under their operator: the first, which is not dropped, has room for a record below it.
pub(crate) fn join(
    kind: Kind,
    place: usize,
    work: &mut [u32],
    first: Region,
    b: Walked,
) -> Result<Walked, Refused>
    requires { JoinRoom work.old first b }
    ensures { (o : Op2) (c d : Core) → op2_kind o ≡ kind_number kind → dropsOne o c ≡ false → Lies work.old first.at first.count c → Lies work.old b.core.at b.core.count d
        → WalkedAs (drawing (join_draw o c d) place (joinCores o c d) (left b.left)) b.used b.next (first.at - 3) (first.count + b.core.count + b.left) 0 work.old work.new result }
{
    if drops(kind, b.core.words(work)) {
        return Ok(Walked { core: first, ..b });
    }
    settle(&mut *work, b.core, first.end());
    let both = Region {
        count: first.count + b.core.count,
        ..first
    };
    seal(kind, place, work, Walked { core: both, ..b })
}

// The negation of a core, in its place.
pub(crate) fn negate_core(
    place: usize,
    work: &mut [u32],
    operand: Walked,
) -> Result<Walked, Refused>
    requires { NegationRoom work.old operand }
    ensures { (c : Core) → Lies work.old operand.core.at operand.core.count c
        → WalkedAs (negating c place (left operand.left)) operand.used operand.next operand.core.at (operand.core.count + operand.left) 0 work.old work.new result }
{
    let core = operand.core;
    let notes = core.end();
    let modes = notes + core.count;
    let places = Places {
        core,
        notes,
        modes,
        out: modes + core.count,
        limit: operand.left,
    };
    match crate::test_negation::negation(work, places, core.at) {
        Err(NegationError::NotTest) => Err(Refusal::NegatedNonTest.at(place)),
        Err(NegationError::TooLarge) => Err(Refusal::AllowanceSpent.at(place)),
        Ok(size) => Ok(Walked {
            core: Region {
                count: size,
                ..core
            },
            left: operand.left - size,
            ..operand
        }),
    }
}

// How many records of a negation were written.
pub(crate) fn negated_size(outcome: Result<usize, NegationError>) -> usize
    ensures { result ≡ negated_size outcome }
{
    outcome.unwrap_or(0)
}

// The branches of an If under their operators: the condition's negation has `size` records.
fn unite(
    place: usize,
    work: &mut [u32],
    g: Guarded,
    size: usize,
    e: Walked,
) -> Result<Walked, Refused>
    requires { BranchRoom work.old g size e }
    ensures { (c t n' d : Core) → United work.old g size e c t n' d
        → WalkedAs (drawing (size + 3) place (two Union (two Sequence c t) (two Sequence n' d)) (left e.left)) e.used e.next (g.condition.at - 6) (g.condition.count + g.branch.count + e.core.count + e.left) 0 work.old work.new result }
{
    if e.left < size + 3 {
        return Err(Refusal::AllowanceSpent.at(place));
    }
    let mid = g.branch.end();
    settle(&mut *work, e.core, mid + 3 + 3 * size);
    let top = g.condition.at - 6;
    write_bare(&mut *work, mid, Kind::Sequence);
    write_bare(&mut *work, top + 3, Kind::Sequence);
    write_bare(work, top, Kind::Union);
    let count = 3 + g.condition.count + g.branch.count + size + e.core.count;
    Ok(Walked {
        core: Region { at: top, count },
        left: e.left - size - 3,
        ..e
    })
}

// An If of its condition and its first branch, the outcome of the condition's negation, and its other branch.
pub(crate) fn choose(
    place: usize,
    work: &mut [u32],
    g: Guarded,
    outcome: Result<usize, NegationError>,
    e: Walked,
) -> Result<Walked, Refused>
    requires { BranchRoom work.old g (negated_size outcome) e }
    ensures { (limit : ℕ) (c t d : Core) → Branches work.old g outcome e limit c t d
        → WalkedAs (choosing c t d place (left e.left)) e.used e.next (g.condition.at - 6) (g.condition.count + g.branch.count + e.core.count + e.left) 0 work.old work.new result }
{
    match outcome {
        Err(NegationError::NotTest) => Err(Refusal::ConditionNotTest.at(place)),
        Err(NegationError::TooLarge) => Err(Refusal::AllowanceSpent.at(place)),
        Ok(size) => unite(place, work, g, size, e),
    }
}
