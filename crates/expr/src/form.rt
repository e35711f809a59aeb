// The form of a term.
ghost use Rattle.std.specs.Prelude.{◌≡◌, ◌≤◌, length, drop};
ghost use Rattle.expr.specs.Results.{tree_from, trees_from, TreeFormed, TreesAsked, form_answer, shape_of};
ghost use Rattle.expr.specs.Form.{decode};

use refusals::{Refusal, Refused};

// The most records of a term, and its greatest depth.
pub const MAX_RECORDS: usize = 4096;

pub const MAX_DEPTH: usize = 256;

// How many bytes are used up to the end of a tree, and the index of the record behind it.
#[derive(Clone, Copy, Debug, PartialEq, Eq)]
pub struct Taken {
    pub used: usize,
    pub next: usize,
}

// The tree from the byte `at` on, of at most `left` levels, whose first record has the index `place`. The bytes before `at` count as
// used. All bytes and an index are passed, because the processor stalls where a callee copies a subslice that was just made.
#[cycle(tree_trees)]
#[tactic(auto, using(crate::proofs::FormSteps::record_refused, crate::proofs::FormSteps::record_good, crate::proofs::FormSteps::record_inside, crate::proofs::FormSteps::tree_over, crate::proofs::FormSteps::tree_deep))]
fn tree(s: &[u8], at: usize, left: usize, place: usize) -> Result<Taken, Refused>
    requires { at ≤ length s.now }
    ensures { TreeFormed (tree_from left place (drop at s.now)) s.now result }
{
    if MAX_RECORDS <= place {
        return Err(Refusal::TooManyRecords.at(place));
    }
    if left == 0 {
        return Err(Refusal::TooDeep.at(place));
    }
    let head = crate::records::read_record_at(s, at, place)?;
    let behind = at + head.size;
    let next = place + 1;
    let count = head.kind.arity();
    trees(s, behind, count, left - 1, next)
}

// As many trees as `count`, one behind the other, from the byte `at` on. The bytes before `at` count as used.
#[cycle(tree_trees)]
#[tactic(auto, using(crate::proofs::FormSteps::all_due, crate::proofs::FormSteps::none_due, crate::proofs::FormSteps::due_refused, crate::proofs::FormSteps::due_good))]
fn trees(s: &[u8], at: usize, count: usize, left: usize, place: usize) -> Result<Taken, Refused>
    requires { TreesAsked count at place s.now }
    ensures { TreeFormed (trees_from left count place (drop at s.now)) s.now result }
{
    let mut taken = Taken {
        used: at,
        next: place,
    };
    for _ in 0..count {
        taken = tree(s, taken.used, left, taken.next)?;
    }
    Ok(taken)
}

// The form of a whole term.
#[tactic(auto, using(crate::proofs::FormSteps::form_refused))]
pub fn form(term: &[u8]) -> Result<Taken, Refused>
    ensures { form_answer result ≡ shape_of term.now (decode term.now) }
{
    let t = tree(term, 0, MAX_DEPTH, 0)?;
    if t.used < term.len() {
        return Err(Refusal::LeftOver.at(t.next));
    }
    Ok(t)
}
