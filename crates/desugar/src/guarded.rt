// A condition and the branch that it guards, in work memory.
ghost use Rattle.std.specs.Prelude.{◌≡◌, ◌+◌, ◌*◌, ◌≤◌};

use crate::memory::Region;

// The cores of an If's condition and of its first branch, which lies right behind it. There is room for two records below them.
#[derive(Clone, Copy, Debug, PartialEq, Eq)]
pub struct Guarded {
    pub condition: Region,
    pub branch: Region,
    ghost low: { 6 ≤ condition.at },
    ghost behind: { condition.at + 3 * condition.count ≡ branch.at },
}
