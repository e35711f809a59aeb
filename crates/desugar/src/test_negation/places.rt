// The regions of work memory that a negation works in.
ghost use Rattle.std.specs.Prelude.{◌+◌, ◌*◌, ◌≤◌};

use crate::memory::Region;

// Where the core, a note for each of its records, a mode for each, and the result of at most `limit` records lie: one behind the other. That the
// memory reaches to the end of the result, and what of it stays as it was, stands in the clauses of each step: it is lent anew to each, and
// a struct that held it too would be taken apart again where the core is moved before and behind the steps.
#[derive(Clone, Copy, Debug, PartialEq, Eq)]
pub struct Places {
    pub core: Region,
    pub notes: usize,
    pub modes: usize,
    pub out: usize,
    pub limit: usize,
    ghost small: { core.count ≤ 0x3fff_ffff },
    ghost few: { limit ≤ 0x3fff_ffff },
    ghost notes_at: { core.at + 3 * core.count ≤ notes },
    ghost modes_at: { notes + core.count ≤ modes },
    ghost out_at: { modes + core.count ≤ out },
}
