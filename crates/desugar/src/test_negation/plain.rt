// The negation of a core without Xor and Difference: record by record, and as large as the core.
ghost use Rattle.std.specs.Prelude.{◌≡◌, true, ◌*◌, length};
ghost use Rattle.expr.specs.Terms.{Core};
ghost use Rattle.desugar.specs.Negation.{negate};
ghost use Rattle.desugar.specs.Memory.{Kept, Lies, CopyRoom, words};
ghost use Rattle.desugar.specs.PlainNegation.{plain_kind, is_plain};

use super::modes::{Mode, Written};
use crate::memory::Region;

// Is this the kind of a test's record, other than Xor and Difference? It is a number of work memory.
fn plain_kind(kind: u32) -> bool
    ensures { result ≡ plain_kind kind }
{
    matches!(kind, 0..=1 | 6..=8 | 11)
}

// Has this core plain kinds only?
pub(crate) fn is_plain(core: &[u32]) -> bool
    ensures { (c : Core) → core.now ≡ words c → result ≡ is_plain c }
{
    super::tested::all_kinds(core, plain_kind)
}

// Writes the negation of a plain core to `to`: down, where the two may overlap, or past its end.
pub(crate) fn negate_plain(work: &mut [u32], core: Region, to: usize)
    requires copy_room { CopyRoom (length work.old) core.at to (3 * core.count) }
    requires lies { (c : Core) × (Lies work.old core.at core.count c) × (is_plain c ≡ true) }
    ensures kept { Kept to work.old work.new }
    ensures negated { (c : Core) → Lies work.old core.at core.count c → is_plain c ≡ true → Lies work.new to core.count (negate c) }
{
    for j in 0..core.count {
        let here = core.at + 3 * j;
        super::written::emit(work, here, Mode::Negate, Written::Record, to + 3 * j);
    }
}
