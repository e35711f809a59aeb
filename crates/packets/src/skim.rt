// Records that are judged and not looked at.
ghost use Rattle.expr.specs.Kinds.{kind_number};
ghost use Rattle.std.specs.Prelude.{◌≡◌, ◌&&◌, ◌+◌, ◌*◌, ◌≤◌, leb};
ghost use Rattle.cores.specs.Reading.{max_core};
ghost use Rattle.packets.specs.Results.{Starts, SkimsTo, Skipped};

use crate::cursor::Cursor;
use crate::frames::Progress;
use cores::{MAX_CORE, records};
use expr::kind::Kind;

// What is next, how many cores are due, and how far the run is.
#[derive(Clone, Copy, Debug, PartialEq, Eq)]
pub struct Spot<'a> {
    pub cursor: Cursor<'a>,
    pub due: usize,
    pub run: Progress,
}

// What is next, and how many cores are still to be skipped.
#[derive(Clone, Copy, Debug, PartialEq, Eq)]
pub struct Skimmed<'a> {
    pub cursor: Cursor<'a>,
    pub skip: usize,
}

// Whether a test may have a record of this kind, an operator or a Test.
fn is_skimmed(kind: Kind) -> bool
    ensures { result ≡ (leb 6 (kind_number kind) && leb (kind_number kind) 11) }
{
    matches!(
        kind,
        Kind::Test | Kind::Union | Kind::Intersect | Kind::Xor | Kind::Difference | Kind::Sequence
    )
}

// Skips so many cores, as long as their records are those of tests and soon read: the others are left to the loop that reads all.
pub(crate) fn skim(from: Cursor, cores: usize) -> Skimmed
    requires { cores ≤ max_core + 1 }
    ensures { SkimsTo from.entry cores result }
{
    let mut cursor = from;
    let mut skip = cores;
    // A record may leave more cores to skip: no `for` counts them.
    while 0 < skip {
        let next = cursor.skip_pairs();
        let Some(r) = records::read_short(next.bytes, next.at) else {
            return Skimmed { cursor: next, skip };
        };
        if (MAX_CORE <= next.place) | !is_skimmed(r.kind) {
            return Skimmed { cursor: next, skip };
        }
        skip = skip - 1 + r.kind.arity();
        cursor = next.behind(r);
    }
    Skimmed { cursor, skip }
}

// How many cores to skip, of those that are due.
fn skippable(skip: usize, due: usize) -> usize
    ensures { (result ≤ skip) × (result ≤ due) }
{
    if due < skip {
        return 0;
    }
    skip
}

impl<'a> Spot<'a> {
    // Before the first record: one core is due.
    pub(crate) fn new(bytes: &'a [u8]) -> Self
        ensures { Starts bytes.now result }
    {
        Spot {
            cursor: Cursor::new(bytes),
            due: 1,
            run: Progress::default(),
        }
    }

    // Goes on behind the cores that need not be looked at, or as far as skim gets.
    pub(crate) fn skip_cores(self) -> Self
        requires { (self.due ≤ max_core + 1) × (self.run.skip ≤ 2 * max_core) }
        ensures { Skipped self.entry result }
    {
        let Spot { cursor, due, run } = self;
        let cores = skippable(run.skip, due);
        let next = skim(cursor, cores);
        let skip = run.skip - cores + next.skip;
        Spot {
            cursor: next.cursor,
            due: due - cores + next.skip,
            run: Progress { skip, ..run },
        }
    }
}
