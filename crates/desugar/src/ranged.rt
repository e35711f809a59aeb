// The core of a use of a range: an assignment, a test, or a match.
ghost use Rattle.std.specs.Prelude.{◌≡◌, List, ℕ, ◌+◌};
ghost use Rattle.expr.specs.Terms.{Core, Ranged};
ghost use Rattle.expr.specs.Results.{record_of, HeadInside};
ghost use Rattle.desugar.specs.Bindings.{Env, find_range};
ghost use Rattle.desugar.specs.Meter.{left};
ghost use Rattle.desugar.specs.Desugar.{desugar};
ghost use Rattle.desugar.specs.BindingWords.{Bound, fields_pair};
ghost use Rattle.desugar.specs.WalkWords.{LeafReady, WalkedAs, where_of, use_of};
ghost use Rattle.desugar.specs.RangedWords.{DrawRoom, RangeKept, record_in, UseIn, use_drawn, judged_range, judged_answer};

use crate::Fields;
use crate::bindings::Scope;
use crate::judged::JudgedUse;
use crate::memory::Region;
use crate::operands::Walked;
use crate::uses::Use;
use crate::walk::Spot;
use expr::kind::Kind;
use expr::records::Head;
use literals::BitSlice;
use refusals::{Refusal, Refused};

// The use of a range by the record `head` of the bytes s.
fn use_in(head: Head, s: &[u8]) -> Use<'_>
    requires { HeadInside s.now (Ok head) }
    ensures { UseIn s.now head result }
{
    Use {
        kind: head.kind,
        pattern: head.pattern,
        number: head.number,
        a: BitSlice {
            bytes: &s[head.a.at..],
            len: head.a.bits,
        },
        b: BitSlice {
            bytes: &s[head.b.at..],
            len: head.b.bits,
        },
    }
}

// The core of a use of fields, which keeps the rules: the draw.
fn use_core(u: Use<'_>, fields: Fields, work: &mut [u32], spot: Spot) -> Result<Walked, Refused>
    requires { RangeKept u fields × DrawRoom work.old spot.place spot.top spot.allowance }
    ensures { WalkedAs (use_drawn (use_of (record_in u.entry)) (fields.start, fields.end) spot.place (left spot.allowance))
        spot.at (spot.place + 1) spot.top spot.allowance 0 work.old work.new result }
{
    let judged = JudgedUse { used: u, fields };
    let size = judged.size();
    if (spot.allowance as u64) < size {
        return Err(Refusal::AllowanceSpent.at(spot.place));
    }
    let count = size as usize;
    judged.write(work, spot.top);
    Ok(Walked {
        used: spot.at,
        next: spot.place + 1,
        core: Region {
            at: spot.top,
            count,
        },
        left: spot.allowance - count,
    })
}

// The fields that a record names.
fn find_range(head: Head, scope: Scope<'_>) -> Option<Fields>
    ensures { (s : List ℕ) (ρ : Env Core) → Bound scope.entry.work.now scope.entry.last ρ → fields_pair result ≡ find_range ρ (where_of (record_of s head)) }
{
    match head.kind {
        Kind::BitRangeAssign | Kind::BitRangeTest | Kind::BitRangeMatch => Some(Fields {
            start: head.start,
            end: head.end,
        }),
        _ => scope.lookup_alias(head.name),
    }
}

// The fields that the record `head` of the bytes s names, where its use of them keeps the rules.
pub fn judged_range(head: Head, s: &[u8], scope: Scope<'_>) -> Result<Fields, Refusal>
    requires { HeadInside s.now (Ok head) }
    ensures { (ρ : Env Core) (at : ℕ) → Bound scope.entry.work.now scope.entry.last ρ
        → judged_answer result at ≡ judged_range ρ (where_of (record_of s.now head)) (use_of (record_of s.now head)) at }
{
    let Some(fields) = find_range(head, scope) else {
        return Err(Refusal::UnknownAlias);
    };
    crate::rules::range_rule(use_in(head, s), fields)?;
    Ok(fields)
}

// The core of a use of a range: the rules, then the draw.
pub(crate) fn ranged(head: Head, s: &[u8], work: &mut [u32], spot: Spot) -> Result<Walked, Refused>
    requires { LeafReady s.now head spot.place spot.env.last spot.top spot.allowance work.old }
    ensures { (ρ : Env Core) → Bound work.old spot.env.last ρ
        → WalkedAs (desugar ρ (Ranged (where_of (record_of s.now head)) (use_of (record_of s.now head))) spot.place (left spot.allowance)) spot.at (spot.place + 1) spot.top spot.allowance 0 work.old work.new result }
{
    match judged_range(head, s, spot.env.within(work)) {
        Err(refusal) => Err(refusal.at(spot.place)),
        Ok(fields) => use_core(use_in(head, s), fields, work, spot),
    }
}
