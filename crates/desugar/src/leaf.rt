// The core of a record without children.
ghost use Rattle.std.specs.Prelude.{◌≡◌, List, ℕ, ◌+◌, ◌≤◌, length};
ghost use Rattle.std.proofs.lemmas.List.Edits.{sets};
ghost use Rattle.expr.specs.Terms.{Core, Expr, Plain, Var, leaf as leafCore};
ghost use Rattle.expr.specs.Kinds.{kind_number};
ghost use Rattle.expr.specs.Form.{node_of, node0};
ghost use Rattle.expr.specs.Results.{record_of};
ghost use Rattle.desugar.specs.Bindings.{Env};
ghost use Rattle.desugar.specs.Meter.{left};
ghost use Rattle.desugar.specs.Desugar.{desugar};
ghost use Rattle.desugar.specs.Memory.{words};
ghost use Rattle.desugar.specs.BindingWords.{Bound};
ghost use Rattle.desugar.specs.WalkWords.{LeafReady, WalkedAs};
ghost use Rattle.desugar.specs.RangedWords.{DrawRoom, EnvRoom, atom_of};

use crate::memory::{Region, write_bare, write_bit};
use crate::operands::Walked;
use crate::walk::Spot;
use expr::kind::Kind;
use expr::records::Head;
use refusals::{Refusal, Refused};

// The record of an atom. Only kinds 5 and 6 have a field.
fn write_atom(head: Head, work: &mut [u32], top: usize)
    requires { (kind_number head.kind ≤ 6) × (top + 3 ≤ length work.old) }
    ensures { (s : List ℕ) → work.new ≡ sets work.old top (words (leafCore (atom_of (record_of s head)))) }
{
    match head.kind {
        Kind::Assign | Kind::Test => {
            write_bit(work, top, head.kind, head.start, head.number == 1)
        }
        _ => write_bare(work, top, head.kind),
    }
}

// The core of an atom.
fn plain(head: Head, work: &mut [u32], spot: Spot) -> Result<Walked, Refused>
    requires { (kind_number head.kind ≤ 6) × DrawRoom work.old spot.place spot.top spot.allowance }
    ensures { (s : List ℕ) (ρ : Env Core)
        → WalkedAs (desugar ρ (Plain (atom_of (record_of s head))) spot.place (left spot.allowance)) spot.at (spot.place + 1) spot.top spot.allowance 0 work.old work.new result }
{
    if spot.allowance == 0 {
        return Err(Refusal::AllowanceSpent.at(spot.place));
    }
    write_atom(head, work, spot.top);
    Ok(Walked {
        used: spot.at,
        next: spot.place + 1,
        core: Region {
            at: spot.top,
            count: 1,
        },
        left: spot.allowance - 1,
    })
}

// The core of a variable: a copy of the one that it is bound to.
fn variable(head: Head, work: &mut [u32], spot: Spot) -> Result<Walked, Refused>
    requires { EnvRoom work.old spot.place spot.env.last spot.top spot.allowance }
    ensures { (ρ : Env Core) → Bound work.old spot.env.last ρ
        → WalkedAs (desugar ρ (Var head.name) spot.place (left spot.allowance)) spot.at (spot.place + 1) spot.top spot.allowance 0 work.old work.new result }
{
    let scope = spot.env.within(work);
    let Some(core) = scope.lookup_variable(head.name) else {
        return Err(scope.unbound(head.name).at(spot.place));
    };
    let count = core.count;
    if spot.allowance < count {
        return Err(Refusal::AllowanceSpent.at(spot.place));
    }
    crate::memory::copy(work, core.at, spot.top, 3 * count);
    Ok(Walked {
        used: spot.at,
        next: spot.place + 1,
        core: Region {
            at: spot.top,
            count,
        },
        left: spot.allowance - count,
    })
}

// The core of the record `head` of the bytes s: an atom, a variable, or a use of a range. s is a part of the whole bytes; the
// spot is behind the record, but for its place.
pub(crate) fn leaf(head: Head, s: &[u8], work: &mut [u32], spot: Spot) -> Result<Walked, Refused>
    requires { LeafReady s.now head spot.place spot.env.last spot.top spot.allowance work.old }
    ensures { (e : Expr) (ρ : Env Core) → node_of (record_of s.now head) ≡ node0 e → Bound work.old spot.env.last ρ
        → WalkedAs (desugar ρ e spot.place (left spot.allowance)) spot.at (spot.place + 1) spot.top spot.allowance 0 work.old work.new result }
{
    match head.kind {
        Kind::Zero | Kind::One | Kind::Top | Kind::Dup | Kind::End | Kind::Assign | Kind::Test =>
            plain(head, work, spot),
        Kind::Var => variable(head, work, spot),
        _ => crate::ranged::ranged(head, s, work, spot),
    }
}
