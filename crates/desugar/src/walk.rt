// The walk over a term: recursion over its parts, each child's core on top of the stack. The functions that take a record apart are inlined, so
// that a level of the term is one frame of the machine's stack.
// Netkat's check walks a term in this shape too. One walk over a trait is no plainer: between the children and behind them cores are moved,
// dropped, joined and negated here, and records drawn; there two bits are joined. So the trait would have a method and a law for each of these
// steps of seven nodes, and both walks would stand written out in its two impls.
// What a node with one child asks stands in the clauses of three functions: a type for it would hold the lent bytes, the lent memory and the spot,
// be made for each node, and be taken apart again for each child, whose spot is another.
ghost use Rattle.std.specs.Prelude.{◌≡◌, cond};
ghost use Rattle.expr.specs.Terms.{Unary, Binary, TestNegation, IfThenElse, Let, LetBitRange};
ghost use Rattle.expr.specs.Kinds.{kind_number};
ghost use Rattle.desugar.specs.WalkWords.{TermReady, OneReady, TwoReady, ThreeReady, ElseReady, Operator1, Operator2, TermWalked, OneWalked, TwoWalked, ThreeWalked, ElseWalked};

use crate::Fields;
use crate::bindings::Bindings;
use crate::guarded::Guarded;
use crate::operands::Walked;
use crate::test_negation::Places;
use expr::kind::Kind;
use refusals::Refused;

// Where a walk stands: the byte and the record that are next, how many levels may follow, the bindings around it, the top of the stack, and the
// allowance that is left.
#[derive(Clone, Copy, Debug, PartialEq, Eq)]
pub struct Spot {
    pub at: usize,
    pub place: usize,
    pub left: usize,
    pub env: Bindings,
    pub top: usize,
    pub allowance: usize,
}

// The core of the term that is next. It takes the whole bytes and an index, which is faster than a new slice for each call.
#[cycle(walk)]
pub(crate) fn desugar_with_env(s: &[u8], work: &mut [u32], spot: Spot) -> Result<Walked, Refused>
    requires { TermReady s.now spot work.old }
    ensures { (q : TermReady s.now spot work.old)
        → TermWalked q work.new result }
{
    let head = expr::records::read_record_at(s, spot.at, spot.place)?;
    let kind = head.kind;
    let inner = Spot {
        at: spot.at + head.size,
        left: spot.left - 1,
        ..spot
    };
    match kind {
        Kind::Union
        | Kind::Intersect
        | Kind::Xor
        | Kind::Difference
        | Kind::Sequence
        | Kind::LtlUntil => binary(kind, s, work, inner),
        Kind::Complement | Kind::Star | Kind::LtlNext => unary(kind, s, work, inner),
        Kind::TestNegation => test_negation(s, work, inner),
        Kind::IfThenElse => if_then_else(s, work, inner),
        Kind::Let => let_variable(head.name, s, work, inner),
        Kind::LetBitRange => {
            let fields = Fields {
                start: head.start,
                end: head.end,
            };
            let_bit_range(head.name, fields, s, work, inner)
        }
        _ => crate::leaf::leaf(head, &s[spot.at..], work, inner),
    }
}

// Complement, Star, LtlNext: the record goes right below its operand, wherever that lies.
#[cycle(walk)]
#[inline(always)]
fn unary(kind: Kind, s: &[u8], work: &mut [u32], spot: Spot) -> Result<Walked, Refused>
    requires { Operator1 (kind_number kind) × OneReady s.now spot work.old }
    ensures { (k : Operator1 (kind_number kind)) (q : OneReady s.now spot work.old)
        → OneWalked q (Unary k.o) work.new result }
{
    let a = desugar_with_env(
        s,
        &mut *work,
        Spot {
            place: spot.place + 1,
            top: spot.top + 3,
            ..spot
        },
    )?;
    crate::operands::seal(kind, spot.place, work, a)
}

// TestNegation.
#[cycle(walk)]
#[inline(always)]
fn test_negation(s: &[u8], work: &mut [u32], spot: Spot) -> Result<Walked, Refused>
    requires { OneReady s.now spot work.old }
    ensures { (q : OneReady s.now spot work.old)
        → OneWalked q TestNegation work.new result }
{
    let a = desugar_with_env(
        s,
        &mut *work,
        Spot {
            place: spot.place + 1,
            ..spot
        },
    )?;
    crate::operands::negate_core(spot.place, work, a)
}

// Where the second operand's core goes: behind the first, or in its place.
fn second_at(dropped: bool, top: usize, end: usize) -> usize
    ensures { result ≡ cond dropped top end }
{
    if dropped {
        return top;
    }
    end
}

// The operators with two operands. Where a Sequence drops its first operand, the second takes its place.
#[cycle(walk)]
#[inline(always)]
fn binary(kind: Kind, s: &[u8], work: &mut [u32], spot: Spot) -> Result<Walked, Refused>
    requires { Operator2 (kind_number kind) × TwoReady s.now spot work.old }
    ensures { (k : Operator2 (kind_number kind)) (q : TwoReady s.now spot work.old)
        → TwoWalked q (Binary k.o) work.new result }
{
    let a = desugar_with_env(
        s,
        &mut *work,
        Spot {
            place: spot.place + 1,
            top: spot.top + 3,
            ..spot
        },
    )?;
    let first = crate::operands::settle(&mut *work, a.core, spot.top + 3);
    let dropped = crate::operands::drops(kind, first.words(work));
    let to = second_at(dropped, spot.top, first.end());
    let b = desugar_with_env(
        s,
        &mut *work,
        Spot {
            at: a.used,
            place: a.next,
            top: to,
            allowance: a.left,
            ..spot
        },
    )?;
    if dropped {
        return Ok(b);
    }
    crate::operands::join(kind, spot.place, work, first, b)
}

// IfThenElse: its condition and its first branch. Room for two records is left below the condition.
#[cycle(walk)]
#[inline(always)]
fn if_then_else(s: &[u8], work: &mut [u32], spot: Spot) -> Result<Walked, Refused>
    requires { ThreeReady s.now spot work.old }
    ensures { (q : ThreeReady s.now spot work.old)
        → ThreeWalked q IfThenElse work.new result }
{
    let c = desugar_with_env(
        s,
        &mut *work,
        Spot {
            place: spot.place + 1,
            top: spot.top + 6,
            ..spot
        },
    )?;
    let condition = crate::operands::settle(&mut *work, c.core, spot.top + 6);
    let end = condition.end();
    let t = desugar_with_env(
        s,
        &mut *work,
        Spot {
            at: c.used,
            place: c.next,
            top: end,
            allowance: c.left,
            ..spot
        },
    )?;
    let branch = crate::operands::settle(&mut *work, t.core, end);
    let guarded = Guarded { condition, branch };
    let other = Spot {
        at: t.used,
        place: t.next,
        allowance: t.left,
        ..spot
    };
    otherwise(s, work, other, spot.place, guarded)
}

// IfThenElse, whose record has the index `place`, behind its first branch: the negation of its condition, and its other branch, which is next.
#[cycle(walk)]
#[inline(always)]
fn otherwise(
    s: &[u8],
    work: &mut [u32],
    spot: Spot,
    place: usize,
    g: Guarded,
) -> Result<Walked, Refused>
    requires { ElseReady s.now spot work.old g }
    ensures { (q : ElseReady s.now spot work.old g)
        → ElseWalked q place work.new result }
{
    let to = g.branch.end() + 3;
    let modes = to + g.condition.count;
    let places = Places {
        core: g.condition,
        notes: to,
        modes,
        out: modes + g.condition.count,
        limit: spot.allowance,
    };
    let outcome = crate::test_negation::negation(&mut *work, places, to);
    let above = to + 3 * crate::operands::negated_size(outcome);
    let e = desugar_with_env(s, &mut *work, Spot { top: above, ..spot })?;
    crate::operands::choose(place, work, g, outcome, e)
}

// Let: the definition's core stays below its frame while the body is worked out.
#[cycle(walk)]
#[inline(always)]
fn let_variable(name: u32, s: &[u8], work: &mut [u32], spot: Spot) -> Result<Walked, Refused>
    requires { TwoReady s.now spot work.old }
    ensures { (q : TwoReady s.now spot work.old)
        → TwoWalked q (Let name) work.new result }
{
    let d = desugar_with_env(
        s,
        &mut *work,
        Spot {
            place: spot.place + 1,
            ..spot
        },
    )?;
    let core = crate::operands::settle(&mut *work, d.core, spot.top);
    let end = core.end();
    let inner = spot.env.with_variable(&mut *work, end, name, core);
    let body = Spot {
        at: d.used,
        place: d.next,
        left: spot.left,
        env: inner,
        top: end + 5,
        allowance: d.left,
    };
    desugar_with_env(s, work, body)
}

// LetBitRange.
#[cycle(walk)]
#[inline(always)]
fn let_bit_range(
    name: u32,
    fields: Fields,
    s: &[u8],
    work: &mut [u32],
    spot: Spot,
) -> Result<Walked, Refused>
    requires { OneReady s.now spot work.old }
    ensures { (q : OneReady s.now spot work.old)
        → OneWalked q (LetBitRange name fields.start fields.end) work.new result }
{
    let inner = spot.env.with_alias(&mut *work, spot.top, name, fields);
    let body = Spot {
        place: spot.place + 1,
        env: inner,
        top: spot.top + 5,
        ..spot
    };
    desugar_with_env(s, work, body)
}
