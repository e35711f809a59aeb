// Check: the rules 11 to 23 by the written term alone. A walk like desugaring's, which keeps whether a variable is a test, and makes no core:
// why the two are not one, and why what a node with one child asks stands in three clauses, is said at the other (desugar/src/walk.rt).
// The functions that take a record apart are inlined, so that a level of the term is one frame of the machine's stack.
ghost use Rattle.std.specs.Prelude.{◌≡◌, Bool, ◌||◌, eqb};
ghost use Rattle.expr.specs.Answers.{answered};
ghost use Rattle.expr.specs.Terms.{Expr, Unary, Binary, TestNegation, IfThenElse, Let, LetBitRange, Var, Ranged};
ghost use Rattle.expr.specs.Kinds.{kind_number};
ghost use Rattle.expr.specs.Records.{Record};
ghost use Rattle.expr.specs.Form.{node_of, node0};
ghost use Rattle.expr.specs.Operations.{is_test_use};
ghost use Rattle.expr.specs.Results.{HeadInside, Term, record_of};
ghost use Rattle.desugar.specs.Bindings.{Env};
ghost use Rattle.desugar.specs.BindingWords.{Bound};
ghost use Rattle.desugar.specs.WalkWords.{Operator1, Operator2, where_of, use_of};
ghost use Rattle.netkat.specs.Check.{check_bytes};
ghost use Rattle.netkat.specs.CheckWords.{check_walk, flags, sort_kind, AtTerm, AtOne, AtTwo, AtThree, TermSorted, OneSorted, TwoSorted, ThreeSorted, CheckRoom};

use desugar::Fields;
use desugar::bindings::{Bindings, Scope};
use desugar::memory::{Region, write_record};
use expr::form::MAX_DEPTH;
use expr::kind::Kind;
use expr::records::Head;
use refusals::{Refusal, Refused};

// The numbers that the bindings may take: 8 for each of 256 levels, three for whether a variable is a test and five for its frame. They lie in an array
// of this size, as there is no heap.
const WORK: usize = 2048;

// The bytes of a short term, and the numbers that its bindings may take.
const SHORT: usize = 32;

const SHORT_WORK: usize = 256;

// The index of the byte behind a term, the index of the record behind it, and whether it is a test.
#[derive(Clone, Copy, Debug, PartialEq, Eq)]
pub struct Sorted {
    pub used: usize,
    pub next: usize,
    pub test: bool,
}

// Where the check stands: the byte and the record that are next, how many levels may follow, the bindings around it, and the top of their memory.
#[derive(Clone, Copy, Debug, PartialEq, Eq)]
pub struct Spot {
    pub at: usize,
    pub place: usize,
    pub left: usize,
    pub env: Bindings,
    pub top: usize,
}

// A variable: as its definition, whose record is of the kind 0, Zero, where it is a test.
fn variable(name: u32, place: usize, scope: Scope<'_>) -> Result<bool, Refused>
    ensures { (ρ : Env Bool) → Bound scope.entry.work.now scope.entry.last (flags ρ) → answered result ≡ check_walk ρ (Var name) place }
{
    let Some(sort) = scope.lookup_variable(name) else {
        return Err(scope.unbound(name).at(place));
    };
    Ok(scope.work[sort.at] == 0)
}

// Whether a use of fields is a test: an assignment is one where there are none.
fn is_test_use(kind: Kind, fields: Fields) -> bool
    ensures { (h : Record) → h.kind ≡ kind_number kind → result ≡ (is_test_use (use_of h) || eqb fields.start fields.end) }
{
    match kind {
        Kind::VarAssign | Kind::BitRangeAssign => fields.start == fields.end,
        _ => true,
    }
}

// A use of a range.
fn ranged(head: Head, s: &[u8], place: usize, scope: Scope<'_>) -> Result<bool, Refused>
    requires { HeadInside s.now (Ok head) }
    ensures { (ρ : Env Bool) → Bound scope.entry.work.now scope.entry.last (flags ρ)
        → answered result ≡ check_walk ρ (Ranged (where_of (record_of s.now head)) (use_of (record_of s.now head))) place }
{
    match desugar::ranged::judged_range(head, s, scope) {
        Err(refusal) => Err(refusal.at(place)),
        Ok(fields) => Ok(is_test_use(head.kind, fields)),
    }
}

// The record `head` of the bytes s, which has no children.
fn leaf(head: Head, s: &[u8], place: usize, scope: Scope<'_>) -> Result<bool, Refused>
    requires { HeadInside s.now (Ok head) }
    ensures { (e : Expr) (ρ : Env Bool) → node_of (record_of s.now head) ≡ node0 e → Bound scope.entry.work.now scope.entry.last (flags ρ)
        → answered result ≡ check_walk ρ e place }
{
    let kind = head.kind;
    match kind {
        Kind::Zero | Kind::One | Kind::Top | Kind::Dup | Kind::End | Kind::Assign | Kind::Test =>
            Ok(kind.is_test()),
        Kind::Var => variable(head.name, place, scope),
        _ => ranged(head, s, place, scope),
    }
}

// The kind of the record that says whether a variable is a test: Zero, which is one, or Top, which is none.
fn sort_kind(test: bool) -> Kind
    ensures { kind_number result ≡ sort_kind test }
{
    if test {
        return Kind::Zero;
    }
    Kind::Top
}

// The term that is next. It takes the whole bytes and an index, which is faster than a new slice for each call.
#[cycle(walk)]
fn check_with_env(s: &[u8], work: &mut [u32], spot: Spot) -> Result<Sorted, Refused>
    requires { AtTerm s.now spot work.old }
    ensures { (q : AtTerm s.now spot work.old)
        → TermSorted q work.new result }
{
    let head = expr::records::read_record_at(s, spot.at, spot.place)?;
    let kind = head.kind;
    let inner = Spot {
        at: spot.at + head.size,
        left: spot.left - 1,
        ..spot
    };
    match kind {
        Kind::Union
        | Kind::Intersect
        | Kind::Xor
        | Kind::Difference
        | Kind::Sequence
        | Kind::LtlUntil => binary(kind, s, work, inner),
        Kind::Complement | Kind::Star | Kind::LtlNext => unary(kind, s, work, inner),
        Kind::TestNegation => test_negation(s, work, inner),
        Kind::IfThenElse => if_then_else(s, work, inner),
        Kind::Let => let_variable(head.name, s, work, inner),
        Kind::LetBitRange => {
            let fields = Fields {
                start: head.start,
                end: head.end,
            };
            let_bit_range(head.name, fields, s, work, inner)
        }
        _ => {
            let scope = spot.env.within(work);
            let test = leaf(head, &s[spot.at..], spot.place, scope)?;
            Ok(Sorted {
                used: inner.at,
                next: spot.place + 1,
                test,
            })
        }
    }
}

// Complement, Star, LtlNext.
#[cycle(walk)]
#[inline(always)]
fn unary(kind: Kind, s: &[u8], work: &mut [u32], spot: Spot) -> Result<Sorted, Refused>
    requires { Operator1 (kind_number kind) × AtOne s.now spot work.old }
    ensures { (k : Operator1 (kind_number kind)) (q : AtOne s.now spot work.old)
        → OneSorted q (Unary k.o) work.new result }
{
    let a = check_with_env(
        s,
        work,
        Spot {
            place: spot.place + 1,
            ..spot
        },
    )?;
    Ok(Sorted { test: false, ..a })
}

// TestNegation.
#[cycle(walk)]
#[inline(always)]
fn test_negation(s: &[u8], work: &mut [u32], spot: Spot) -> Result<Sorted, Refused>
    requires { AtOne s.now spot work.old }
    ensures { (q : AtOne s.now spot work.old)
        → OneSorted q TestNegation work.new result }
{
    let a = check_with_env(
        s,
        work,
        Spot {
            place: spot.place + 1,
            ..spot
        },
    )?;
    if !a.test {
        return Err(Refusal::NegatedNonTest.at(spot.place));
    }
    Ok(a)
}

// The operators with two operands.
#[cycle(walk)]
#[inline(always)]
fn binary(kind: Kind, s: &[u8], work: &mut [u32], spot: Spot) -> Result<Sorted, Refused>
    requires { Operator2 (kind_number kind) × AtTwo s.now spot work.old }
    ensures { (k : Operator2 (kind_number kind)) (q : AtTwo s.now spot work.old)
        → TwoSorted q (Binary k.o) work.new result }
{
    let a = check_with_env(
        s,
        &mut *work,
        Spot {
            place: spot.place + 1,
            ..spot
        },
    )?;
    let b = check_with_env(
        s,
        work,
        Spot {
            at: a.used,
            place: a.next,
            ..spot
        },
    )?;
    let test = kind.is_test() & a.test & b.test;
    Ok(Sorted { test, ..b })
}

// IfThenElse. A condition that is no test is refused when its branches have been judged.
#[cycle(walk)]
#[inline(always)]
fn if_then_else(s: &[u8], work: &mut [u32], spot: Spot) -> Result<Sorted, Refused>
    requires { AtThree s.now spot work.old }
    ensures { (q : AtThree s.now spot work.old)
        → ThreeSorted q IfThenElse work.new result }
{
    let c = check_with_env(
        s,
        &mut *work,
        Spot {
            place: spot.place + 1,
            ..spot
        },
    )?;
    let t = check_with_env(
        s,
        &mut *work,
        Spot {
            at: c.used,
            place: c.next,
            ..spot
        },
    )?;
    let e = check_with_env(
        s,
        work,
        Spot {
            at: t.used,
            place: t.next,
            ..spot
        },
    )?;
    if !c.test {
        return Err(Refusal::ConditionNotTest.at(spot.place));
    }
    let test = t.test & e.test;
    Ok(Sorted { test, ..e })
}

// Let: whether the definition is a test stays below its frame while the body is judged.
#[cycle(walk)]
#[inline(always)]
fn let_variable(name: u32, s: &[u8], work: &mut [u32], spot: Spot) -> Result<Sorted, Refused>
    requires { AtTwo s.now spot work.old }
    ensures { (q : AtTwo s.now spot work.old)
        → TwoSorted q (Let name) work.new result }
{
    let d = check_with_env(
        s,
        &mut *work,
        Spot {
            place: spot.place + 1,
            ..spot
        },
    )?;
    let kind = sort_kind(d.test);
    write_record(&mut *work, spot.top, u32::from(kind.number()), 0, 0);
    let core = Region {
        at: spot.top,
        count: 1,
    };
    let inner = spot.env.with_variable(&mut *work, spot.top + 3, name, core);
    check_with_env(
        s,
        work,
        Spot {
            at: d.used,
            place: d.next,
            env: inner,
            top: spot.top + 8,
            ..spot
        },
    )
}

// LetBitRange. The range is not judged here.
#[cycle(walk)]
#[inline(always)]
fn let_bit_range(
    name: u32,
    fields: Fields,
    s: &[u8],
    work: &mut [u32],
    spot: Spot,
) -> Result<Sorted, Refused>
    requires { AtOne s.now spot work.old }
    ensures { (q : AtOne s.now spot work.old)
        → OneSorted q (LetBitRange name fields.start fields.end) work.new result }
{
    let inner = spot.env.with_alias(&mut *work, spot.top, name, fields);
    check_with_env(
        s,
        work,
        Spot {
            place: spot.place + 1,
            env: inner,
            top: spot.top + 5,
            ..spot
        },
    )
}

// Check of a term of good form and of at most `levels` levels. It promises what the two functions around it do, which choose its memory.
fn check_within(term: &[u8], levels: usize, work: &mut [u32]) -> Result<bool, Refused>
    requires { CheckRoom term.now levels work.old }
    ensures { answered result ≡ check_bytes term.now }
{
    let start = Spot {
        at: 0,
        place: 0,
        left: levels,
        env: Bindings::none(),
        top: 0,
    };
    let sorted = check_with_env(term, work, start)?;
    Ok(sorted.test)
}

// Check of a term of good form. A short one has no more levels than bytes, and there is less to clear for it.
fn check_term(term: &[u8]) -> Result<bool, Refused>
    requires { Term term.now }
    ensures { answered result ≡ check_bytes term.now }
{
    if term.len() <= SHORT {
        let mut few = [0u32; SHORT_WORK];
        return check_within(term, SHORT, &mut few);
    }
    let mut work = [0u32; WORK];
    check_within(term, MAX_DEPTH, &mut work)
}

// Whether a term is a test, where its form is good and the rules 11 to 23 hold.
pub fn check(term: &[u8]) -> Result<bool, Refused>
    ensures { answered result ≡ check_bytes term.now }
{
    expr::form::form(term)?;
    check_term(term)
}
