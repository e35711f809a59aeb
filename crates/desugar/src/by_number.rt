// Uses of ranges by the numbers of a kind and of a pattern, which may be none's: a number that no kind has is used as VarMatch, and one that no pattern
// has as Exact.
ghost use Rattle.std.specs.Prelude.{◌≡◌, ℕ, cond, leb, length};
ghost use Rattle.literals.specs.Results.{literal_bits};
ghost use Rattle.expr.specs.Answers.{ok};
ghost use Rattle.expr.specs.Kinds.{kind_number, pattern_number};
ghost use Rattle.expr.specs.Terms.{Core, size};
ghost use Rattle.expr.specs.Results.{record_of, HeadInside};
ghost use Rattle.desugar.specs.Bindings.{Env};
ghost use Rattle.desugar.specs.BindingWords.{Bound};
ghost use Rattle.desugar.specs.Leaves.{use_core};
ghost use Rattle.desugar.specs.Rules.{use_rule, range_rule};
ghost use Rattle.desugar.specs.WalkWords.{where_of, use_of};
ghost use Rattle.desugar.specs.RangedWords.{UsedAs, numbered, with_numbers, rule_answer, judged_range, judged_answer};

use crate::Fields;
use crate::bindings::Scope;
use crate::judged::JudgedUse;
use crate::uses::Use;
use expr::kind::{Kind, Pattern};
use expr::records::Head;
use literals::BitSlice;
use refusals::Refusal;

// The kind of a number, and VarMatch, the last, for the numbers above.
fn kind_for(number: u8) -> Kind
    ensures { kind_number result ≡ cond (leb number 26) number 26 }
{
    match Kind::try_from(number) {
        Ok(kind) => kind,
        Err(_) => Kind::VarMatch,
    }
}

// The pattern of a number, and Exact for the numbers above 3.
fn pattern_for(number: u32) -> Pattern
    ensures { pattern_number result ≡ cond (leb number 3) number 0 }
{
    match number {
        1 => Pattern::Cidr,
        2 => Pattern::Wildcard,
        3 => Pattern::IpRange,
        _ => Pattern::Exact,
    }
}

impl<'a> Use<'a> {
    // The use that these numbers and literals are.
    pub fn by_number(
        kind: u8,
        pattern: u32,
        number: u32,
        a: BitSlice<'a>,
        b: BitSlice<'a>,
    ) -> Use<'a>
        requires { (length (literal_bits a) ≡ a.len) × (length (literal_bits b) ≡ b.len) }
        ensures { UsedAs (numbered kind pattern number (literal_bits a.entry) (literal_bits b.entry)) result }
    {
        Use {
            kind: kind_for(kind),
            pattern: pattern_for(pattern),
            number,
            a,
            b,
        }
    }
}

// The rules 14 to 21 on the use that these numbers and literals are.
pub fn range_rule(
    kind: u8,
    pattern: u32,
    number: u32,
    a: BitSlice<'_>,
    b: BitSlice<'_>,
    fields: Fields,
) -> Result<(), Refusal>
    requires { (length (literal_bits a) ≡ a.len) × (length (literal_bits b) ≡ b.len) }
    ensures { let r = numbered kind pattern number (literal_bits a.entry) (literal_bits b.entry) in
        (at : ℕ) → rule_answer result at ≡ range_rule (where_of r) (use_of r) (fields.start, fields.end) at }
{
    crate::rules::range_rule(Use::by_number(kind, pattern, number, a, b), fields)
}

// How many records the core has of the use of n fields that these numbers and literals are.
pub fn use_size(
    kind: u8,
    pattern: u32,
    number: u32,
    a: BitSlice<'_>,
    b: BitSlice<'_>,
    n: u32,
) -> u64
    requires whole { (length (literal_bits a) ≡ a.len) × (length (literal_bits b) ≡ b.len) }
    requires kept { let r = numbered kind pattern number (literal_bits a) (literal_bits b) in use_rule (where_of r) (use_of r) n 0 ≡ ok tt }
    ensures { (start : ℕ) → result ≡ size (use_core (use_of (numbered kind pattern number (literal_bits a.entry) (literal_bits b.entry))) start n) }
{
    let judged = JudgedUse {
        used: Use::by_number(kind, pattern, number, a, b),
        fields: Fields { start: 0, end: n },
    };
    judged.size()
}

// The fields that the record `head` of the bytes s names, had it these numbers, where its use of them keeps the rules.
pub fn judged_range(
    kind: u8,
    pattern: u32,
    head: Head,
    s: &[u8],
    scope: Scope<'_>,
) -> Result<Fields, Refusal>
    requires { HeadInside s.now (Ok head) }
    ensures { let r = with_numbers (record_of s.now head) kind pattern in
        (ρ : Env Core) (at : ℕ) → Bound scope.entry.work.now scope.entry.last ρ → judged_answer result at ≡ judged_range ρ (where_of r) (use_of r) at }
{
    let numbered = Head {
        kind: kind_for(kind),
        pattern: pattern_for(pattern),
        ..head
    };
    crate::ranged::judged_range(numbered, s, scope)
}
