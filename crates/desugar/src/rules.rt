// The rules 14 to 21, on a use of a range. The number of fields stands beside the use, which is judged for those of a record or of an alias.
ghost use Rattle.std.specs.Prelude.{◌≡◌, ℕ};
ghost use Rattle.literals.specs.Patterns.{Cidr, Wildcard, IpRange};
ghost use Rattle.literals.specs.Results.{literal_bits};
ghost use Rattle.expr.specs.Terms.{Where};
ghost use Rattle.expr.specs.Form.{pattern_of};
ghost use Rattle.desugar.specs.Rules.{literal_rule, pattern_rule, range_rule};
ghost use Rattle.desugar.specs.WalkWords.{where_of, use_of};
ghost use Rattle.desugar.specs.RangedWords.{record_in, rule_answer, is_direct};

use crate::Fields;
use crate::uses::Use;
use expr::kind::{Kind, Pattern};
use refusals::Refusal;
use std::cmp::Ordering;

// The widest range of fields that a range of values may be asked of.
const MAX_RANGE_BITS: usize = 128;

// 15 and 16: a literal for n bits.
fn literal_rule(u: Use<'_>, direct: bool, n: usize) -> Result<(), Refusal>
    ensures { (w : Where) (at : ℕ) → is_direct w ≡ direct → rule_answer result at ≡ literal_rule w (literal_bits u.entry.a) n at }
{
    if direct && u.a.len != n {
        return Err(Refusal::LiteralWidth);
    }
    if n < u.a.len {
        return Err(Refusal::LiteralTooLong);
    }
    Ok(())
}

// 17 and 18: an address and its prefix for n bits.
fn cidr_rule(u: Use<'_>, n: usize) -> Result<(), Refusal>
    ensures { (at : ℕ) → rule_answer result at ≡ pattern_rule (Cidr (literal_bits u.entry.a) u.entry.number) n at }
{
    if n < u.number as usize {
        return Err(Refusal::CidrPrefix);
    }
    if u.a.len != n {
        return Err(Refusal::CidrAddress);
    }
    Ok(())
}

// 19: an address and its mask for n bits.
fn wildcard_rule(u: Use<'_>, n: usize) -> Result<(), Refusal>
    ensures { (at : ℕ) → rule_answer result at ≡ pattern_rule (Wildcard (literal_bits u.entry.a) (literal_bits u.entry.b)) n at }
{
    if u.a.len != n || u.b.len != n {
        return Err(Refusal::WildcardWidth);
    }
    Ok(())
}

// 20 and 21: the bounds of a range of values for n bits.
fn values_rule(u: Use<'_>, n: usize) -> Result<(), Refusal>
    ensures { (at : ℕ) → rule_answer result at ≡ pattern_rule (IpRange (literal_bits u.entry.a) (literal_bits u.entry.b)) n at }
{
    if MAX_RANGE_BITS < n || n < u.a.len || n < u.b.len {
        return Err(Refusal::IpRangeWidth);
    }
    if u.a.compare(u.b, n).order == Ordering::Greater {
        return Err(Refusal::IpRangeOrder);
    }
    Ok(())
}

// 15 and 17 to 21: a pattern for n bits.
fn pattern_rule(u: Use<'_>, n: usize) -> Result<(), Refusal>
    ensures { (at : ℕ) → rule_answer result at ≡ pattern_rule (pattern_of (record_in u.entry)) n at }
{
    match u.pattern {
        Pattern::Exact => literal_rule(u, false, n),
        Pattern::Cidr => cidr_rule(u, n),
        Pattern::Wildcard => wildcard_rule(u, n),
        Pattern::IpRange => values_rule(u, n),
    }
}

// 14 first, then the rules on the literal or the pattern.
pub fn range_rule(u: Use<'_>, fields: Fields) -> Result<(), Refusal>
    ensures { (at : ℕ) → rule_answer result at ≡ range_rule (where_of (record_in u.entry)) (use_of (record_in u.entry)) (fields.start, fields.end) at }
{
    if fields.end < fields.start {
        return Err(Refusal::RangeEndBelowStart);
    }
    let n = fields.count();
    match u.kind {
        Kind::VarAssign | Kind::VarTest => literal_rule(u, false, n),
        Kind::BitRangeAssign | Kind::BitRangeTest => literal_rule(u, true, n),
        _ => pattern_rule(u, n),
    }
}
