// What a pattern will cost: how many nodes the core of its match has, without making one.
#![tactic(auto)]

ghost use Rattle.std.specs.Prelude.{◌≡◌, cond, leb, length};
ghost use Rattle.literals.specs.Results.{literal_bits};
ghost use Rattle.expr.specs.Kinds.{pattern_number};
ghost use Rattle.desugar.specs.Costs.{cost};
ghost use Rattle.costs.specs.Lent.{lent_cost};
ghost use Rattle.costs.specs.Results.{cost_answer, pattern_with};

use desugar::Fields;
use desugar::judged::JudgedUse;
use desugar::uses::Use;
use expr::kind::{Kind, Pattern};
use literals::BitSlice;
use refusals::Refusal;

// How many bits of literal B a pattern has: Exact and Cidr have none.
fn second_bits(pattern: Pattern, bits: u32) -> u32
    ensures { result ≡ cond (leb 2 (pattern_number pattern)) bits 0 }
{
    match pattern {
        Pattern::Exact | Pattern::Cidr => 0,
        Pattern::Wildcard | Pattern::IpRange => bits,
    }
}

// The cost of a match on fields: the rules, then the size that desugaring draws.
fn match_cost(
    fields: Fields,
    pattern: Pattern,
    number: u32,
    a: BitSlice<'_>,
    b: BitSlice<'_>,
) -> Result<u64, Refusal>
    requires { (length (literal_bits a) ≡ a.len) × (length (literal_bits b) ≡ b.len) }
    ensures { cost_answer result ≡ cost (pattern_with (pattern_number pattern) number (literal_bits a.entry) (literal_bits b.entry)) fields.start fields.end 0 }
{
    let matched = Use {
        kind: Kind::BitRangeMatch,
        pattern,
        number,
        a,
        b,
    };
    desugar::rules::range_rule(matched, fields)?;
    let judged = JudgedUse {
        used: matched,
        fields,
    };
    Ok(judged.size())
}

// The cost of a pattern that a host lends, on the fields from `start` up to `end`. The parameters and the number of the pattern are those of the C
// interface.
pub fn pattern_cost(
    start: u32,
    end: u32,
    pattern: u32,
    number: u32,
    a: &[u8],
    a_bits: u32,
    b: &[u8],
    b_bits: u32,
) -> Result<u64, Refusal>
    ensures { cost_answer result ≡ lent_cost «start» «end» pattern number (a.now, a_bits) (b.now, b_bits) }
{
    if 3 < pattern {
        return Err(Refusal::OutOfRange);
    }
    let pattern = Pattern::try_from(pattern as u8)?;
    let first = BitSlice::lent(a, a_bits)?;
    let second = BitSlice::lent(b, second_bits(pattern, b_bits))?;
    match_cost(Fields { start, end }, pattern, number, first, second)
}
