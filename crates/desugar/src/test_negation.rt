// Test negation of a core that lies in work memory: record by record where it has no Xor and no Difference; else is it a test, two passes
// over it, and the result in its place. Records, their kinds, notes and modes lie there as numbers, since C lends that memory.
mod measured;
mod modes;
mod negated;
mod notes;
mod places;
mod plain;
mod tested;
mod written;

ghost use Rattle.std.specs.Prelude.{◌⊎◌, ◌+◌, ◌*◌, ◌≤◌, length};
ghost use Rattle.expr.specs.Terms.{Core};
ghost use Rattle.desugar.specs.Memory.{Kept, Lies};
ghost use Rattle.desugar.specs.NegationOutcome.{Negates};

pub use places::Places;
pub use tested::is_test;

// Why there is no negation.
#[derive(Clone, Copy, Debug, PartialEq, Eq)]
pub enum NegationError {
    NotTest,
    TooLarge,
}

// The size of the negation of a core, which is written to `to`: to its own place, below it, or past its end. The regions from
// `p.notes` on are room for the passes.
pub fn negation(work: &mut [u32], p: Places, to: usize) -> Result<usize, NegationError>
    requires room { p.out + 3 * p.limit ≤ length work.old }
    requires apart { (to ≤ p.notes) × ((to ≤ p.core.at) ⊎ (p.core.at + 3 * p.core.count ≤ to)) }
    requires lies { (c : Core) × Lies work.old p.core.at p.core.count c }
    ensures kept { Kept to work.old work.new }
    ensures negates { (c : Core) → Lies work.old p.core.at p.core.count c → Negates work.new c to p.limit result }
{
    if plain::is_plain(p.core.words(work)) {
        if p.limit < p.core.count {
            return Err(NegationError::TooLarge);
        }
        plain::negate_plain(work, p.core, to);
        return Ok(p.core.count);
    }
    if !tested::is_test(p.core.words(work)) {
        return Err(NegationError::NotTest);
    }
    measured::measure(work, p);
    let size = negated::negate(work, p).ok_or(NegationError::TooLarge)?;
    crate::memory::copy(work, p.out, to, 3 * size);
    Ok(size)
}
