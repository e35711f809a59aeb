// What a pattern will cost, as a host asks it.
ghost use Rattle.std.specs.Prelude.{[]};
ghost use Rattle.netkat.specs.Entry.{Answers, Call};

use crate::Answer;

// The cost of a pattern on the fields from `start` up to `end`, in 64 bits, the lower half first. The pattern is given by its number,
// its prefix, and its literals, each as bytes and a length in bits, as the C interface has them.
pub fn netkat_cost(
    start: u32,
    end: u32,
    pattern: u32,
    number: u32,
    a: &[u8],
    a_bits: u32,
    b: &[u8],
    b_bits: u32,
) -> Answer
    ensures { Answers (Call.Cost «start» «end» pattern number (a.now, a_bits) (b.now, b_bits)) [] [] result }
{
    match costs::pattern_cost(start, end, pattern, number, a, a_bits, b, b_bits) {
        Ok(nodes) => Answer::halved(nodes),
        Err(refusal) => Answer::refused(refusal.at(0)),
    }
}
