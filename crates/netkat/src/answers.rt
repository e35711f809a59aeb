// From an operation's answer to a host's.
use crate::Answer;
use refusals::Refused;

impl Answer {
    ghost use Rattle.std.specs.Prelude.{◌≡◌, ◌<◌, ◌^◌};
    ghost use Rattle.literals.specs.Bits.{bit};
    ghost use Rattle.refusals.specs.Refusals.{number_of};
    ghost use Rattle.expr.specs.Answers.{ok, refuse};
    ghost use Rattle.netkat.specs.Entry.{hosted, halved};

    // Success, with two values.
    pub(crate) fn success(first: u32, second: u32) -> Self
        ensures { result ≡ hosted (ok (first, second)) }
    {
        Answer {
            number: 0,
            place: 0,
            first,
            second,
        }
    }

    // Yes or no, as 1 or 0.
    pub(crate) fn judged(yes: bool) -> Self
        ensures { result ≡ hosted (ok (bit yes, 0)) }
    {
        Answer::success(u32::from(yes), 0)
    }

    // A number of 64 bits, the lower half first.
    pub(crate) fn halved(number: u64) -> Self
        ensures { result ≡ hosted (ok (halved number)) }
    {
        Answer::success(
            (number % 0x1_0000_0000) as u32,
            (number / 0x1_0000_0000) as u32,
        )
    }

    // A refusal, with no values. No `From`, which could not ask that the place has 32 bits.
    pub(crate) fn refused(e: Refused) -> Self
        requires { e.place < 2 ^ 32 }
        ensures { result ≡ hosted (refuse (number_of e.refusal) e.place) }
    {
        Answer {
            number: u32::from(e.refusal.number()),
            place: e.place as u32,
            first: 0,
            second: 0,
        }
    }
}
