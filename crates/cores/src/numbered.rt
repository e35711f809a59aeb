// The field count and the counts of a core for a caller whose refusals may have any number: one that came before is kept as it is.
ghost use Rattle.std.specs.Prelude.{◌≡◌};
ghost use Rattle.cores.specs.Results.{numbered_of, numbered_answer, numbered_counts, widened, settled};

use crate::Counts;
use refusals::Refused;

// A refusal by any number, at a place.
#[derive(Clone, Copy, Debug, PartialEq, Eq)]
pub struct Numbered {
    pub number: u8,
    pub place: usize,
}

impl From<Refused> for Numbered {
    ghost from_gives = { λ refused numbered. numbered ≡ numbered_of refused };

    fn from(refused: Refused) -> Self {
        Numbered {
            number: refused.refusal.number(),
            place: refused.place,
        }
    }
}

// The field count so far, with what the record of a kind and a field at a place needs.
pub fn widen(
    fields: Result<u32, Numbered>,
    kind: u8,
    field: u32,
    place: usize,
) -> Result<u32, Numbered>
    ensures { numbered_answer result ≡ widened (numbered_answer fields) kind field place }
{
    let most = fields?;
    Ok(crate::widen(Ok(most), kind, field, place)?)
}

// What is answered of a core of good form.
pub fn settle(count: usize, fields: Result<u32, Numbered>, room: usize) -> Result<Counts, Numbered>
    ensures { numbered_counts result ≡ settled count (numbered_answer fields) room }
{
    let most = fields?;
    Ok(crate::settle(count, Ok(most), room)?)
}
