// Where a record is being read.
ghost use Rattle.std.specs.Prelude.{◌≡◌, ◌≤◌, length};
ghost use Rattle.expr.specs.Kinds.{kind_number, pattern_number};
ghost use Rattle.expr.specs.Records.{fits_pattern};

use crate::kind::{Kind, Pattern};
use literals::Literal;
use refusals::Refusal;

// The bytes that are read, and the index of the one that is next.
#[derive(Clone, Copy, Debug, PartialEq, Eq)]
pub(crate) struct Reader<'a> {
    bytes: &'a [u8],
    pub(crate) at: usize,
    ghost inside: { at ≤ length bytes.now },
}

// Whether bits 5 and 7 of the map suit the pattern, for a kind that has one.
fn suits_pattern(kind: Kind, pattern: Pattern, map: u8) -> bool
    ensures { result ≡ fits_pattern (kind_number kind) (pattern_number pattern) map }
{
    let prefix = map / 32 % 2 == 1;
    let second = map / 128 % 2 == 1;
    !kind.is_match()
        || match pattern {
            Pattern::Exact => !prefix && !second,
            Pattern::Cidr => !second,
            Pattern::Wildcard | Pattern::IpRange => !prefix,
        }
}

impl<'a> Reader<'a> {
    ghost use Rattle.expr.specs.Results.{AtStart, ByteFound, NumberFound, LiteralField, KindFound, RangeFound, PatternFound};

    // At the first byte.
    pub(crate) fn new(bytes: &'a [u8]) -> Self
        ensures { AtStart bytes.now result }
    {
        Reader { bytes, at: 0 }
    }

    // The next byte.
    fn byte(&mut self) -> Result<u8, Refusal>
        ensures { ByteFound self.old self.new result }
    {
        if self.bytes.len() <= self.at {
            return Err(Refusal::EndsEarly);
        }
        let byte = self.bytes[self.at];
        self.at += 1;
        Ok(byte)
    }

    // A number of N bytes where its bit stands, and else 0.
    #[tactic(auto, using(crate::proofs::Numbers::number_lacking, crate::proofs::Numbers::number_zero, crate::proofs::Numbers::number_value, crate::proofs::Numbers::spelled_none, crate::proofs::Numbers::spelled_small))]
    fn number<const N: usize>(&mut self, stands: bool) -> Result<u32, Refusal>
        requires { N ≤ 4 }
        ensures { NumberFound N stands self.old self.new result }
    {
        if !stands {
            return Ok(0);
        }
        let s = self.bytes;
        let at = self.at;
        if s.len() - at < N {
            return Err(Refusal::EndsEarly);
        }
        let mut value = 0;
        for i in (0..N).rev() {
            value = 256 * value + s[at + i] as u32;
        }
        if value == 0 {
            return Err(Refusal::ZeroWritten);
        }
        self.at = at + N;
        Ok(value)
    }

    // A literal where its bit stands, and else an empty one. Inlined, so that the reader lies in registers: as a call it costs 6 % of a form's
    // instructions.
    #[inline(always)]
    pub(crate) fn literal(&mut self, stands: bool) -> Result<Literal, Refusal>
        ensures { LiteralField stands self.old self.new result }
    {
        if !stands {
            return Ok(Literal {
                at: self.at,
                bits: 0,
                next: self.at,
            });
        }
        let literal = literals::read_literal(self.bytes, self.at)?;
        self.at = literal.next;
        Ok(literal)
    }

    // The map byte and the kind, with the refusals 1, 4, 2 and 3 on them.
    pub(crate) fn kind(&mut self) -> Result<(u8, Kind), Refusal>
        ensures { KindFound self.old self.new result }
    {
        let map = self.byte()?;
        let number = self.number::<1>(map % 2 == 1)?;
        let kind = Kind::try_from(number as u8)?;
        if !kind.allows(map) {
            return Err(Refusal::ForeignField);
        }
        Ok((map, kind))
    }

    // The name, the start or field, and the end.
    pub(crate) fn range(&mut self, map: u8) -> Result<(u32, u32, u32), Refusal>
        ensures { RangeFound map self.old self.new result }
    {
        let name = self.number::<2>(map / 2 % 2 == 1)?;
        let start = self.number::<4>(map / 4 % 2 == 1)?;
        let end = self.number::<4>(map / 8 % 2 == 1)?;
        Ok((name, start, end))
    }

    // The pattern and the number: bits 5 and 7 are judged between them.
    #[tactic(auto, using(crate::proofs::KindNumbers::pattern_small))]
    pub(crate) fn pattern(&mut self, map: u8, kind: Kind) -> Result<(Pattern, u32), Refusal>
        ensures { PatternFound map (kind_number kind) self.old self.new result }
    {
        let code = self.number::<1>(map / 16 % 2 == 1)?;
        let pattern = Pattern::try_from(code as u8)?;
        if !suits_pattern(kind, pattern, map) {
            return Err(Refusal::ForeignField);
        }
        let number = self.number::<1>(map / 32 % 2 == 1)?;
        if !kind.is_match() && 1 < number {
            return Err(Refusal::OutOfRange);
        }
        Ok((pattern, number))
    }
}
