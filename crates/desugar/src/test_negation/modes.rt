// What is to be done with a core, which operand a Sequence drops, and what is written for a record. In work memory a mode is its number.
ghost use Rattle.std.specs.Prelude.{◌≡◌};
ghost use Rattle.desugar.specs.NegationRun.{mode_of, written_size};

#[derive(Clone, Copy, Debug, PartialEq, Eq)]
pub enum Mode {
    Negate = 0,
    Keep = 1,
    Again = 2,
    Skip = 3,
}

// Work memory has no number above 3 where a mode lies.
impl From<u32> for Mode {
    ghost from_gives = { λ number mode. mode ≡ mode_of number };

    fn from(number: u32) -> Self {
        match number {
            0 => Mode::Negate,
            1 => Mode::Keep,
            2 => Mode::Again,
            _ => Mode::Skip,
        }
    }
}

// An operand of a Sequence.
#[derive(Clone, Copy, Debug, PartialEq, Eq)]
pub enum Side {
    Left,
    Right,
}

// What is written for a record: nothing, one record, or Difference and One with the record behind them.
#[derive(Clone, Copy, Debug, PartialEq, Eq)]
pub enum Written {
    Nothing = 0,
    Record = 1,
    FromOne = 3,
}

impl Written {
    // How many records that is.
    pub(crate) fn size(self) -> usize
        ensures { result ≡ written_size self }
    {
        self as usize
    }
}
