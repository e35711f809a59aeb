// The note of a record: of the core that begins there, how many records it has, and whether it is One when desugared again.
ghost use Rattle.std.specs.Prelude.{◌≡◌, ◌^◌, ◌<◌};
ghost use Rattle.desugar.specs.NegationRun.{note_number};

#[derive(Clone, Copy, Debug, PartialEq, Eq)]
pub struct Note {
    pub size: u32,
    pub one: bool,
}

impl Note {
    // As work memory has it: the definition of the contract.
    pub(crate) fn number(self) -> u32
        requires { note_number self < 2 ^ 32 }
        ensures { result ≡ note_number self }
    {
        2 * self.size + self.one as u32
    }
}

impl From<u32> for Note {
    ghost from_gives = { λ number note. note_number note ≡ number };

    fn from(number: u32) -> Self {
        Note {
            size: number / 2,
            one: number % 2 == 1,
        }
    }
}
