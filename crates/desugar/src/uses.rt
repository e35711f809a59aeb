// A use of a range. It has a file of its own: what a struct's facts import may not name the struct, as the words of the contracts on uses do.
ghost use Rattle.std.specs.Prelude.{◌≡◌, length};
ghost use Rattle.literals.specs.Results.{literal_bits};

use expr::kind::{Kind, Pattern};
use literals::BitSlice;

// What is done with a range: the kind of its record, and the pattern, the number and the literals that it has. No bit of them is lacking.
#[derive(Clone, Copy, Debug)]
pub struct Use<'a> {
    pub kind: Kind,
    pub pattern: Pattern,
    pub number: u32,
    pub a: BitSlice<'a>,
    pub b: BitSlice<'a>,
    ghost first: { length (literal_bits a) ≡ a.len },
    ghost second: { length (literal_bits b) ≡ b.len },
}
