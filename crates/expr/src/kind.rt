// The kinds of records, and the patterns, by their numbers.
ghost use Rattle.std.specs.Prelude.{◌≡◌};
ghost use Rattle.expr.specs.Terms.{test_kind};
ghost use Rattle.expr.specs.Kinds.{kind_number, pattern_number, IsKind, IsPattern};
ghost use Rattle.expr.specs.Records.{is_match};
ghost use Rattle.expr.specs.Results.{arity_of, fragment_kind, kind_map, none_foreign};

use refusals::Refusal;

#[derive(Clone, Copy, Debug, PartialEq, Eq)]
pub enum Kind {
    Zero = 0,
    One = 1,
    Top = 2,
    Dup = 3,
    End = 4,
    Assign = 5,
    Test = 6,
    Union = 7,
    Intersect = 8,
    Xor = 9,
    Difference = 10,
    Sequence = 11,
    LtlUntil = 12,
    Complement = 13,
    Star = 14,
    LtlNext = 15,
    TestNegation = 16,
    IfThenElse = 17,
    Let = 18,
    LetBitRange = 19,
    Var = 20,
    VarAssign = 21,
    VarTest = 22,
    BitRangeAssign = 23,
    BitRangeTest = 24,
    BitRangeMatch = 25,
    VarMatch = 26,
}

// What a BitRangeMatch or VarMatch asks of a range.
#[derive(Clone, Copy, Debug, PartialEq, Eq)]
pub enum Pattern {
    Exact = 0,
    Cidr = 1,
    Wildcard = 2,
    IpRange = 3,
}

impl TryFrom<u8> for Kind {
    type Error = Refusal;

    ghost try_from_gives = { IsKind };

    fn try_from(number: u8) -> Result<Self, Refusal> {
        match number {
            0 => Ok(Kind::Zero),
            1 => Ok(Kind::One),
            2 => Ok(Kind::Top),
            3 => Ok(Kind::Dup),
            4 => Ok(Kind::End),
            5 => Ok(Kind::Assign),
            6 => Ok(Kind::Test),
            7 => Ok(Kind::Union),
            8 => Ok(Kind::Intersect),
            9 => Ok(Kind::Xor),
            10 => Ok(Kind::Difference),
            11 => Ok(Kind::Sequence),
            12 => Ok(Kind::LtlUntil),
            13 => Ok(Kind::Complement),
            14 => Ok(Kind::Star),
            15 => Ok(Kind::LtlNext),
            16 => Ok(Kind::TestNegation),
            17 => Ok(Kind::IfThenElse),
            18 => Ok(Kind::Let),
            19 => Ok(Kind::LetBitRange),
            20 => Ok(Kind::Var),
            21 => Ok(Kind::VarAssign),
            22 => Ok(Kind::VarTest),
            23 => Ok(Kind::BitRangeAssign),
            24 => Ok(Kind::BitRangeTest),
            25 => Ok(Kind::BitRangeMatch),
            26 => Ok(Kind::VarMatch),
            _ => Err(Refusal::UnknownKind),
        }
    }
}

impl TryFrom<u8> for Pattern {
    type Error = Refusal;

    ghost try_from_gives = { IsPattern };

    fn try_from(number: u8) -> Result<Self, Refusal> {
        match number {
            0 => Ok(Pattern::Exact),
            1 => Ok(Pattern::Cidr),
            2 => Ok(Pattern::Wildcard),
            3 => Ok(Pattern::IpRange),
            _ => Err(Refusal::OutOfRange),
        }
    }
}

impl Kind {
    // The cast, which a public contract gives a name.
    pub fn number(self) -> u8
        ensures { result ≡ kind_number self }
    {
        self as u8
    }

    // How many children a record of this kind has.
    pub fn arity(self) -> usize
        ensures { result ≡ arity_of (kind_number self) }
    {
        arity(self.number())
    }

    // Whether a core of this kind is a test where its operands are.
    pub fn is_test(self) -> bool
        ensures { result ≡ test_kind (kind_number self) }
    {
        matches!(
            self,
            Kind::Zero
                | Kind::One
                | Kind::Test
                | Kind::Union
                | Kind::Intersect
                | Kind::Xor
                | Kind::Difference
                | Kind::Sequence
        )
    }

    // Whether a record of this kind may stand in the test fragment.
    pub(crate) fn in_fragment(self) -> bool
        ensures { result ≡ fragment_kind (kind_number self) }
    {
        match self {
            Kind::TestNegation
            | Kind::VarTest
            | Kind::BitRangeTest
            | Kind::BitRangeMatch
            | Kind::VarMatch => true,
            _ => self.is_test(),
        }
    }

    // The map bits that a kind has, bit 0 among them. A `match`, because a constant array is built anew on each call.
    fn map(self) -> u8
        ensures { result ≡ kind_map (kind_number self) }
    {
        match self {
            Kind::Assign | Kind::Test => 37,
            Kind::Let | Kind::Var => 3,
            Kind::LetBitRange => 15,
            Kind::VarAssign | Kind::VarTest => 67,
            Kind::BitRangeAssign | Kind::BitRangeTest => 77,
            Kind::BitRangeMatch => 253,
            Kind::VarMatch => 243,
            _ => 1,
        }
    }

    // Whether every bit of the map is one that the kind has.
    pub(crate) fn allows(self, map: u8) -> bool
        ensures { result ≡ none_foreign (kind_number self) map }
    {
        let own = self.map();
        map | own == own
    }

    // Whether the kind has a pattern.
    pub fn is_match(self) -> bool
        ensures { result ≡ is_match (kind_number self) }
    {
        self == Kind::BitRangeMatch || self == Kind::VarMatch
    }
}

// How many children a record has, by the number of its kind. A number of no kind has none: it answers for any, and decides by ranges, as document 01
// has it.
pub fn arity(kind: u8) -> usize
    ensures { result ≡ arity_of kind }
{
    match kind {
        0..=6 | 20..=26 => 0,
        7..=12 | 18 => 2,
        13..=16 | 19 => 1,
        17 => 3,
        _ => 0,
    }
}

// Whether a core is a test where its operands are, by the number of its kind: it answers for any.
pub fn is_test_kind(kind: u8) -> bool
    ensures { result ≡ test_kind kind }
{
    match Kind::try_from(kind) {
        Ok(kind) => kind.is_test(),
        Err(_) => false,
    }
}
