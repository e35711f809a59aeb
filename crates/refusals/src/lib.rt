// The refusals of the stage, by their numbers.
#![tactic(auto)]

ghost use Rattle.std.specs.Prelude.{◌≡◌, ◌+◌, ◌≤◌};
ghost use Rattle.refusals.specs.Refusals.{number_of, refused_at};

// Why a call is refused. 31 to 38 are 1 to 8, of a replacement.
#[derive(Clone, Copy, Debug, PartialEq, Eq)]
pub enum Refusal {
    // The bytes end before the term or core, or a lent literal, is complete.
    EndsEarly = 1,
    // A kind above 26.
    UnknownKind = 2,
    // A map bit of a field that the kind, or the pattern, does not have.
    ForeignField = 3,
    // A field that is zero or empty is written, or a spare bit of a literal is 1.
    ZeroWritten = 4,
    // A pattern above 3, the value of an Assign or Test above 1, a literal of more than 192 bits.
    OutOfRange = 5,
    // More than 4,096 records.
    TooManyRecords = 6,
    // More than 256 levels.
    TooDeep = 7,
    // Bytes behind the end of the term or core.
    LeftOver = 8,
    // The allowance is not 1 to 65,535.
    Allowance = 9,
    // Too few numbers are lent.
    WorkMemory = 10,
    // No LetBitRange around it has this name.
    UnknownAlias = 11,
    // No Let and no LetBitRange around it has this name.
    UnboundVariable = 12,
    // A variable of a name that only an alias has.
    AliasAsVariable = 13,
    // The range in use ends below its start.
    RangeEndBelowStart = 14,
    // A literal longer than its alias, or an Exact pattern longer than its range.
    LiteralTooLong = 15,
    // A literal on a direct range that has not just its width.
    LiteralWidth = 16,
    // A prefix above the width.
    CidrPrefix = 17,
    // A Cidr address whose length is not the width.
    CidrAddress = 18,
    // A Wildcard address or mask whose length is not the width.
    WildcardWidth = 19,
    // An IpRange on more than 128 fields, or with a bound longer than the range.
    IpRangeWidth = 20,
    // An IpRange that starts above its end.
    IpRangeOrder = 21,
    // What is negated is no test.
    NegatedNonTest = 22,
    // The condition of an If is no test.
    ConditionNotTest = 23,
    // A step makes more core nodes than are left of the allowance.
    AllowanceSpent = 24,
    // An Assign or Test of field 4,294,967,295.
    FieldCount = 25,
    // The answer buffer is shorter than the answer.
    BufferTooShort = 26,
    // The term with its replacements has more than 4,096 records or 256 levels.
    ResultTooLarge = 27,
    // The subrange runs backwards, or beyond its alias.
    SubrangeOutside = 28,
    ReplacementEndsEarly = 31,
    ReplacementUnknownKind = 32,
    ReplacementForeignField = 33,
    ReplacementZeroWritten = 34,
    ReplacementOutOfRange = 35,
    ReplacementTooManyRecords = 36,
    ReplacementTooDeep = 37,
    ReplacementLeftOver = 38,
    // A kind from 16 to 26, which only a term has.
    TermKind = 41,
    // More than 65,535 records.
    CoreTooLarge = 42,
    // The core has a record that is not Zero, One, Test or one of the kinds 7 to 11.
    CoreNotTest = 48,
    // No packet, or more than 64.
    PacketCount = 49,
    // A packet has fewer bits than the field count of the core.
    PacketTooShort = 50,
}

// A refusal, and the index of the record or packet that it is about. The byte stands second: in front, it shares the answer's word with the index that
// a walk reads next, and the processor waits where a byte and the rest of a word were stored apart.
#[derive(Clone, Copy, Debug, PartialEq, Eq)]
pub struct Refused {
    pub place: usize,
    pub refusal: Refusal,
}

impl Refusal {
    // The cast, which a public contract gives a name.
    pub fn number(self) -> u8
        ensures { result ≡ number_of self }
    {
        self as u8
    }

    // The refusal at a place.
    pub fn at(self, place: usize) -> Refused
        ensures { result ≡ refused_at self place }
    {
        Refused {
            place,
            refusal: self,
        }
    }

    // The same refusal of a replacement.
    pub fn of_replacement(self) -> Refusal
        requires { number_of self ≤ 8 }
        ensures { number_of result ≡ 30 + number_of self }
    {
        match self {
            Refusal::EndsEarly => Refusal::ReplacementEndsEarly,
            Refusal::UnknownKind => Refusal::ReplacementUnknownKind,
            Refusal::ForeignField => Refusal::ReplacementForeignField,
            Refusal::ZeroWritten => Refusal::ReplacementZeroWritten,
            Refusal::OutOfRange => Refusal::ReplacementOutOfRange,
            Refusal::TooManyRecords => Refusal::ReplacementTooManyRecords,
            Refusal::TooDeep => Refusal::ReplacementTooDeep,
            Refusal::LeftOver => Refusal::ReplacementLeftOver,
            other => other,
        }
    }
}
