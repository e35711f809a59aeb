// The cases of a file: what each calls, and what it expects. tools/cases.py says how they lie there.
ghost use Rattle.std.specs.Prelude.{◌<◌, ◌≤◌, length, OnOk};
ghost use Rattle.std.specs.Iterator.{at_most};

use crate::reader::Reader;
use netkat::Answer;
use std::alloc::AllocError;

// Why a case has no answer.
#[derive(Clone, Copy, Debug, PartialEq, Eq)]
pub enum CaseError {
    // It is cut short, its operation is unknown, or its packets ask for more than there is room for.
    Malformed,
    OutOfMemory(AllocError),
}

impl From<AllocError> for CaseError {
    fn from(error: AllocError) -> Self {
        CaseError::OutOfMemory(error)
    }
}

#[derive(Clone, Copy, Debug, PartialEq, Eq)]
pub enum Operation {
    Check,
    TestFragment,
    FieldCount,
    Substitute,
    Desugar,
    Subrange,
    Compare,
    Cost,
    ReadCore,
    RunPackets,
}

impl TryFrom<u8> for Operation {
    type Error = CaseError;

    fn try_from(number: u8) -> Result<Self, CaseError> {
        match number {
            1 => Ok(Operation::Check),
            2 => Ok(Operation::TestFragment),
            3 => Ok(Operation::FieldCount),
            4 => Ok(Operation::Substitute),
            5 => Ok(Operation::Desugar),
            6 => Ok(Operation::Subrange),
            7 => Ok(Operation::Compare),
            8 => Ok(Operation::Cost),
            9 => Ok(Operation::ReadCore),
            10 => Ok(Operation::RunPackets),
            _ => Err(CaseError::Malformed),
        }
    }
}

// An answer with the values of a success. This and the next are what netkat's own makers do, since what is expected isn't made by what is tested.
pub fn success(first: u32, second: u32) -> Answer {
    Answer {
        number: 0,
        place: 0,
        first,
        second,
    }
}

pub fn refused(number: u32, place: u32) -> Answer {
    Answer {
        number,
        place,
        first: 0,
        second: 0,
    }
}

// The numbers at the front of a case. What its operation does not take is 0.
#[derive(Clone, Copy, Debug, PartialEq, Eq)]
pub struct Head {
    // None for a number that no operation has.
    pub operation: Option<Operation>,
    pub name: u16,
    pub term_length: u32,
    pub replacement_length: u32,
    pub room: u32,
    pub allowance: u32,
    pub work: u32,
    pub expected: Answer,
}

impl Head {
    fn read(bytes: &mut Reader<'_>) -> Result<Head, CaseError>
        ensures { OnOk result (length bytes.new.rest.now < length bytes.old.rest.now) }
    {
        let [operation, ok] = bytes.array::<2>()?;
        let name = bytes.short()?;
        let term_length = bytes.number()?;
        let replacement_length = bytes.number()?;
        let room = bytes.number()?;
        let allowance = bytes.number()?;
        let work = bytes.number()?;
        let first = bytes.number()?;
        let second = bytes.number()?;
        Ok(Head {
            operation: Operation::try_from(operation).ok(),
            name,
            term_length,
            replacement_length,
            room,
            allowance,
            work,
            expected: if ok == 1 {
                success(first, second)
            } else {
                refused(first, second)
            },
        })
    }

    // How many bytes the operation writes: a successful Substitute or Desugar as many as its first value says, any other none.
    fn written(&self) -> u32 {
        match self.operation {
            Some(Operation::Substitute | Operation::Desugar) => self.expected.first,
            _ => 0,
        }
    }
}

#[derive(Clone, Copy, Debug, PartialEq, Eq)]
pub struct Case<'a> {
    pub head: Head,
    pub term: &'a [u8],
    pub replacement: &'a [u8],
    pub written: &'a [u8],
}

impl<'a> Case<'a> {
    // The case behind its head.
    fn read(head: Head, bytes: &mut Reader<'a>) -> Result<Case<'a>, CaseError>
        ensures { OnOk result (length bytes.new.rest.now ≤ length bytes.old.rest.now) }
    {
        Ok(Case {
            head,
            term: bytes.bytes(head.term_length)?,
            replacement: bytes.bytes(head.replacement_length)?,
            written: bytes.bytes(head.written())?,
        })
    }
}

// The cases that are left. One that is cut short is the last.
#[derive(Drop)]
pub struct Cases<'a> {
    pub left: Reader<'a>,
}

impl<'a> Iterator for Cases<'a> {
    type Item = Result<Case<'a>, CaseError>;

    ghost remaining = { λ s. at_most (length s.left.rest.now) };

    fn next(&mut self) -> Option<Result<Case<'a>, CaseError>> {
        let head = Head::read(&mut self.left).ok()?;
        let case = Case::read(head, &mut self.left);
        if case.is_err() {
            self.left = Reader { rest: &[] };
        }
        Some(case)
    }
}
