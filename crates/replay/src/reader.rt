// Bytes that are read from the front, and what they stand for.
ghost use Rattle.std.specs.Prelude.{◌≡◌, ◌+◌, ◌≤◌, ◌<◌, length, OnOk};
ghost use Rattle.std.specs.Iterator.{at_most};

use crate::cases::CaseError;
use std::alloc::{AllocError, Global};

// The bytes that are left to read.
#[derive(Clone, Copy, Debug, PartialEq, Eq)]
pub struct Reader<'a> {
    pub rest: &'a [u8],
}

impl<'a> Reader<'a> {
    pub fn array<const N: usize>(&mut self) -> Result<[u8; N], CaseError>
        ensures { OnOk result (length self.new.rest.now + N ≡ length self.old.rest.now) }
    {
        let (front, rest) = self.rest.split_first_chunk().ok_or(CaseError::Malformed)?;
        self.rest = rest;
        Ok(*front)
    }

    // By the library: a name for it, and for the next.
    pub fn short(&mut self) -> Result<u16, CaseError>
        ensures { OnOk result (length self.new.rest.now < length self.old.rest.now) }
    {
        Ok(u16::from_le_bytes(self.array()?))
    }

    pub fn number(&mut self) -> Result<u32, CaseError>
        ensures { OnOk result (length self.new.rest.now < length self.old.rest.now) }
    {
        Ok(u32::from_le_bytes(self.array()?))
    }

    // The next `count` bytes.
    pub fn bytes(&mut self, count: u32) -> Result<&'a [u8], CaseError>
        ensures { OnOk result (length self.new.rest.now ≤ length self.old.rest.now) }
    {
        let (front, rest) = self
            .rest
            .split_at_checked(count as usize)
            .ok_or(CaseError::Malformed)?;
        self.rest = rest;
        Ok(front)
    }
}

// Groups of bytes: of each where it ends, and its bytes, which stand there over and over up to that end. One that is cut short ends them.
#[derive(Drop)]
struct Groups<'a> {
    left: Reader<'a>,
}

impl<'a> Groups<'a> {
    fn group(&mut self) -> Result<(usize, &'a [u8]), CaseError>
        ensures { OnOk result (length self.new.left.rest.now < length self.old.left.rest.now) }
    {
        let end = self.left.number()?;
        let count = self.left.number()?;
        Ok((end as usize, self.left.bytes(count)?))
    }
}

impl<'a> Iterator for Groups<'a> {
    type Item = (usize, &'a [u8]);

    ghost remaining = { λ s. at_most (length s.left.rest.now) };

    fn next(&mut self) -> Option<(usize, &'a [u8])> {
        self.group().ok()
    }
}

// Fills memory with these bytes, over and over.
fn fill(memory: &mut [u8], bytes: &[u8]) {
    for (place, byte) in memory.iter_mut().zip(bytes.iter().cycle()) {
        *place = *byte;
    }
}

// What groups stand for, in the front of some memory: each group behind the end of the one before, as far as there is room. Gives the last end.
pub fn unpack(groups: &[u8], memory: &mut [u8]) -> usize {
    let mut end = 0;
    let left = Reader { rest: groups };
    let groups = Groups { left };
    for (next, group) in groups {
        let room = memory.len();
        if let Some(part) = memory.get_mut(end..next.min(room)) {
            fill(part, group);
        }
        end = next;
    }
    end
}

// The numbers whose bytes these are, four each.
pub fn numbers(alloc: Global, bytes: &[u8]) -> Result<Vec<u32>, AllocError> {
    let (chunks, _) = bytes.as_chunks::<4>();
    chunks.iter().map(|b| u32::from_le_bytes(*b)).collect(alloc)
}

// Whether these are the numbers whose bytes those are, four each.
pub fn holds_numbers(numbers: &[u32], bytes: &[u8]) -> bool {
    let (chunks, _) = bytes.as_chunks::<4>();
    numbers.len() == chunks.len()
        && numbers
            .iter()
            .zip(chunks)
            .all(|(n, b)| *n == u32::from_le_bytes(*b))
}
