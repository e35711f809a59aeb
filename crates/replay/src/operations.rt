// What the operation of a case answers, beside what the case expects.
use crate::cases::{Case, CaseError, Operation, refused, success};
use crate::reader::{Reader, holds_numbers, numbers, unpack};
use literals::BitSlice;
use netkat::Answer;
use netkat::operations::{
    netkat_check, netkat_desugar, netkat_is_test_fragment, netkat_num_fields, netkat_substitute,
};
use refusals::Refusal;
use std::alloc::{AllocError, Global};
use std::cmp::Ordering;

// The memory for an answer buffer, for work memory and for a list: a call is lent the front of it.
const ROOM: usize = 9216;

const WORK: usize = 900_000;

const LIST: usize = 200_064;

// The longest core of a case: one of 65,535 records has 294,910 bytes.
const CORE: usize = 300_000;

// The most packets of a case.
const PACKETS: usize = 320;

// What each byte of an answer buffer is before a call.
const MARK: u8 = 0xa5;

// What each number of a list or of work memory is before a call: an answer does not depend on it.
const USED: u32 = 0xa5a5_a5a5;

// The widest field of a range pattern.
const MAX_RANGE_BITS: usize = 128;

// What calls are lent the front of, and marks to compare it with. Each part is taken when a case first asks for it and kept for the next: taken anew for
// each case, most of the time goes into pages that the system clears.
#[derive(Drop)]
pub struct Memory {
    out: Vec<u8>,
    marks: Vec<u8>,
    work: Vec<u32>,
    core: Vec<u8>,
    list: Vec<u32>,
    want: Vec<u8>,
}

impl Memory {
    pub fn new(alloc: Global) -> Self {
        Memory {
            out: Vec::new(alloc),
            marks: Vec::new(alloc),
            work: Vec::new(alloc),
            core: Vec::new(alloc),
            list: Vec::new(alloc),
            want: Vec::new(alloc),
        }
    }

    // An answer buffer that is marked, and as many marks.
    fn mark(&mut self) -> Result<(), AllocError> {
        refill(&mut self.out, ROOM, MARK)?;
        self.marks.resize(ROOM, MARK)
    }

    // Whether the answer buffer holds what was written to its front, and marks behind it.
    fn holds(&self, written: &[u8]) -> bool {
        match (
            self.out.split_at_checked(written.len()),
            self.marks.get(written.len()..),
        ) {
            (Some((front, behind)), Some(marks)) => front == written && behind == marks,
            _ => false,
        }
    }
}

// Gives memory this length, and each of its places this value.
fn refill<T: Copy>(memory: &mut Vec<T>, length: usize, value: T) -> Result<(), AllocError> {
    memory.clear();
    memory.resize(length, value)
}

// What is taken for the answer of a case whose call cannot be made. No call answers this, but a case may expect it.
fn none() -> Answer {
    Answer {
        number: 0,
        place: 1,
        first: 0,
        second: 0,
    }
}

// The front of some memory, which a call is lent.
fn lent<T>(memory: &mut [T], room: u32) -> Option<&mut [T]> {
    memory.get_mut(..room as usize)
}

// The number of an order in a case. No `From`: neither type is this crate's.
fn order_number(order: Ordering) -> u32 {
    match order {
        Ordering::Equal => 0,
        Ordering::Less => 1,
        Ordering::Greater => 2,
    }
}

// The order of two bounds and the count of bits. `compare` refuses nothing, so its caller judges the lengths by 20.
#[tactic(auto, using(literals::proofs::Comparing::looked_within))]
fn compared(a: BitSlice<'_>, b: BitSlice<'_>, width: usize) -> Result<Answer, Refusal> {
    if MAX_RANGE_BITS < width || width < a.len || width < b.len {
        return Err(Refusal::IpRangeWidth);
    }
    let got = a.compare(b, width);
    Ok(success(order_number(got.order), got.looked as u32))
}

impl Case<'_> {
    // Whether the operation answers what is expected.
    pub fn agrees(&self, alloc: Global, memory: &mut Memory) -> Result<bool, CaseError> {
        let answer = match self.head.operation.ok_or(CaseError::Malformed)? {
            Operation::Check => netkat_check(self.term),
            Operation::TestFragment => netkat_is_test_fragment(self.term),
            Operation::FieldCount => netkat_num_fields(self.term),
            Operation::Subrange => self.subrange().unwrap_or(none()),
            Operation::Compare => match self.comparison() {
                Ok(answer) => answer,
                Err(refusal) => refused(u32::from(refusal.number()), 0),
            },
            Operation::Cost => self.cost().unwrap_or(none()),
            Operation::Substitute => return self.substitutes(memory),
            Operation::Desugar => return self.desugars(memory),
            Operation::ReadCore => return self.reads_core(memory),
            Operation::RunPackets => return self.runs_packets(alloc, memory),
        };
        Ok(answer == self.head.expected)
    }

    // The fields of the four numbers that stand for a term.
    fn subrange(&self) -> Result<Answer, CaseError> {
        let mut term = Reader { rest: self.term };
        let alias_start = term.number()?;
        let alias_end = term.number()?;
        let sub_start = term.number()?;
        let sub_end = term.number()?;
        Ok(netkat::netkat_compute_subrange(alias_start, alias_end, sub_start, sub_end))
    }

    // The comparison of two bounds, each a literal that is judged first.
    fn comparison(&self) -> Result<Answer, Refusal> {
        let a = BitSlice::lent(self.term, self.head.work)?;
        let b = BitSlice::lent(self.replacement, self.head.room)?;
        compared(a, b, self.head.allowance as usize)
    }

    // The cost of a pattern, whose six numbers stand before literal A.
    fn cost(&self) -> Result<Answer, CaseError> {
        let mut term = Reader { rest: self.term };
        let start = term.number()?;
        let end = term.number()?;
        let pattern = term.number()?;
        let number = term.number()?;
        let a_bits = term.number()?;
        let b_bits = term.number()?;
        Ok(netkat::cost::netkat_cost(
            start,
            end,
            pattern,
            number,
            term.rest,
            a_bits,
            self.replacement,
            b_bits,
        ))
    }

    // Whether a Substitute agrees: its answer, and every byte of the memory whose front it is lent.
    fn substitutes(&self, memory: &mut Memory) -> Result<bool, CaseError> {
        memory.mark()?;
        let got = match lent(&mut memory.out, self.head.room) {
            Some(out) => netkat_substitute(self.term, self.head.name, self.replacement, out),
            None => none(),
        };
        Ok(got == self.head.expected && memory.holds(self.written))
    }

    // The same of a Desugar.
    fn desugars(&self, memory: &mut Memory) -> Result<bool, CaseError> {
        memory.mark()?;
        refill(&mut memory.work, WORK, USED)?;
        let work = lent(&mut memory.work, self.head.work);
        let out = lent(&mut memory.out, self.head.room);
        let got = match (work, out) {
            (Some(work), Some(out)) => netkat_desugar(self.term, self.head.allowance, work, out),
            _ => none(),
        };
        Ok(got == self.head.expected && memory.holds(self.written))
    }

    // Whether a core that is read back agrees: its answer, and every number of the memory whose front it is lent.
    fn reads_core(&self, memory: &mut Memory) -> Result<bool, CaseError> {
        refill(&mut memory.core, CORE, 0)?;
        refill(&mut memory.want, 4 * LIST, MARK)?;
        refill(&mut memory.list, LIST, USED)?;
        let end = unpack(self.term, &mut memory.core);
        unpack(self.replacement, &mut memory.want);
        let got = match (
            memory.core.get(..end),
            lent(&mut memory.list, self.head.room),
        ) {
            (Some(core), Some(list)) => netkat::records::netkat_read_core(core, list),
            _ => none(),
        };
        Ok(got == self.head.expected && holds_numbers(&memory.list, &memory.want))
    }

    // Whether packets agree that go through a core: the answer, and the marks behind the list, which is scratch. A core or a list for which there is no
    // room never does. The lengths of the packets stand before them.
    fn runs_packets(&self, alloc: Global, memory: &mut Memory) -> Result<bool, CaseError> {
        refill(&mut memory.core, CORE, 0)?;
        refill(&mut memory.list, LIST, USED)?;
        let end = unpack(self.term, &mut memory.core);
        let core = memory.core.get(..end).ok_or(CaseError::Malformed)?;
        let list = lent(&mut memory.list, self.head.room).ok_or(CaseError::Malformed)?;
        let count = self.head.allowance as usize;
        let got = match self.replacement.split_at_checked(4 * count) {
            Some((lengths, packets)) if count <= PACKETS => {
                let lengths = numbers(alloc, lengths)?;
                netkat::run::netkat_run_packets(core, list, packets, &lengths)
            }
            _ => none(),
        };
        let mut behind = memory.list.iter().skip(self.head.room as usize);
        Ok(got == self.head.expected && behind.all(|n| *n == USED))
    }
}
