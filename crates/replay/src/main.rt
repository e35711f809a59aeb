// Runs the cases of the file `cases` through the exported functions and `literals::BitSlice::compare`, and compares each answer in full: number, place,
// values, every byte of the answer buffer. Prints the index of each case that differs, then how many agree and how many there are.
// tools/cases.py makes the file and says what a case is.
#![tactic(auto)]

use cases::{Case, CaseError, Cases};
use operations::Memory;
use reader::Reader;
use std::alloc::{AllocError, Global};
use std::{fs, io};

mod cases;
mod operations;
mod reader;

// Whether a case agrees. One that has no answer differs.
fn verdict(
    alloc: Global,
    memory: &mut Memory,
    case: Result<Case<'_>, CaseError>,
) -> Result<bool, AllocError> {
    match case.and_then(|case| case.agrees(alloc, memory)) {
        Ok(agrees) => Ok(agrees),
        Err(CaseError::Malformed) => Ok(false),
        Err(CaseError::OutOfMemory(error)) => Err(error),
    }
}

// Runs the cases in their order. A case that differs is printed before the next one is run.
fn report(rt: &HostRuntime, bytes: &[u8]) -> io::Result<()> {
    let mut memory = Memory::new(rt.alloc());
    let mut agreed: u64 = 0;
    let mut cases: u64 = 0;
    let left = Reader { rest: bytes };
    for case in (Cases { left }) {
        if verdict(rt.alloc(), &mut memory, case)? {
            agreed = agreed.saturating_add(1);
        } else {
            println!(rt; "differs: case {cases}")?;
        }
        cases = cases.saturating_add(1);
    }
    println!(rt; "{agreed} of {cases} cases agree")
}

fn main(rt: HostRuntime) -> io::Result<()> {
    let bytes = fs::read(&rt, "cases")?;
    report(&rt, &bytes)
}
