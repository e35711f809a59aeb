// Reads one term from standard input and prints what Desugar answers, under an allowance of 1,000 and with an answer buffer of 7,000 bytes:
// `ok`, the drawn total and the core's length, and on a second line the core in hexadecimal; or `no`, the refusal's number and place; or
// `long` for a term of more than 8,192 bytes.
#![tactic(auto)]

use std::io;
use std::io::Read;

// The longest term that is read.
const LONGEST: usize = 8192;

// The answer for a core: what was drawn, and the core's bytes in hexadecimal.
fn print_core(rt: &impl Print, drawn: usize, core: &[u8]) -> io::Result<()> {
    let length = core.len();
    println!(rt; "ok {drawn} {length}")?;
    for byte in core {
        print!(rt; "{byte:02x}")?;
    }
    println!(rt;)
}

fn main(rt: HostRuntime) -> io::Result<()> {
    let mut term = Vec::new(rt.alloc());
    rt.stdin().take(LONGEST as u64 + 1).read_to_end(&mut term)?;
    if LONGEST < term.len() {
        return println!(rt; "long");
    }
    // Under this allowance Desugar asks for 8,192 numbers, and eight for each unit. Arrays, since both sizes are constants.
    let mut work = [0; 16192];
    let mut out = [0; 7000];
    match desugar::bytes::desugar(&term, 1000, &mut work, &mut out) {
        Err(refused) => println!(rt; "no {} {}", refused.refusal.number(), refused.place),
        Ok(core) => print_core(&rt, core.drawn, &out[..core.length]),
    }
}
