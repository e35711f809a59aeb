// Desugar on bytes: the core's bytes, and how much of the allowance was drawn.
ghost use Rattle.std.specs.Prelude.{length};
ghost use Rattle.desugar.specs.DesugarBytes.{DesugaredAs, Granted};

use crate::bindings::Bindings;
use crate::walk::Spot;
use expr::form::MAX_DEPTH;
use refusals::{Refusal, Refused};

// The core's length in bytes, and the drawn total.
#[derive(Clone, Copy, Debug, PartialEq, Eq)]
pub struct Desugared {
    pub length: usize,
    pub drawn: usize,
}

// The greatest allowance, and the numbers of work memory that are asked beside eight for each unit of the allowance.
const MAX_ALLOWANCE: usize = 65535;

const BASE_WORK: usize = 8192;

// The core of a term of good form, written where it fits.
fn write_desugared(
    term: &[u8],
    allowance: usize,
    work: &mut [u32],
    out: &mut [u8],
) -> Result<Desugared, Refused>
    requires { Granted term.now allowance work.old }
    ensures { DesugaredAs term.now allowance (length work.old) out.old out.new result }
{
    let whole = Spot {
        at: 0,
        place: 0,
        left: MAX_DEPTH,
        env: Bindings::none(),
        top: 0,
        allowance,
    };
    let walked = crate::walk::desugar_with_env(term, &mut *work, whole)?;
    let core = walked.core.words(work);
    if !crate::core_bytes::fits(core, out.len()) {
        return Err(Refusal::BufferTooShort.at(0));
    }
    let length = crate::core_bytes::write_core(core, out);
    Ok(Desugared {
        length,
        drawn: allowance - walked.left,
    })
}

// The core of a term, to the front of the answer buffer. Of work memory only its length is promised: the answer does not depend on what it
// holds, and nothing is said of what it holds after the call.
pub fn desugar(
    term: &[u8],
    allowance: u32,
    work: &mut [u32],
    out: &mut [u8],
) -> Result<Desugared, Refused>
    ensures { DesugaredAs term.now allowance (length work.old) out.old out.new result }
{
    let units = allowance as usize;
    if units == 0 {
        return Err(Refusal::Allowance.at(0));
    }
    if MAX_ALLOWANCE < units {
        return Err(Refusal::Allowance.at(0));
    }
    if work.len() < 8 * units + BASE_WORK {
        return Err(Refusal::WorkMemory.at(0));
    }
    expr::form::form(term)?;
    write_desugared(term, units, work, out)
}
