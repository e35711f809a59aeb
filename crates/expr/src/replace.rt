// Substitute: a variable gives way to a term wherever it does not lie in the body of a Let or LetBitRange of its name. A first walk measures
// the result, a second writes it.
ghost use Rattle.std.specs.Prelude.{◌≡◌, true, ◌+◌, ◌≤◌, length};
ghost use Rattle.expr.specs.Kinds.{kind_number};
ghost use Rattle.expr.specs.Replaced.{SubstitutedAs, Decodes, named, swap, swap_all, pasted, Ready, Done, ReadyAll, DoneAll};

use crate::form::{MAX_DEPTH, MAX_RECORDS};
use crate::kind::Kind;
use refusals::{Refusal, Refused};

// What is replaced: the variable, what is put for it with its records and levels, and whether the result is written or only measured: a flag, as
// a closure that writes would pass through each call of the recursion in the place of `out`, and be called nowhere else.
#[derive(Clone, Copy, Debug, PartialEq, Eq)]
pub struct Job<'a> {
    pub name: u16,
    pub by: &'a [u8],
    pub records: usize,
    pub depth: usize,
    pub write: bool,
}

// Where a term stands: it has at most `left` levels, `live` says that it lies in no body of a Let or LetBitRange of the name, so that the
// variable is replaced in it, and its result goes to `to`.
#[derive(Clone, Copy, Debug, PartialEq, Eq)]
pub struct Spot {
    pub left: usize,
    pub live: bool,
    pub to: usize,
}

// A term's children, of at most `left` levels: how many, and whether the variable is replaced in the first of them and in the others.
#[derive(Clone, Copy, Debug, PartialEq, Eq)]
pub struct Children {
    pub count: usize,
    pub left: usize,
    pub first: bool,
    pub others: bool,
}

// How many bytes of the term are used, where the result goes on, and its records and levels.
#[derive(Clone, Copy, Debug, PartialEq, Eq)]
pub struct Walked {
    pub used: usize,
    pub to: usize,
    pub records: usize,
    pub depth: usize,
}

// Whether a record is of a kind and of a name.
fn is_named(kind: Kind, name: u32, of: Kind, x: u16) -> bool
    ensures { result ≡ named (kind_number kind) name (kind_number of) x }
{
    kind == of && name == u32::from(x)
}

// Writes the bytes at a place, if they are to be written. A loop: `copy_from_slice` calls memmove, and the archive needs nothing of the C library
// but memset.
fn copy(from: &[u8], out: &mut [u8], at: usize, write: bool)
    requires { write ≡ true → at + length from.now ≤ length out.old }
    ensures { out.new ≡ pasted write at from.now out.old }
{
    if write {
        for i in 0..from.len() {
            out[at + i] = from[i];
        }
    }
}

// The term at the front of the bytes. The job is borrowed: a copy of it for each record costs a tenth of all instructions.
// A record can always be read, for the bytes are of good form.
#[cycle(walk_walk_all)]
fn walk(s: &[u8], spot: Spot, job: &Job, out: &mut [u8]) -> Walked
    requires { Ready s.now spot job.now out.old }
    ensures { (q : Ready s.now spot job.now out.old)
        → Done q.term (swap job.now.name q.by spot.live q.term) job.now out.old out.new spot.to result }
{
    let Spot { left, live, to } = spot;
    let Ok(head) = crate::records::read_record(s) else {
        return Walked {
            used: 0,
            to,
            records: 0,
            depth: 0,
        };
    };
    let kind = head.kind;
    let size = head.size;
    let hit = live & is_named(kind, head.name, Kind::Var, job.name);
    if hit {
        copy(job.by, out, to, job.write);
        let end = to + job.by.len();
        return Walked {
            used: size,
            to: end,
            records: job.records,
            depth: job.depth,
        };
    }
    copy(&s[..size], &mut *out, to, job.write);
    let children = Children {
        count: kind.arity(),
        left: left - 1,
        first: live & !is_named(kind, head.name, Kind::LetBitRange, job.name),
        others: live & !is_named(kind, head.name, Kind::Let, job.name),
    };
    let done = Walked {
        used: size,
        to: to + size,
        records: 1,
        depth: 1,
    };
    walk_all(s, done, children, job, out)
}

// A term's children, one behind the other, behind what is done of the term.
#[cycle(walk_walk_all)]
fn walk_all(s: &[u8], done: Walked, children: Children, job: &Job, out: &mut [u8]) -> Walked
    requires { ReadyAll s.now done children job.now out.old }
    ensures { (q : ReadyAll s.now done children job.now out.old)
        → DoneAll q.terms (swap_all job.now.name q.by children.first children.others q.terms) job.now out.old out.new done result }
{
    let mut done = done;
    let mut live = children.first;
    for _ in 0..children.count {
        let used = done.used;
        let spot = Spot {
            left: children.left,
            live,
            to: done.to,
        };
        let a = walk(&s[used..], spot, job, &mut *out);
        let depth = done.depth.max(1 + a.depth);
        let records = done.records + a.records;
        let behind = used + a.used;
        done = Walked {
            used: behind,
            to: a.to,
            records,
            depth,
        };
        live = children.others;
    }
    done
}

// A term of good form with the variable replaced by another: the result is measured, and written where it fits.
fn replace(term: &[u8], name: u16, by: &[u8], out: &mut [u8]) -> Result<usize, Refused>
    requires { Decodes term.now × Decodes by.now }
    ensures { SubstitutedAs term.now name by.now out.old out.new result }
{
    let alone = Job {
        name,
        by,
        records: 0,
        depth: 0,
        write: false,
    };
    let kept = Spot {
        left: MAX_DEPTH,
        live: false,
        to: 0,
    };
    let b = walk(by, kept, &alone, &mut *out);
    let measuring = Job {
        records: b.records,
        depth: b.depth,
        ..alone
    };
    let whole = Spot { live: true, ..kept };
    let m = walk(term, whole, &measuring, &mut *out);
    if MAX_RECORDS < m.records {
        return Err(Refusal::ResultTooLarge.at(0));
    }
    if MAX_DEPTH < m.depth {
        return Err(Refusal::ResultTooLarge.at(0));
    }
    if out.len() < m.to {
        return Err(Refusal::BufferTooShort.at(0));
    }
    let writing = Job {
        write: true,
        ..measuring
    };
    let w = walk(term, whole, &writing, out);
    Ok(w.to)
}

// The term with each occurrence of the variable `name` replaced that does not lie in the body of a Let or LetBitRange of that name.
pub fn substitute(
    term: &[u8],
    name: u16,
    replacement: &[u8],
    out: &mut [u8],
) -> Result<usize, Refused>
    ensures { SubstitutedAs term.now name replacement.now out.old out.new result }
{
    crate::form::form(term)?;
    if let Err(e) = crate::form::form(replacement) {
        return Err(e.refusal.of_replacement().at(e.place));
    }
    replace(term, name, replacement, out)
}
