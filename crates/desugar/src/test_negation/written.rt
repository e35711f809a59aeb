// What is written for one record of a core, and the modes of its operands: functions of a mode and a kind, as the definitions are. Kinds are numbers of
// work memory, which C lends.
ghost use Rattle.std.specs.Prelude.{◌≡◌, ◌+◌, ◌*◌, ◌-◌, ◌≤◌, ◌<◌, length, get_or, set};
ghost use Rattle.std.proofs.lemmas.List.Edits.{sets};
ghost use Rattle.desugar.specs.NegationRun.{TwoNotes, code, side_code, written_size, drop_at, count_of, new_kind, new_value, own_words, left_code, right_code};

use super::modes::{Mode, Side, Written};
use super::notes::Note;
use crate::memory::{write_bare, write_record};
use expr::kind::Kind;

// Which operand of a Sequence is dropped where it is desugared again.
pub(crate) fn dropped(work: &[u32], note: usize, mode: Mode, kind: u32) -> Option<Side>
    requires { kind ≡ 11 → TwoNotes work.now note }
    ensures { side_code result ≡ drop_at work.now note (code mode) kind }
{
    if mode != Mode::Again || kind != Kind::Sequence as u32 {
        return None;
    }
    let left = Note::from(work[note + 1]);
    let right = super::measured::right_note(work, note, left);
    match (left.one, right.one) {
        (true, _) => Some(Side::Left),
        (false, true) => Some(Side::Right),
        (false, false) => None,
    }
}

// What is written for a record of this kind.
pub(crate) fn written(mode: Mode, kind: u32, drop: Option<Side>) -> Written
    ensures { written_size result ≡ count_of (code mode) kind (side_code drop) }
{
    match (mode, kind, drop) {
        (Mode::Skip, _, _) => Written::Nothing,
        (Mode::Negate, 9, _) => Written::FromOne,
        (Mode::Negate, _, _) => Written::Record,
        (_, _, None) => Written::Record,
        (_, _, Some(_)) => Written::Nothing,
    }
}

// The kind of the record that is written for a record of this kind.
pub(crate) fn new_kind(mode: Mode, kind: u32) -> u32
    ensures { result ≡ new_kind (code mode) kind }
{
    match (mode, kind) {
        (Mode::Negate, 0) => 1,
        (Mode::Negate, 1) => 0,
        (Mode::Negate, 6) => 6,
        (Mode::Negate, 7) => 8,
        (Mode::Negate, _) => 7,
        _ => kind,
    }
}

pub(crate) fn new_value(mode: Mode, kind: u32, value: u32) -> u32
    requires { value ≤ 1 }
    ensures { result ≡ new_value (code mode) kind value }
{
    match (mode, kind) {
        (Mode::Negate, 6) => 1 - value,
        _ => value,
    }
}

// Writes to `to` what the record at `here` asks for.
pub(crate) fn emit(work: &mut [u32], here: usize, mode: Mode, written: Written, to: usize)
    requires { (here + 3 ≤ length work.old) × (get_or work.old (here + 2) 0 ≤ 1) × (to + 3 * written_size written ≤ length work.old) }
    ensures { work.new ≡ sets work.old to (own_words (written_size written) (code mode) (get_or work.old here 0) (get_or work.old (here + 1) 0) (get_or work.old (here + 2) 0)) }
{
    let kind = work[here];
    let field = work[here + 1];
    let value = work[here + 2];
    match written {
        Written::Nothing => {}
        Written::Record => {
            write_record(
                work,
                to,
                new_kind(mode, kind),
                field,
                new_value(mode, kind, value),
            );
        }
        Written::FromOne => {
            write_bare(work, to, Kind::Difference);
            write_bare(work, to + 3, Kind::One);
            write_record(work, to + 6, kind, field, value);
        }
    }
}

fn left_mode(mode: Mode, kind: u32, drop: Option<Side>) -> Mode
    ensures { code result ≡ left_code (code mode) kind (side_code drop) }
{
    match (mode, kind, drop) {
        (Mode::Negate, 9, _) => Mode::Keep,
        (Mode::Negate, _, _) => Mode::Negate,
        (_, _, Some(Side::Left)) => Mode::Skip,
        _ => mode,
    }
}

fn right_mode(mode: Mode, kind: u32, drop: Option<Side>) -> Mode
    ensures { code result ≡ right_code (code mode) kind (side_code drop) }
{
    match (mode, kind, drop) {
        (Mode::Negate, 9, _) => Mode::Keep,
        (Mode::Negate, 10, _) => Mode::Again,
        (Mode::Negate, _, _) => Mode::Negate,
        (_, _, Some(Side::Right)) => Mode::Skip,
        _ => mode,
    }
}

// The operands' modes take the place of the top of the stack.
pub(crate) fn push(work: &mut [u32], top: usize, mode: Mode, kind: u32, drop: Option<Side>)
    requires { (0 < top) × (top < length work.old) }
    ensures { work.new ≡ set (set work.old (top - 1) (left_code (code mode) kind (side_code drop))) top (right_code (code mode) kind (side_code drop)) }
{
    work[top - 1] = left_mode(mode, kind, drop) as u32;
    work[top] = right_mode(mode, kind, drop) as u32;
}
