// What the solver's Rust process calls.
#![tactic(auto)]

mod answers;
mod check;
pub mod cost;
pub mod operations;
pub mod records;
pub mod run;

ghost use Rattle.std.specs.Prelude.{◌≡◌, []};
ghost use Rattle.netkat.specs.Entry.{Answers, Call, version};

use refusals::Refusal;

// What a call answers. Success has number 0, place 0 and the operation's values, 0 where it has none; a refusal has its number and
// place, and no values.
#[repr(C)]
#[derive(Clone, Copy, Debug, PartialEq, Eq)]
pub struct Answer {
    pub number: u32,
    pub place: u32,
    pub first: u32,
    pub second: u32,
}

// The fields of alias[sub_start..sub_end], of an alias over the fields from alias_start up to alias_end.
pub fn netkat_compute_subrange(
    alias_start: u32,
    alias_end: u32,
    sub_start: u32,
    sub_end: u32,
) -> Answer
    ensures { Answers (Call.Subrange alias_start alias_end sub_start sub_end) [] [] result }
{
    match desugar::compute_subrange(alias_start, alias_end, sub_start, sub_end) {
        Some(fields) => Answer::success(fields.start, fields.end),
        None => Answer::refused(Refusal::SubrangeOutside.at(0)),
    }
}

// The version of this library.
pub fn netkat_version() -> u32
    ensures { result ≡ version }
{
    1280
}
