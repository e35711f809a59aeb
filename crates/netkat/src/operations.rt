// Check, Desugar, Substitute, Test fragment and Field count, as the solver's Rust process calls them.
ghost use Rattle.std.specs.Prelude.{◌≡◌, [], length};
ghost use Rattle.netkat.specs.Entry.{Answers, Call};

use crate::Answer;

// Form and the rules 11 to 23: the first value is 1 if the term is a test, and else 0.
pub fn netkat_check(term: &[u8]) -> Answer
    ensures { Answers (Call.Check term.now) [] [] result }
{
    match crate::check::check(term) {
        Ok(test) => Answer::judged(test),
        Err(e) => Answer::refused(e),
    }
}

// Whether a term is in the test fragment: the first value is 1 if it is, and else 0.
pub fn netkat_is_test_fragment(term: &[u8]) -> Answer
    ensures { Answers (Call.TestFragment term.now) [] [] result }
{
    match expr::operations::is_test_fragment(term) {
        Ok(yes) => Answer::judged(yes),
        Err(e) => Answer::refused(e),
    }
}

// The field count of a term, as the first value: the greatest of field + 1 of an Assign or Test and the end of a direct range or of a
// LetBitRange; 0 where there is none.
pub fn netkat_num_fields(term: &[u8]) -> Answer
    ensures { Answers (Call.FieldCount term.now) [] [] result }
{
    match expr::operations::num_fields(term) {
        Ok(count) => Answer::success(count, 0),
        Err(e) => Answer::refused(e),
    }
}

// The term with each occurrence of the variable `name` replaced that does not lie in the body of a Let or LetBitRange of that name, to the
// front of the answer buffer: the first value is its length.
pub fn netkat_substitute(term: &[u8], name: u16, replacement: &[u8], out: &mut [u8]) -> Answer
    ensures { Answers (Call.Substitute term.now name replacement.now) out.old out.new result }
{
    match expr::replace::substitute(term, name, replacement, out) {
        Ok(length) => Answer::success(length as u32, 0),
        Err(e) => Answer::refused(e),
    }
}

// The core of a term, to the front of the answer buffer: the values are its length and the drawn total. Of work memory only its length is
// promised.
pub fn netkat_desugar(term: &[u8], allowance: u32, work: &mut [u32], out: &mut [u8]) -> Answer
    ensures answers { Answers (Call.Desugar term.now allowance (length work.old)) out.old out.new result }
    ensures work_len_unchanged { length work.new ≡ length work.old }
{
    match desugar::bytes::desugar(term, allowance, work, out) {
        Ok(core) => Answer::success(core.length as u32, core.drawn as u32),
        Err(e) => Answer::refused(e),
    }
}
