// What C and the solver's Rust process call: each function of `netkat`, exported under its name. include/netkat.h declares them.
#![tactic(auto)]

ghost use Rattle.std.specs.Prelude.{◌≡◌, [], length};
ghost use Rattle.netkat.specs.Entry.{Answers, Call, version};

use netkat::Answer;

// The version of this library.
#[unsafe(no_mangle)]
pub extern "C" fn netkat_version() -> u32
    ensures { result ≡ version }
{
    netkat::netkat_version()
}

// Form and the rules 11 to 23: the first value is 1 if the term is a test, and else 0.
#[unsafe(no_mangle)]
pub extern "C" fn netkat_check(term: &[u8]) -> Answer
    ensures { Answers (Call.Check term.now) [] [] result }
{
    netkat::operations::netkat_check(term)
}

// The core of a term, to the front of the answer buffer: the values are its length and the drawn total. Of work memory only its length is
// promised.
#[unsafe(no_mangle)]
pub extern "C" fn netkat_desugar(
    term: &[u8],
    allowance: u32,
    work: &mut [u32],
    out: &mut [u8],
) -> Answer
    ensures answers { Answers (Call.Desugar term.now allowance (length work.old)) out.old out.new result }
    ensures work_len_unchanged { length work.new ≡ length work.old }
{
    netkat::operations::netkat_desugar(term, allowance, work, out)
}

// The term with each occurrence of the variable `name` replaced that does not lie in the body of a Let or LetBitRange of that name, to the
// front of the answer buffer: the first value is its length.
#[unsafe(no_mangle)]
pub extern "C" fn netkat_substitute(
    term: &[u8],
    name: u16,
    replacement: &[u8],
    out: &mut [u8],
) -> Answer
    ensures { Answers (Call.Substitute term.now name replacement.now) out.old out.new result }
{
    netkat::operations::netkat_substitute(term, name, replacement, out)
}

// Whether a term is in the test fragment: the first value is 1 if it is, and else 0.
#[unsafe(no_mangle)]
pub extern "C" fn netkat_is_test_fragment(term: &[u8]) -> Answer
    ensures { Answers (Call.TestFragment term.now) [] [] result }
{
    netkat::operations::netkat_is_test_fragment(term)
}

// The field count of a term, as the first value: the greatest of field + 1 of an Assign or Test and the end of a direct range or of a
// LetBitRange; 0 where there is none.
#[unsafe(no_mangle)]
pub extern "C" fn netkat_num_fields(term: &[u8]) -> Answer
    ensures { Answers (Call.FieldCount term.now) [] [] result }
{
    netkat::operations::netkat_num_fields(term)
}

// The fields of alias[sub_start..sub_end], of an alias over the fields from alias_start up to alias_end.
#[unsafe(no_mangle)]
pub extern "C" fn netkat_compute_subrange(
    alias_start: u32,
    alias_end: u32,
    sub_start: u32,
    sub_end: u32,
) -> Answer
    ensures { Answers (Call.Subrange alias_start alias_end sub_start sub_end) [] [] result }
{
    netkat::netkat_compute_subrange(alias_start, alias_end, sub_start, sub_end)
}

// The cost of a pattern on the fields from `start` up to `end`, in 64 bits, the lower half first. The pattern is given by its number,
// its prefix, and its literals, each as bytes and a length in bits: C has no other way to lend them.
#[unsafe(no_mangle)]
pub extern "C" fn netkat_cost(
    start: u32,
    end: u32,
    pattern: u32,
    number: u32,
    a: &[u8],
    a_bits: u32,
    b: &[u8],
    b_bits: u32,
) -> Answer
    ensures { Answers (Call.Cost «start» «end» pattern number (a.now, a_bits) (b.now, b_bits)) [] [] result }
{
    netkat::cost::netkat_cost(start, end, pattern, number, a, a_bits, b, b_bits)
}

// The records of a core, to the front of the list, three numbers each: the values are the record count and the field count.
#[unsafe(no_mangle)]
pub extern "C" fn netkat_read_core(core: &[u8], records: &mut [u32]) -> Answer
    ensures { Answers (Call.ReadCore core.now) records.old records.new result }
{
    netkat::records::netkat_read_core(core, records)
}

// Which packets pass a core that is a test: bit i of the 64-bit answer, its lower half first, says so of packet i. The record list is scratch.
#[unsafe(no_mangle)]
pub extern "C" fn netkat_run_packets(
    core: &[u8],
    records: &mut [u32],
    packets: &[u8],
    lengths: &[u32],
) -> Answer
    ensures answers { Answers (Call.RunPackets core.now (length records.old) packets.now lengths.now) [] [] result }
    ensures records_len_unchanged { length records.new ≡ length records.old }
{
    netkat::run::netkat_run_packets(core, records, packets, lengths)
}
