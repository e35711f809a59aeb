// Cores read back, as a host asks it.
ghost use Rattle.netkat.specs.Entry.{Answers, Call};

use crate::Answer;

// The records of a core, to the front of the list, three numbers each: the values are the record count and the field count.
pub fn netkat_read_core(core: &[u8], records: &mut [u32]) -> Answer
    ensures { Answers (Call.ReadCore core.now) records.old records.new result }
{
    match cores::read_core(core, records) {
        Ok(counts) => Answer::success(counts.count as u32, counts.fields),
        Err(e) => Answer::refused(e),
    }
}
