// Packets run through a core, as a host asks it.
ghost use Rattle.std.specs.Prelude.{◌≡◌, [], length};
ghost use Rattle.netkat.specs.Entry.{Answers, Call};

use crate::Answer;

// Which packets pass a core that is a test: bit i of the 64-bit answer, its lower half first, says so of packet i. The record list is scratch.
pub fn netkat_run_packets(
    core: &[u8],
    records: &mut [u32],
    packets: &[u8],
    lengths: &[u32],
) -> Answer
    ensures answers { Answers (Call.RunPackets core.now (length records.old) packets.now lengths.now) [] [] result }
    ensures records_len_unchanged { length records.new ≡ length records.old }
{
    match packets::run_packets(core, records, packets, lengths) {
        Ok(passing) => Answer::halved(passing),
        Err(e) => Answer::refused(e),
    }
}
