// Where a core is being read.
ghost use Rattle.std.specs.Prelude.{◌≡◌, ◌+◌, ◌≤◌, ◌<◌, length};
ghost use Rattle.cores.specs.Reading.{max_core};

use cores::MAX_CORE;
use cores::records::CoreRecord;
use refusals::Refused;

// The bytes of a core, the byte and the record that are next, and the field count so far.
#[derive(Clone, Copy, Debug, PartialEq, Eq)]
pub struct Cursor<'a> {
    pub bytes: &'a [u8],
    pub at: usize,
    pub place: usize,
    pub fields: Result<u32, Refused>,
    ghost inside: { at ≤ length bytes.now },
    ghost low: { place ≤ max_core },
}

impl<'a> Cursor<'a> {
    ghost use Rattle.packets.specs.Results.{AtStart, Behind, PairsRead};

    // At the first record.
    pub(crate) fn new(bytes: &'a [u8]) -> Self
        ensures { AtStart bytes.now result }
    {
        Cursor {
            bytes,
            at: 0,
            place: 0,
            fields: Ok(0),
        }
    }

    // Behind a record that is next.
    pub(crate) fn behind(self, r: CoreRecord) -> Self
        requires { (self.at + r.size ≤ length self.bytes.now) × (self.place < max_core) }
        ensures { Behind self.entry r result }
    {
        Cursor {
            bytes: self.bytes,
            at: self.at + r.size,
            place: self.place + 1,
            fields: r.widen(self.fields, self.place),
        }
    }

    // At another byte and record of the same core, with a field count.
    fn moved(self, at: usize, place: usize, most: u32) -> Self
        requires { (at ≤ length self.bytes.now) × (place ≤ max_core) }
        ensures same { result.bytes.now ≡ self.entry.bytes.now }
        ensures spot { (result.at ≡ at) × (result.place ≡ place) }
        ensures count { result.fields ≡ Ok most }
    {
        Cursor {
            bytes: self.bytes,
            at,
            place,
            fields: Ok(most),
        }
    }

    // Behind as many pairs as there are, one behind the other: they change nothing in how many cores are to be skipped.
    pub(crate) fn skip_pairs(self) -> Self
        ensures { PairsRead self.entry result }
    {
        let Ok(mut most) = self.fields else {
            return self;
        };
        let mut at = self.at;
        let mut place = self.place;
        // Pairs differ in size: no `for` counts the bytes. A `break` where no pair is costs a tenth of all instructions more than the return.
        while place + 1 < MAX_CORE {
            let Some(pair) = crate::pairs::read_pair(self.bytes, at) else {
                return self.moved(at, place, most);
            };
            at += pair.size;
            place += 2;
            most = most.max(pair.need);
        }
        self.moved(at, place, most)
    }
}
