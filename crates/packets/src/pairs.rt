// An operator and a Test behind it, which most records of a test are.
ghost use Rattle.std.specs.Prelude.{◌≡◌, ◌≤◌, length, drop, slice_index};
ghost use Rattle.packets.specs.Results.{pair_bytes, PairFound};

use cores::records;

// The bytes of both, and the fields that the Test needs.
#[derive(Clone, Copy, Debug, PartialEq, Eq)]
pub struct Pair {
    pub size: usize,
    pub need: u32,
}

// Whether these nine bytes are the first of an operator of tests, and those of a Test behind it of a field that stands and is below the top one: kinds
// are bytes here, as nothing was read yet.
fn is_pair(nine: &[u8; 9], field: u32) -> bool
    ensures { result ≡ pair_bytes (slice_index nine.now 0) (slice_index nine.now 1) (slice_index nine.now 2) (slice_index nine.now 3) field (slice_index nine.now 8) }
{
    let operator = nine[1];
    let kind = nine[3];
    let both = records::is_operator(nine[0], operator)
        & records::is_atom(nine[2], kind, field, nine[8]);
    both & ((operator <= 11) & ((kind == 6) & (field < 0xffff_ffff)))
}

// The two at an index, if they are there and nine bytes tell them.
pub(crate) fn read_pair(s: &[u8], at: usize) -> Option<Pair>
    requires { at ≤ length s.now }
    ensures { PairFound (drop at s.now) result }
{
    let nine = s[at..].first_chunk::<9>()?;
    let field = u32::from_le_bytes([nine[4], nine[5], nine[6], nine[7]]);
    if !is_pair(nine, field) {
        return None;
    }
    Some(Pair {
        size: 8 + (nine[2] / 32) as usize,
        need: field + 1,
    })
}
