// Desugaring: from a written policy to one-bit tests and assignments.
#![tactic(auto)]

mod between;
pub mod bindings;
pub mod by_number;
pub mod bytes;
mod core_bytes;
mod guarded;
pub mod judged;
mod leaf;
mod leaves;
mod masks;
pub mod memory;
mod operands;
pub mod ranged;
pub mod rules;
mod standing;
mod test_negation;
pub mod uses;
mod walk;

ghost use Rattle.std.specs.Prelude.{◌≡◌, ◌-◌, ◌≤◌};
ghost use Rattle.desugar.specs.Bindings.{compute_subrange, subrange_answer};

// Fields of a packet, from `start` up to `end`.
#[derive(Clone, Copy, Debug, PartialEq, Eq)]
pub struct Fields {
    pub start: u32,
    pub end: u32,
}

impl Fields {
    // How many they are.
    pub(crate) fn count(self) -> usize
        requires { self.start ≤ self.end }
        ensures { result ≡ self.end - self.start }
    {
        (self.end - self.start) as usize
    }
}

// The fields of alias[sub_start..sub_end], where the alias has the fields from alias_start up to alias_end, if they lie within it.
pub fn compute_subrange(
    alias_start: u32,
    alias_end: u32,
    sub_start: u32,
    sub_end: u32,
) -> Option<Fields>
    ensures { subrange_answer result ≡ compute_subrange alias_start alias_end sub_start sub_end }
{
    let actual_start = alias_start as u64 + sub_start as u64;
    let actual_end = alias_start as u64 + sub_end as u64;
    if 0x1_0000_0000 <= actual_start {
        return None;
    }
    if 0x1_0000_0000 <= actual_end {
        return None;
    }
    if sub_end < sub_start {
        return None;
    }
    if (alias_end as u64) < actual_end {
        return None;
    }
    Some(Fields {
        start: actual_start as u32,
        end: actual_end as u32,
    })
}
