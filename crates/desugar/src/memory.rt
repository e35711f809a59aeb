// Numbers and records of work memory.
ghost use Rattle.std.specs.Prelude.{◌≡◌, List, [], ◌∷◌, ℕ, ◌+◌, ◌*◌, ◌^◌, ◌≤◌, ◌<◌, length, get_or, take, drop};
ghost use Rattle.std.proofs.lemmas.List.Edits.{sets};
ghost use Rattle.literals.specs.Bits.{bit};
ghost use Rattle.expr.specs.Kinds.{kind_number};
ghost use Rattle.desugar.specs.Memory.{Holds, Kept, CopyRoom};

use expr::kind::Kind;

// The lowest kind of an operator.
pub(crate) const FIRST_OPERATOR: u32 = Kind::Union as u32;

// Where a core lies, and how many records it has.
#[derive(Clone, Copy, Debug, PartialEq, Eq)]
pub struct Region {
    pub at: usize,
    pub count: usize,
}

impl Region {
    // The index behind it.
    pub(crate) fn end(self) -> usize
        requires { self.at + 3 * self.count < 2 ^ 64 }
        ensures { result ≡ self.at + 3 * self.count }
    {
        self.at + 3 * self.count
    }

    // Its numbers.
    pub(crate) fn words(self, work: &[u32]) -> &[u32]
        requires { self.at + 3 * self.count ≤ length work.now }
        ensures { result.now ≡ take (3 * self.count) (drop self.at work.now) }
    {
        &work[self.at..self.at + 3 * self.count]
    }
}

// A record of the core. Its kind is a number, as it comes from the records of other cores. This and the two below ask for the room of a record
// each: the memory is lent, and no type holds how much of it is free.
pub fn write_record(work: &mut [u32], at: usize, kind: u32, field: u32, value: u32)
    requires { at + 3 ≤ length work.old }
    ensures { work.new ≡ sets work.old at (kind ∷ field ∷ value ∷ []) }
{
    work[at] = kind;
    work[at + 1] = field;
    work[at + 2] = value;
}

// A record without field and value: an operator, or an atom such as One.
pub(crate) fn write_bare(work: &mut [u32], at: usize, kind: Kind)
    requires { at + 3 ≤ length work.old }
    ensures { work.new ≡ sets work.old at (kind_number kind ∷ 0 ∷ 0 ∷ []) }
{
    write_record(work, at, u32::from(kind.number()), 0, 0);
}

// The record of an assignment or a test of a bit.
pub(crate) fn write_bit(work: &mut [u32], at: usize, kind: Kind, field: u32, b: bool)
    requires { at + 3 ≤ length work.old }
    ensures { work.new ≡ sets work.old at (kind_number kind ∷ field ∷ bit b ∷ []) }
{
    write_record(work, at, u32::from(kind.number()), field, u32::from(b));
}

// Copies the `count` numbers at `from` to `to`: down, where the two regions may overlap, or past their end. No `copy_within`: where it
// copies up, as the terms of a bound are copied, it goes from the last number to the first, and takes half as long again.
pub(crate) fn copy(work: &mut [u32], from: usize, to: usize, count: usize)
    requires { CopyRoom (length work.old) from to count }
    ensures kept { Kept to work.old work.new }
    ensures copied { (ys : List ℕ) → length ys ≡ count → Holds work.old from ys → Holds work.new to ys }
    ensures beyond { (k : ℕ) → to + count ≤ k → get_or work.new k 0 ≡ get_or work.old k 0 }
{
    for i in 0..count {
        work[to + i] = work[from + i];
    }
}
