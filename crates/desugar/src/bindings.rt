// The bindings around a record: a set by value, whose bulk lies in work memory, each binding above those around it.
ghost use Rattle.std.specs.Prelude.{◌≡◌, ◌+◌, ◌-◌, ◌*◌, ◌≤◌, ◌&&◌, [], ◌∷◌, eqb, length, get_or, IfSome};
ghost use Rattle.std.proofs.lemmas.List.Edits.{sets};
ghost use Rattle.refusals.specs.Refusals.{number_of};
ghost use Rattle.expr.specs.Terms.{Core};
ghost use Rattle.desugar.specs.Bindings.{Env, variable, range, lookup_variable, lookup_alias};
ghost use Rattle.desugar.specs.Memory.{Kept, Lies};
ghost use Rattle.desugar.specs.BindingWords.{AnyBound, Bound, Ends, FrameRoom, VariableFound, fields_pair, frame_number, unbound_number};

use crate::Fields;
use crate::memory::Region;
use refusals::Refusal;

// What a frame binds its name to.
#[derive(Clone, Copy, Debug, PartialEq, Eq)]
enum FrameKind {
    Variable = 0,
    Alias = 1,
}

// A binding as it lies in work memory: of a variable the two numbers are the region of its core, of an alias its fields. `outer` is where the
// frame around it ends.
#[derive(Clone, Copy, Debug, PartialEq, Eq)]
struct Frame {
    kind: FrameKind,
    name: u32,
    first: u32,
    second: u32,
    outer: u32,
}

impl Frame {
    fn write(self, work: &mut [u32], top: usize)
        requires { top + 5 ≤ length work.old }
        ensures { work.new ≡ sets work.old top (frame_number self.kind ∷ self.name ∷ self.first ∷ self.second ∷ self.outer ∷ []) }
    {
        work[top] = self.kind as u32;
        work[top + 1] = self.name;
        work[top + 2] = self.first;
        work[top + 3] = self.second;
        work[top + 4] = self.outer;
    }

    // The frame that ends at `last`.
    fn read(work: &[u32], last: usize) -> Self
        requires { (5 ≤ last) × (last ≤ length work.now) }
        ensures kinds { (kind : FrameKind) → get_or work.now (last - 5) 0 ≡ frame_number kind → result.kind ≡ kind }
        ensures numbers { (result.name ≡ get_or work.now (last - 4) 0) × (result.first ≡ get_or work.now (last - 3) 0)
            × (result.second ≡ get_or work.now (last - 2) 0) × (result.outer ≡ get_or work.now (last - 1) 0) }
    {
        let kind = if work[last - 5] == FrameKind::Variable as u32 {
            FrameKind::Variable
        } else {
            FrameKind::Alias
        };
        Frame {
            kind,
            name: work[last - 4],
            first: work[last - 3],
            second: work[last - 2],
            outer: work[last - 1],
        }
    }

    // Whether it is of a kind and of a name.
    fn binds(self, kind: FrameKind, name: u32) -> bool
        ensures { result ≡ (eqb (frame_number self.kind) (frame_number kind) && eqb self.name name) }
    {
        self.kind == kind && self.name == name
    }
}

// The innermost binding's frame ends at `last`; 0 where there is none.
#[derive(Clone, Copy, Debug, PartialEq, Eq)]
pub struct Bindings {
    pub last: usize,
}

impl Bindings {
    pub fn none() -> Self
        ensures { result.last ≡ 0 }
    {
        Bindings { last: 0 }
    }

    // The variable `name` bound to a core, by a frame at `top`.
    pub fn with_variable(self, work: &mut [u32], top: usize, name: u32, core: Region) -> Self
        requires { FrameRoom work.old self.last top × (core.at + 3 * core.count ≤ top) }
        ensures ends { (result.last ≡ top + 5) × Kept top work.old work.new }
        ensures bound { (env : Env Core) (c : Core) → Bound work.old self.last env → Lies work.old core.at core.count c
            → Bound work.new result.last (variable name c ∷ env) }
    {
        let frame = Frame {
            kind: FrameKind::Variable,
            name,
            first: core.at as u32,
            second: core.count as u32,
            outer: self.last as u32,
        };
        frame.write(work, top);
        Bindings { last: top + 5 }
    }

    // The alias `name` bound to fields, by a frame at `top`.
    pub fn with_alias(self, work: &mut [u32], top: usize, name: u32, fields: Fields) -> Self
        requires { FrameRoom work.old self.last top }
        ensures ends { (result.last ≡ top + 5) × Kept top work.old work.new }
        ensures bound { (env : Env Core) → Bound work.old self.last env → Bound work.new result.last (range name fields.start fields.end ∷ env) }
    {
        let frame = Frame {
            kind: FrameKind::Alias,
            name,
            first: fields.start,
            second: fields.end,
            outer: self.last as u32,
        };
        frame.write(work, top);
        Bindings { last: top + 5 }
    }

    // These bindings in the work memory where they lie.
    pub fn within(self, work: &[u32]) -> Scope<'_>
        requires { AnyBound work.now self.last }
        ensures { (result.work.now ≡ work.now) × (result.last ≡ self.last) }
    {
        Scope {
            work,
            last: self.last,
        }
    }
}

// Bindings to be looked up in, and the work memory where they lie.
#[derive(Clone, Copy, Debug, PartialEq, Eq)]
pub struct Scope<'a> {
    pub work: &'a [u32],
    pub last: usize,
    ghost bound: { ∥ AnyBound work.now last ∥₁ },
}

impl Scope<'_> {
    // Where the innermost frame of a kind and a name ends, if there is one.
    fn find(self, kind: FrameKind, name: u32) -> Option<usize>
        ensures inside { IfSome result (λ last. (5 ≤ last) × (last ≤ self.entry.last) × (last ≤ length self.entry.work.now)) }
        ensures ends { (env : Env Core) → Bound self.entry.work.now self.entry.last env → Ends self.entry.work.now kind name env result }
    {
        let mut last = self.last;
        // Each frame says where the next one outward ends: no `for` counts them.
        while 0 < last {
            let frame = Frame::read(self.work, last);
            if frame.binds(kind, name) {
                return Some(last);
            }
            last = frame.outer as usize;
        }
        None
    }

    // The core that a variable stands for.
    pub fn lookup_variable(self, name: u32) -> Option<Region>
        ensures { (env : Env Core) → Bound self.entry.work.now self.entry.last env
            → VariableFound self.entry.work.now self.entry.last (lookup_variable env name) result }
    {
        let last = self.find(FrameKind::Variable, name)?;
        let frame = Frame::read(self.work, last);
        Some(Region {
            at: frame.first as usize,
            count: frame.second as usize,
        })
    }

    // The range that an alias stands for.
    pub fn lookup_alias(self, name: u32) -> Option<Fields>
        ensures { (env : Env Core) → Bound self.entry.work.now self.entry.last env → fields_pair result ≡ lookup_alias env name }
    {
        let last = self.find(FrameKind::Alias, name)?;
        let frame = Frame::read(self.work, last);
        Some(Fields {
            start: frame.first,
            end: frame.second,
        })
    }

    // Why a name that no variable has is refused: an alias has it, or nothing.
    pub fn unbound(self, name: u32) -> Refusal
        ensures { (env : Env Core) → Bound self.entry.work.now self.entry.last env → number_of result ≡ unbound_number (lookup_alias env name) }
    {
        match self.lookup_alias(name) {
            Some(_) => Refusal::AliasAsVariable,
            None => Refusal::UnboundVariable,
        }
    }
}
