// Is a core in work memory a test?
ghost use Rattle.std.specs.Prelude.{◌≡◌, ℕ, ◌/◌, Bool, length};
ghost use Rattle.expr.specs.Terms.{Core, test_kind};
ghost use Rattle.desugar.specs.Memory.{words};
ghost use Rattle.desugar.specs.Negation.{is_test};
ghost use Rattle.desugar.specs.NegationRun.{all_kinds};

// Is this the kind of a record that a test may hold: 0, 1 and 6 to 11? Expr's `Kind::is_test` asks it of a kind, and a number of
// work memory may be larger.
fn test_kind(kind: u32) -> bool
    ensures { result ≡ test_kind kind }
{
    matches!(kind, 0..=1 | 6..=11)
}

// Does `accepts` take the kind of each record of a core?
pub(crate) fn all_kinds<F: Fn(u32) -> bool>(core: &[u32], accepts: F) -> bool
    requires { F.IsAlwaysCallable accepts }
    ensures { (kinds : ℕ → Bool) → ((kind : ℕ) (b : Bool) → F.post accepts kind b → b ≡ kinds kind) → result ≡ all_kinds kinds core.now 0 (length core.now / 3) }
{
    for j in 0..core.len() / 3 {
        if !accepts(core[3 * j]) {
            return false;
        }
    }
    true
}

// Is this core a test?
pub fn is_test(core: &[u32]) -> bool
    ensures { (c : Core) → core.now ≡ words c → result ≡ is_test c }
{
    all_kinds(core, test_kind)
}
