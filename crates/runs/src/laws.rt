//! What holds of any two runs.

ghost use Rattle.std.specs.Prelude.{◌≡◌, ℕ};
ghost use Rattle.runs.specs.Trace.{Trace, Covers, SameRun, IsCutOff};

/// The laws of the comparison of runs: it is an equivalence, and a run that is not cut off by its fuel is done by
/// the other one too, event by event.
pub fn same_run_laws()
    ensures reflexive { (f : ℕ → Trace) → SameRun f f }
    ensures symmetric { (f g : ℕ → Trace) → SameRun f g → SameRun g f }
    ensures transitive { (f g h : ℕ → Trace) → SameRun f g → SameRun g h → SameRun f h }
    ensures exact { (f g : ℕ → Trace) → SameRun f g → (n : ℕ) → (IsCutOff (f n) → ⊥) → (m : ℕ) × (g m ≡ f n) }
{}
