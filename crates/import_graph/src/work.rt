//! What is done for a module.

ghost use Rattle.std.specs.Prelude.{◌≡◌, ◌++◌, ◌∷◌, [], ◌<◌, ℕ, List, length, IfOk, OnOk};

use std::alloc::{AllocError, Global};

/// What is done for a module of a project: a desk is set up, the values of its imports are laid on it in order, and its
/// value is made.
pub trait Work {
    ghost use Rattle.std.specs.Prelude.{ℕ, List};
    ghost use Rattle.import_graph.specs.Fold.{Graph};

    /// What a module is made to.
    type Made: Drop;

    /// Where the values of its imports are laid.
    type Desk: Drop;

    // The modules that each imports.
    ghost graph: { Self → Graph };

    // A module of a number makes a value of the values of its imports.
    ghost makes: { Self → ℕ → List Self.Made → Self.Made → Type 0 };

    // The desk is that of the module of this number, and has these values on it.
    ghost holds: { Self → Self.Desk → ℕ → List Self.Made → Type 0 };

    /// A desk for the module `number`. The error means that memory ran out.
    fn begin(&self, alloc: Global, number: u32) -> Result<Self::Desk, AllocError>
        requires { number < length (graph self.now) }
        ensures { IfOk result (λ d. holds self.now d number []) };

    /// Lays the value of the next import on the desk. The error means that memory ran out.
    fn import(&self, desk: &mut Self::Desk, made: &Self::Made) -> Result<(), AllocError>
        ensures { OnOk result ((i : ℕ) (vs : List Self.Made) → holds self.now desk.old i vs
            → holds self.now desk.new i (vs ++ made.now ∷ [])) };

    /// The value of the desk's module, where the values of all its imports are on the desk. The error means that memory
    /// ran out.
    fn finish(&self, alloc: Global, desk: Self::Desk) -> Result<Self::Made, AllocError>
        ensures { IfOk result (λ m. (i : ℕ) (vs : List Self.Made) → holds self.now desk i vs → makes self.now i vs m) };
}
