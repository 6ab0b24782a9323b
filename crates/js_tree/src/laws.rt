//! What holds of any bytes, as the text of an output.

ghost use Rattle.std.specs.Prelude.{◌≡◌, ℕ, List, true};
ghost use Rattle.js_tree.specs.Tree.{Program};
ghost use Rattle.js_tree.specs.Text.{JsText};
ghost use Rattle.js_tree.specs.Subset.{is_program_spelled};
ghost use Rattle.js_tree.specs.Faults.{Place, IsFaultAt, Stops};

/// Bytes are the text of at most one program.
pub fn js_text_law()
    ensures { (bytes : List ℕ) (p q : Program) → is_program_spelled p ≡ true → is_program_spelled q ≡ true
        → JsText p bytes → JsText q bytes → p ≡ q }
{}

/// Bytes stop being a text at exactly one place.
pub fn stop_law()
    ensures place { (bytes : List ℕ) → Stops bytes }
    ensures only { (bytes : List ℕ) (p q : Place) → IsFaultAt bytes p → IsFaultAt bytes q → p ≡ q }
{}
