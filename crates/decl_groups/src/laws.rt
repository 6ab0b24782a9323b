//! What holds of the order of any definitions.

ghost use Rattle.std.specs.Prelude.{◌≡◌, ℕ, List};
ghost use Rattle.decl_groups.specs.Groups.{IsOrder};

/// The definitions of a module have one order: two orders after the same placed definitions are equal.
pub fn order_law()
    ensures { (uses : List (List ℕ)) (placed : List ℕ) (groups others : List (List ℕ)) → IsOrder uses placed groups
        → IsOrder uses placed others → groups ≡ others }
{}
