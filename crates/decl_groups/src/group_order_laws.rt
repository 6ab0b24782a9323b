//! What holds of the order of any definitions.

ghost use Rattle.std.specs.Prelude.{ℕ, List};
ghost use Rattle.decl_groups.specs.Orders.{HaveOrder};

/// Where uses are places of definitions, the groups that are computed are an order: each stands after those that it
/// uses, and each definition stands in one.
pub fn order_law()
    ensures { (uses : List (List ℕ)) → HaveOrder uses }
{}
