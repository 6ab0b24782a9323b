//! What holds of the groups of any definitions, and a few groups worked out.

ghost use Rattle.std.specs.Prelude.{ℕ, List};
ghost use Rattle.decl_groups.specs.InOrder.{ReachesWell, IsTheOrder};
ghost use Rattle.decl_groups.specs.Examples.{UsedFirst, Joined, Alone, Ties};

/// Where uses are places of definitions, what is computed of reaching is what uses lead to, and the order of groups is
/// the one that is computed.
pub fn computed_law()
    ensures reaching { (uses : List (List ℕ)) → ReachesWell uses }
    ensures order { (uses : List (List ℕ)) → IsTheOrder uses }
{}

/// The groups of a few definitions.
pub fn examples()
    ensures used_first { UsedFirst }
    ensures joined { Joined }
    ensures alone { Alone }
    ensures ties { Ties }
{}
