//! What holds of chains of operators; and chains and single tokens, worked out.

ghost use Rattle.elm_tree.specs.Regroup.{GroupsWell, GroupsOnce};
ghost use Rattle.elm_tree.specs.Examples.{ToTheLeft, ToTheRight, ByLevels, Unknown, NoSides, OtherSides, LowerBetween};
ghost use Rattle.elm_tree.specs.Examples.{InTurns, Qualified, Unqualified, OfField, Number};

/// A chain in which no operators clash means one tree: that which `grouped` gives.
pub fn regroup_law<T>()
    ensures some { GroupsWell T }
    ensures one { GroupsOnce T }
{}

/// Chains of operators, and what single tokens are.
pub fn examples()
    ensures to_the_left { ToTheLeft }
    ensures to_the_right { ToTheRight }
    ensures by_levels { ByLevels }
    ensures unknown { Unknown }
    ensures no_sides { NoSides }
    ensures other_sides { OtherSides }
    ensures lower_between { LowerBetween }
    ensures in_turns { InTurns }
    ensures qualified { Qualified }
    ensures unqualified { Unqualified }
    ensures of_field { OfField }
    ensures number { Number }
{}
