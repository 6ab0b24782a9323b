//! Single steps of a store are walks.

ghost use Rattle.type_walks.specs.TypeStepsLaws.{AsksSame, AsksClass, AsksLack, RefusesSame, RefusesClass, RefusesLack};
ghost use Rattle.type_walks.specs.TypeStepsLaws.{Opens, Builds, BuildsRow, RowGoes, ClosedLacks, OpenLacks};
ghost use Rattle.type_walks.specs.TypeStepsLaws.{LacksNone, LacksOneMore, StaysLacking};

use type_store::laws::solution_law;

/// To add what an item asks is a walk of that item.
pub fn ask_law()
    ensures same { AsksSame }
    ensures class { AsksClass }
    ensures lack { AsksLack }
{}

/// Where a store clashes with what an item asks, it refuses the item.
pub fn clash_law()
    ensures same { RefusesSame }
    ensures class { RefusesClass }
    ensures lack { RefusesLack }
{}

/// To make a variable is a walk of no items. Its type is that of a place of its own, or is made of types of variables.
/// No record clashes over what is known to lack its fields.
pub fn make_law()
    ensures opens { Opens }
    ensures builds { Builds }
    ensures row { BuildsRow }
    ensures goes { RowGoes }
{
    solution_law()
}

/// Which fields what a record leads to is known to lack.
pub fn lack_law()
    ensures closed { ClosedLacks }
    ensures open { OpenLacks }
    ensures none { LacksNone }
    ensures more { LacksOneMore }
    ensures stays { StaysLacking }
{}
