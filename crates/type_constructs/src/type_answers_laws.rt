//! From what was walked of a module, and from where its items stop, to what is told of it.

ghost use Rattle.type_constructs.specs.TypeAnswersLaws.{Begins, Ends, GoesOn, TellsGroup};
ghost use Rattle.type_constructs.specs.TypeAnswersLaws.{ExplainsFirst, MakesPair, Refuses, RefusesLater};

use type_items::principal_types_laws::renaming_law;
use type_store::laws::choice_law;
use type_walks::told_types_laws::principal_law;

/// The tuple of two variables, which a store makes.
pub fn pair_law()
    ensures { MakesPair }
{}

/// Where the items of a module stop, the module is refused, with what the store there tells of the bad item.
pub fn refusal_law()
    ensures explains { ExplainsFirst }
    ensures refuses { Refuses }
    ensures later { RefusesLater }
{
    renaming_law();
    principal_law()
}

/// Where all groups of a module were walked, the module is inferred, with what the store told after each group.
pub fn inference_law()
    ensures begins { Begins }
    ensures on { GoesOn }
    ensures tells { TellsGroup }
    ensures ends { Ends }
{
    renaming_law();
    choice_law()
}
