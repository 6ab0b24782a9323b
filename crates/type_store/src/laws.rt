//! What holds of every store.

ghost use Rattle.type_store.specs.Laws.{EachChoiceFits, EachStoreCanFit};

use elm_type::ground_types_laws::kind_law;

/// Each store has a solution, whatever its constants stand for.
pub fn solution_law()
    ensures { EachStoreCanFit }
{
    kind_law()
}

/// The types of all variables of which nothing is known may be chosen, and what the constants stand for.
pub fn choice_law()
    ensures { EachChoiceFits }
{}
