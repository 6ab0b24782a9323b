//! What an annotation gives inside its definition.

ghost use Rattle.infer_exprs.specs.Laws.{FixedIsAsked, FixingStops};

use type_constructs::type_annotations_laws::definition_law;
use type_store::laws::choice_law;
use type_walks::type_copies_laws::saying_law;

/// Inside a definition its annotation is fixed: it was asked, or the definition stops.
pub fn fixing_law()
    ensures asked { FixedIsAsked }
    ensures stops { FixingStops }
{
    saying_law();
    definition_law();
    choice_law()
}
