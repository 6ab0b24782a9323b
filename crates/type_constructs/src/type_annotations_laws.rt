//! Where definitions with annotations pass, and where they fail.

ghost use Rattle.type_constructs.specs.TypeAnnotationsLaws.{FixesTypes, DefinitionEscapes, DefinitionLarge, DefinitionPasses};
ghost use Rattle.type_constructs.specs.TypeAnnotationsLaws.{DefinitionStops};

use crate::type_refusals_laws::annotated_law;

/// Inside its definition an annotation has constants for all its variables.
pub fn annotation_law()
    ensures { FixesTypes }
{}

/// A definition with an annotation passes where its body passes, none of its constants is in a type of what is around,
/// and its type is small; it fails at the first of these that does not hold.
pub fn definition_law()
    ensures passes { DefinitionPasses }
    ensures large { DefinitionLarge }
    ensures stops { DefinitionStops }
    ensures escapes { DefinitionEscapes }
{
    annotated_law()
}
