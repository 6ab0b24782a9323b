//! Which constants of a definition are in types of what is around, from what the store says of their variables.

ghost use Rattle.type_constructs.specs.TypeEscapesLaws.{AllDeep, FailsEscaped, FindsEscape};

use crate::type_annotations_laws::definition_law;
use type_schemes::laws::own_law;

/// Where each constant's variable is deeper in the end than what is around, none is in a type there. Where one is not,
/// the definition fails at the first such constant.
pub fn escape_law()
    ensures deep { AllDeep }
    ensures finds { FindsEscape }
    ensures fails { FailsEscaped }
{
    own_law();
    definition_law()
}
