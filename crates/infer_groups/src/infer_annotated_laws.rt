//! How the walk of a definition with its annotation is put together.

ghost use Rattle.infer_groups.specs.Annotated.{ConstantsReady, ConstantsMean, BodyIsDone, BodyStops, MayLetGo};
ghost use Rattle.infer_groups.specs.Annotated.{ConstantEscapes, AnnotatedIsLarge, AnnotatedCloses};

use type_constructs::type_annotations_laws::definition_law;
use type_constructs::type_escapes_laws::escape_law;
use type_store::laws::choice_law;
use type_walks::type_copies_laws::saying_law;

/// The constants of a definition are in scope inside it.
pub fn opening_law()
    ensures ready { ConstantsReady }
    ensures mean { ConstantsMean }
{
    saying_law();
    choice_law()
}

/// Inside the definition its annotation is asked, and its body walked.
pub fn body_law()
    ensures done { BodyIsDone }
    ensures stops { BodyStops }
{
    saying_law();
    definition_law();
    choice_law()
}

/// Where no constant of the definition is in a type of what is around, and its type is small, its constants may be let
/// go, and it was walked.
pub fn closing_law()
    ensures escapes { ConstantEscapes }
    ensures large { AnnotatedIsLarge }
    ensures may { MayLetGo }
    ensures closes { AnnotatedCloses }
{
    saying_law();
    definition_law();
    escape_law();
    choice_law()
}
