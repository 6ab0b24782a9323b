//! How what passes and what fails is put together.

ghost use Rattle.type_constructs.specs.Annotated.{AnnotatedPasses, AnnotatedLarge, BodyFails, ConstantEscapes};
ghost use Rattle.type_constructs.specs.TypeRefusalsLaws.{FailsSame, FailsClass, FailsLack, FailsLarge};
ghost use Rattle.type_constructs.specs.TypeRefusalsLaws.{FailsAfter, FailsEarlier, FailsLinked, FailsInside};
ghost use Rattle.type_constructs.specs.TypeRefusalsLaws.{PassesPlain, PassesSmall};
ghost use Rattle.type_constructs.specs.TypeRefusalsLaws.{PassesOn, PassesWidely, PassesLinked, PassesInside};

use type_store::laws::choice_law;
use type_walks::told_types_laws::principal_law;

/// Items that ask for no sizes pass, and so does the size of a type that the store tells as a small one.
pub fn pass_law()
    ensures plain { PassesPlain }
    ensures small { PassesSmall }
{
    principal_law()
}

/// What passes after items that were walked and passed, passes with them; in a larger region too, where more is
/// linked, and in a definition around.
pub fn passing_law()
    ensures on { PassesOn }
    ensures widely { PassesWidely }
    ensures linked { PassesLinked }
    ensures inside { PassesInside }
{}

/// Where the store refuses what an item asks, the items fail at it, and so they do at a type that is too large.
pub fn fail_law()
    ensures same { FailsSame }
    ensures class { FailsClass }
    ensures lack { FailsLack }
    ensures large { FailsLarge }
{
    principal_law();
    choice_law()
}

/// What fails after items that were walked and passed, fails with them; before more items too and in a larger region,
/// where more is linked, and in a definition around.
pub fn failing_law()
    ensures after { FailsAfter }
    ensures earlier { FailsEarlier }
    ensures linked { FailsLinked }
    ensures inside { FailsInside }
{}

/// An annotated definition passes where its body passes, no constant is in a type of what is around, and its type is
/// small; it fails where one of these fails first.
pub fn annotated_law()
    ensures passes { AnnotatedPasses }
    ensures large { AnnotatedLarge }
    ensures body { BodyFails }
    ensures escapes { ConstantEscapes }
{
    principal_law();
    choice_law()
}
