//! Definitions whose type groups are simple.

ghost use Rattle.infer_proper.specs.Simple.{ApartAreSimple, ProperIsSimple, ProperGroupIsSimple, TitledAreSimple};

/// A pattern with its value shares its type group with no other definition, where the definitions are proper and the
/// names that they bind inside are none of their own; and so it is where there is no pattern.
pub fn simple_law()
    ensures groups { ApartAreSimple }
    ensures expr { ProperIsSimple }
    ensures group { ProperGroupIsSimple }
    ensures titled { TitledAreSimple }
{}
