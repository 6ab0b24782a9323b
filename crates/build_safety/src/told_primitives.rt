//! The functions that no text can say, in the modules of a build.

ghost use Rattle.build_safety.specs.ToldAnnotated.{AnnotatedAreTold};
ghost use Rattle.build_safety.specs.ToldPrimitives.{PrimitivesAreTold};

/// A module that is inferred as it is told has the scheme of its annotation for each name with one, and inference tells
/// that scheme.
pub fn annotated_law()
    ensures { AnnotatedAreTold }
{}

/// The functions that no text can say have the types that the law of programs asks of them, and the modules that define
/// them have these types too.
pub fn primitives_law()
    ensures { PrimitivesAreTold }
{}
