//! Annotations that stand inside no others.

ghost use Rattle.infer_types.specs.Top.{KeptIsScheme, KeptIsWritten, KeptIsDeclared};

/// The type and the kinds of an annotation that stands inside no others are its scheme. It can be written into a store,
/// and a name with the annotation has its instances.
pub fn top_law()
    ensures scheme { KeptIsScheme }
    ensures written { KeptIsWritten }
    ensures declared { KeptIsDeclared }
{}
