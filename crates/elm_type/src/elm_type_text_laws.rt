//! Types and their texts, worked out.

ghost use Rattle.elm_type.specs.ElmTypeTextExamples.{Examples};

/// Texts of types.
pub fn examples()
    ensures { Examples }
{}
