//! What holds of ground types.

ghost use Rattle.elm_type.specs.Ground.{EachKindFits};

/// Each kind of variable stands for some type.
pub fn kind_law()
    ensures { EachKindFits }
{}
