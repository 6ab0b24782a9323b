//! What holds of principal types in one form.

ghost use Rattle.type_items.specs.Forms.{OneForm, SameFormed, OneFormTold};

/// Two principal types of the same have one form, with their variables in order of appearance, and the fields that each
/// lacks in order.
pub fn form_law()
    ensures form { OneForm }
    ensures formed { SameFormed }
{}

/// The types that are told of the names of a module have one form, whoever tells them.
pub fn told_law()
    ensures { OneFormTold }
{}
