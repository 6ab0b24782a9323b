//! What holds of what is read and of faults, whatever the tokens.

ghost use Rattle.elm_parser.specs.Laws.{OneOrOther, OneOrOtherFront, OneOrOtherText};

use elm_grammar::table::rows;

/// Tokens spell at most one thing of a kind or have at most one fault, and not both.
pub fn reading_law()
    ensures { OneOrOther }
{
    let _plan = rows();
}

/// So it is with their longest front that begins a text.
pub fn front_law()
    ensures { OneOrOtherFront }
{
    let _plan = rows();
}

/// A text spells at most one module or has at most one fault, and not both.
pub fn text_law()
    ensures { OneOrOtherText }
{
    let _plan = rows();
}
