//! What a store tells is principal.

ghost use Rattle.type_walks.specs.ToldTypesLaws.{TellsPrincipal, Starts, StopsThere};

use type_store::laws::choice_law;

/// The scheme that a store tells of a variable is the principal type after the items that it stands for.
pub fn principal_law()
    ensures { TellsPrincipal }
{
    choice_law()
}

/// At the start a store stands for no items. Where the items of a module stop, no types solve them up to the one where
/// they stop, and some solve those before it.
pub fn stop_law()
    ensures starts { Starts }
    ensures there { StopsThere }
{
    choice_law()
}
