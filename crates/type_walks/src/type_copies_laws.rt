//! To generalise a type, and to copy it, is to list the items of its definition once more.

ghost use Rattle.type_walks.specs.TypeCopiesLaws.{Generalises, SaysOfCopies, SaysLater, SaysWithMore, Copies};

use type_store::laws::choice_law;

/// What is frozen of a store after the items of a definition says what these items say at every place.
pub fn general_law()
    ensures { Generalises }
{
    choice_law()
}

/// It goes on to say so: of the items without those on sizes, of later stores, and with more links.
pub fn saying_law()
    ensures copies { SaysOfCopies }
    ensures later { SaysLater }
    ensures more { SaysWithMore }
{}

/// A copy of what is frozen is a walk of the items, wherever they are listed.
pub fn copy_law()
    ensures { Copies }
{}
