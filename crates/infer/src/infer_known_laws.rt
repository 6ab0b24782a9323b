//! Which types can be written into a store.

ghost use Rattle.infer.specs.Laws.{OwnAreWritten, NoneAreWritten, OfferedAreWritten};

use infer_types::top::top_law;

/// The types of what modules declare without a body can be written into a store, where each record that they write has
/// its fields once. So can those that modules offer.
pub fn known_law()
    ensures own { OwnAreWritten }
    ensures none { NoneAreWritten }
    ensures offered { OfferedAreWritten }
{
    top_law()
}
