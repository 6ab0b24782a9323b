//! What is read off a store is what the store tells.

ghost use Rattle.type_constructs.specs.Laws.{ReadIsTold, SchemeIsAsLarge, SchemeIsOrdered, SizeIsTold};

use type_items::principal_types_laws::renaming_law;

/// The scheme of the type that a variable stands for is the one that the store tells. It is as large as the type, so as
/// large as the size that is counted on the graph, and its variables stand in order of appearance.
pub fn reading_law()
    ensures told { ReadIsTold }
    ensures size { SchemeIsAsLarge }
    ensures ordered { SchemeIsOrdered }
    ensures counted { SizeIsTold }
{
    renaming_law()
}
