//! What kind of type group definitions are.

ghost use Rattle.std.specs.Prelude.{List};
ghost use Rattle.elm_canon.specs.Tree.{Group};
ghost use Rattle.type_items.specs.Definitions as plain;
ghost use Rattle.infer_order.specs.Order.{AreDefinitions};
ghost use Rattle.infer_exprs.specs.First.{IsFirst};
ghost use Rattle.infer_exprs.specs.Members.{StandAlone};

use elm_base::position::Pos;
use elm_canon::tree::Annotation;
use infer_order::order::Definition;

/// A kind of type group.
#[derive(Clone, Copy)]
pub enum First<'a> {
    /// A definition with an annotation: the number of its group and its own in it, and where it is written.
    Annotated(usize, usize, Pos, &'a Annotation),
    /// A pattern with its value: the number of its group, and where it is written.
    Pattern(usize, Pos),
    /// Definitions without an annotation.
    Inferred,
}

/// The kind of the type group that has the definitions `members`.
pub fn first_of<'a>(members: &[Definition<'a>]) -> First<'a>
    ensures { (gs : List Group) (group : List plain.Definition) → AreDefinitions gs members.now group
        → StandAlone members.now → IsFirst result gs members.now group }
{
    let Some(first) = members.first() else {
        return First::Inferred;
    };
    let Some(title) = first.title else {
        return First::Pattern(first.group, first.place);
    };
    match &title.annotation {
        Some(annotation) => {
            First::Annotated(first.group, first.function, first.place, annotation)
        }
        None => First::Inferred,
    }
}
