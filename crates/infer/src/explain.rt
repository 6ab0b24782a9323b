//! What is said of a bad item.

ghost use Rattle.std.specs.Prelude.{◌≡◌, length, IfOk};
ghost use Rattle.infer_steps.specs.View.{bad_view};
ghost use Rattle.infer.specs.Inside.{IsInside};
ghost use Rattle.type_constructs.specs.Texts.{Explains};
ghost use Rattle.type_store.specs.Shape.{IsStore};

use crate::texts::{class_text, escape_text, field_text, pair_text};
use elm_base::fault::Code;
use elm_base::position::Pos;
use infer_steps::bad::Bad;
use std::alloc::{AllocError, Global};
use type_store::store::Store;

/// What is said of a bad item: the code of the fault, where it stands, and its text in UTF-16 units.
#[derive(Drop)]
pub struct Said {
    pub code: Code,
    pub position: Pos,
    pub text: Vec<u16>,
}

/// What is said of the bad item `bad`, where inference stopped with the store `store`, which may get one variable more.
/// Types are written out, so the time and the memory grow with the sizes of the types of the item. The error means that
/// memory or numbers ran out.
pub fn explain(alloc: Global, store: &mut Store, bad: &Bad) -> Result<Said, AllocError>
    requires whole { IsStore store.old }
    requires inside { IsInside (length store.old) (bad_view bad.now) }
    ensures { IfOk result (λ said. Explains store.old (bad_view bad.now) said.code said.position said.text.items) }
{
    let (code, position, text) = match bad {
        Bad::Same(position, first, second) => (
            Code::TypeMismatch,
            *position,
            pair_text(alloc, store, *first, *second)?,
        ),
        Bad::InClass(position, variable, class) => (
            Code::TypeMismatch,
            *position,
            class_text(alloc, store, *variable, *class)?,
        ),
        Bad::Lacks(position, _, name) => {
            (Code::TypeMismatch, *position, field_text(alloc, name)?)
        }
        Bad::Keeps(position, name) => (Code::TypeMismatch, *position, escape_text(alloc, name)?),
        Bad::Large(position, _) => (Code::TypeTooLarge, *position, Vec::new(alloc)),
    };
    Ok(Said {
        code,
        position,
        text,
    })
}
