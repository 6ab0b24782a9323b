//! The pieces of all modules, in order.

ghost use Rattle.std.specs.Prelude.{◌≡◌, ◌++◌, map, IfOk, OnOk};
ghost use Rattle.link.specs.Link.{placed, placed_in};
ghost use Rattle.link.specs.View.{part_view, placed_view};

use crate::fragment::Piece;
use crate::part::Part;
use elm_base::names::Name;
use std::alloc::{AllocError, Global};

/// A piece, with the name and the path of its module.
#[derive(Clone, Copy)]
pub(crate) struct Placed<'a> {
    pub(crate) name: &'a Name,
    pub(crate) path: &'a String,
    pub(crate) piece: &'a Piece,
}

/// Adds the pieces of a module.
fn push_pieces<'a>(part: &'a Part<'a>, pieces: &mut Vec<Placed<'a>>) -> Result<(), AllocError>
    ensures { OnOk result (map placed_view pieces.new.items
        ≡ map placed_view pieces.old.items ++ placed_in (part_view part.now)) }
{
    for piece in &part.fragment.pieces {
        pieces.push(Placed {
            name: &part.name,
            path: &part.path,
            piece,
        })?;
    }
    Ok(())
}

/// The pieces of all modules, in order.
pub(crate) fn all_pieces<'a>(
    alloc: Global,
    parts: &'a [Part<'a>],
) -> Result<Vec<Placed<'a>>, AllocError>
    ensures { IfOk result (λ v. map placed_view v.items ≡ placed (map part_view parts.now)) }
{
    let mut pieces = Vec::new(alloc);
    for part in parts {
        push_pieces(part, &mut pieces)?;
    }
    Ok(pieces)
}
