//! The pieces that the `main` of a module reaches.

ghost use Rattle.std.specs.Prelude.{◌≡◌, ◌<◌, ◌++◌, ◌∷◌, [], ℕ, if◌then◌else◌, codes, length, map, IfOk, OnOk};
ghost use Rattle.std.specs.Prelude.{IfSome, Bool};
ghost use Rattle.std.specs.List.{All, range_with_len};
ghost use Rattle.decl_groups.specs.Groups.{plain};
ghost use Rattle.link.specs.Link.{reached_pieces};
ghost use Rattle.link.specs.Reached.{is_reached, reaches_from, kept, reached as plain_reached};
ghost use Rattle.link.specs.View.{part_view, placed_view};

use crate::part::Part;
use crate::pieces::{Placed, all_pieces};
use crate::places::Places;
use decl_groups::reachable;
use elm_base::names::Name;
use elm_base::units::Units;
use std::alloc::{AllocError, Global};

/// `main`
const MAIN: [u16; 4] = [109, 97, 105, 110];

/// The name `main`.
pub(crate) fn main_text(alloc: Global) -> Result<Name, AllocError>
    ensures { IfOk result (λ name. name ≡ codes "main") }
{
    let mut units = Vec::with_capacity(alloc, MAIN.len())?;
    units.extend_from_slice(&MAIN)?;
    Name::new(alloc, Units::from_vec(units))
}

/// Which places are reached from the start, if there is one.
fn marks_from(alloc: Global, uses: &[Vec<u32>], start: Option<u32>) -> Result<Vec<bool>, AllocError>
    requires places { All (λ row. All (λ j. j < length uses.now) row.items) uses.now }
    requires start { IfSome start (λ s. s < length uses.now) }
    ensures { IfOk result (λ marks. marks.items
        ≡ map (reaches_from (plain uses.now) start) (range_with_len 0 (length uses.now))) }
{
    match start {
        Some(start) => {
            let marks = reachable(alloc, uses, start)?;
            Ok(marks)
        }
        None => {
            let marks = vec![in alloc; false; uses.len()]?;
            Ok(marks)
        }
    }
}

/// Adds a piece, if it is marked.
fn push_if<'a>(
    found: &mut Vec<Placed<'a>>,
    placed: Placed<'a>,
    is_marked: bool,
) -> Result<(), AllocError>
    ensures { OnOk result (map placed_view found.new.items
        ≡ map placed_view found.old.items ++ (if is_marked then placed_view placed.entry ∷ [] else [])) }
{
    if is_marked {
        found.push(placed)?;
    }
    Ok(())
}

/// The pieces that are marked.
fn marked<'a>(
    alloc: Global,
    pieces: &[Placed<'a>],
    marks: &[bool],
) -> Result<Vec<Placed<'a>>, AllocError>
    requires { length pieces.now ≡ length marks.now }
    ensures { IfOk result (λ v. (test : ℕ → Bool) → marks.now ≡ map test (range_with_len 0 (length pieces.now))
        → map placed_view v.items ≡ kept test 0 (map placed_view pieces.now)) }
{
    let mut found = Vec::new(alloc);
    for place in 0..pieces.len() {
        push_if(&mut found, pieces[place], marks[place])?;
    }
    Ok(found)
}

/// Which of the pieces are reached from the one that declares the name `start`.
fn marks_of(
    alloc: Global,
    pieces: &[Placed<'_>],
    start: &(Name, Name),
) -> Result<Vec<bool>, AllocError>
    ensures { IfOk result (λ marks. marks.items
        ≡ map (is_reached (map (λ d. d.piece.names) (map placed_view pieces.now))
        (map (λ d. d.piece.uses) (map placed_view pieces.now)) start.now) (range_with_len 0 (length pieces.now))) }
{
    let places = Places::of(alloc, pieces)?;
    let uses = places.all_used(alloc, pieces)?;
    let place = places.find(start);
    let marks = marks_from(alloc, &uses, place)?;
    Ok(marks)
}

/// Those of the pieces that are reached from the one that declares the name `start`, in order.
fn reached_among<'a>(
    alloc: Global,
    pieces: &[Placed<'a>],
    start: &(Name, Name),
) -> Result<Vec<Placed<'a>>, AllocError>
    ensures { IfOk result (λ v. map placed_view v.items
        ≡ plain_reached (λ d. d.piece.names) (λ d. d.piece.uses) start.now (map placed_view pieces.now)) }
{
    let marks = marks_of(alloc, pieces, start)?;
    let found = marked(alloc, pieces, &marks)?;
    Ok(found)
}

/// The pieces that the `main` of the module `home` reaches, in order.
#[tactic(auto, unfolding(crate::specs::Link::reached_pieces))]
pub(crate) fn reached<'a>(
    alloc: Global,
    parts: &'a [Part<'a>],
    home: &Name,
) -> Result<Vec<Placed<'a>>, AllocError>
    ensures { IfOk result (λ v. map placed_view v.items ≡ reached_pieces (map part_view parts.now) home.now) }
{
    let pieces = all_pieces(alloc, parts)?;
    let main = (home.clone()?, main_text(alloc)?);
    let found = reached_among(alloc, &pieces, &main)?;
    Ok(found)
}
