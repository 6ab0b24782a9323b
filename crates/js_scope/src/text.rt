//! A whole text.

ghost use Rattle.std.specs.Prelude.{◌≡◌, ◌≤◌, ◌<◌, ◌+◌, IfErr, IfOk, length};
ghost use Rattle.js_tree.specs.Faults.{next_place, place_after};
ghost use Rattle.js_tree.specs.Postorder.{trees_of, top};
ghost use Rattle.js_scope.specs.Read.{IsNoText, IsTreeOf, place_view};

use crate::reader::Reader;
use crate::refusal::Refusal;
use elm_base::position::Pos;
use js_tree::trees::Trees;
use std::alloc::Global;

/// The place after a byte at `place`.
fn next_place(place: Pos, byte: u8) -> Pos
    requires row { place.row < 4294967295 }
    requires column { place.column < 4294967295 }
    ensures place { place_view result ≡ next_place byte (place_view place) }
    ensures row_bound { result.row ≤ place.row + 1 }
    ensures column_bound { result.column ≤ place.column + 1 }
{
    if byte == b'\n' {
        Pos {
            row: place.row + 1,
            column: 1,
        }
    } else {
        Pos {
            row: place.row,
            column: place.column + 1,
        }
    }
}

/// The place after bytes.
#[tactic(auto, using(crate::proofs::Places::next_after))]
pub fn place_after(bytes: &[u8]) -> Pos
    requires { length bytes.now ≤ 67108864 }
    ensures { place_view result ≡ place_after (record { row = 1; column = 1 }) bytes.now }
{
    let mut place = Pos { row: 1, column: 1 };
    for byte in bytes {
        place = next_place(place, *byte);
    }
    place
}

/// Reads the text of a program.
pub fn read_text(alloc: Global, bytes: &[u8]) -> Result<Trees, Refusal>
    requires { length bytes.now ≤ 67108864 }
    ensures read { IfOk result (λ trees. IsTreeOf (top (trees_of trees)) bytes.now) }
    ensures refused { IfErr result (λ refusal. IsNoText refusal bytes.now) }
{
    let mut reader = Reader::new(alloc)?;
    for (index, byte) in bytes.iter().enumerate() {
        reader.step(*byte)?;
        if reader.is_dead() {
            return Err(Refusal::At(place_after(&bytes[..index])));
        }
    }
    if reader.is_finished() {
        return Ok(reader.into_trees());
    }
    Err(Refusal::At(place_after(bytes)))
}
