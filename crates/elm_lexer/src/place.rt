//! Places after stretches of text.

ghost use Rattle.std.specs.Prelude.{◌≡◌, ◌+◌, ◌<◌, ◌≤◌, ◌^◌, length};
ghost use Rattle.elm_lexer.specs.Tokens.{place_after, after_byte};
ghost use Rattle.elm_lexer.specs.View.{place_view};

use elm_base::position::Pos;

fn after_byte(place: Pos, c: u8) -> Pos
    requires row { place.row + 1 < 2 ^ 32 }
    requires column { place.column + 1 < 2 ^ 32 }
    ensures place { place_view result ≡ after_byte (place_view place) c }
    ensures row { result.row ≤ place.row + 1 }
    ensures column { result.column ≤ place.column + 1 }
{
    if c == b'\n' {
        Pos {
            row: place.row + 1,
            column: 1,
        }
    } else if 128 <= c && c < 192 {
        place
    } else {
        Pos {
            row: place.row,
            column: place.column + 1,
        }
    }
}

/// The place after a stretch of text that begins at a place.
pub fn place_after(place: Pos, text: &[u8]) -> Pos
    requires row { place.row + length text.now < 2 ^ 32 }
    requires column { place.column + length text.now < 2 ^ 32 }
    ensures place { place_view result ≡ place_after (place_view place) text.now }
    ensures row { result.row ≤ place.row + length text.now }
    ensures column { result.column ≤ place.column + length text.now }
{
    let mut at = place;
    let mut rest = text;
    while let [c, after @ ..] = rest {
        at = after_byte(at, *c);
        rest = after;
    }
    at
}
