//! What is reported of a fault.

ghost use Rattle.std.specs.Prelude.{◌≡◌, map};
ghost use Rattle.elm_lexer.specs.View.{token_view, place_view, fault_view};
ghost use Rattle.elm_parser.specs.Scan.{finding_view};
ghost use Rattle.elm_parser.specs.Reported.{detail_of, place_at, reported};

use crate::finding::Finding;
use elm_base::fault::Code;
use elm_base::position::Pos;
use elm_lexer::error::TextFault;
use elm_lexer::token::Token;
use elm_tree::tree::Word;
use elm_tree::turns::text_at;

/// Where a token begins, or the end of the text where there is no such token.
fn place_at(tokens: &[Token<'_>], index: u32, end: Pos) -> Pos
    ensures { place_view result ≡ place_at (map token_view tokens.now) (place_view end) index }
{
    match tokens.get(index as usize) {
        Some(token) => token.start,
        None => end,
    }
}

/// What a fault says: the operator that does not group, or the name that is annotated alone.
fn detail_of(code: Code, text: &[u8]) -> &[u8]
    ensures { result.now ≡ detail_of code text.now }
{
    match code {
        Code::MixedOperators | Code::LoneAnnotation => text,
        _ => b"",
    }
}

/// The fault that is reported for what was found, in a text that ends at `end`.
pub fn fault_of<'a>(tokens: &[Token<'a>], end: Pos, finding: Finding) -> TextFault<'a>
    ensures { fault_view result ≡ reported (map token_view tokens.now) (place_view end) (finding_view finding) }
{
    let text = text_at(
        tokens,
        Word {
            index: finding.index,
        },
    );
    TextFault {
        code: finding.code,
        place: place_at(tokens, finding.index, end),
        detail: detail_of(finding.code, text),
    }
}
