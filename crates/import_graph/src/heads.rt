//! The imports of a module, which its head tells.

ghost use Rattle.std.specs.Prelude.{◌≡◌, ◌<◌, ◌^◌, [], List, length, map, IfOk};
ghost use Rattle.elm_lexer.specs.View.{token_view};
ghost use Rattle.elm_tree.specs.View as tree;
ghost use Rattle.import_graph.specs.Heads.{HeadImports, HasImports, IsFault, word_of};
ghost use Rattle.import_graph.specs.Modules.{Word as PlainWord};
ghost use Rattle.import_graph.specs.Words.{word_view};

use crate::module_heads_laws::imports_law;
use crate::{Reader, Written};
use elm_base::position::Pos;
use elm_base::text::Text;
use elm_lexer::{TextError, Token, tokens};
use elm_parser::head;
use elm_parser::laws::front_law;
use elm_tree::tree::{Import, Word};
use elm_tree::turns::text_at;
use std::alloc::{AllocError, Global};

/// The most bytes that the text of a module may have.
const MAX_TEXT: usize = 4_194_304;

/// Reads the imports of texts by their heads, which are Elm's.
#[derive(Clone, Copy, Debug)]
pub struct Heads;

impl Reader for Heads {
    ghost use Rattle.import_graph.specs.Heads.{HasImports};

    ghost has_imports = { HasImports };

    fn imports(&self, alloc: Global, text: &[u8]) -> Result<Vec<Written>, AllocError> {
        imports(alloc, text)
    }
}

/// The imports in the head of a module's text, in written order. There are none where the text has a fault before the
/// end of its head, where it has no list of tokens, and where it has more than 4,194,304 bytes.
///
/// `text` is the bytes of the module's file. The error means that memory ran out.
pub fn imports(alloc: Global, text: &[u8]) -> Result<Vec<Written>, AllocError>
    ensures found { IfOk result (λ v. HasImports text.now (map word_view v.items)) }
    ensures only { IfOk result (λ v. (words : List PlainWord) → HasImports text.now words
        → words ≡ map word_view v.items) }
{
    imports_law();
    if text.len() > MAX_TEXT {
        return Ok(Vec::new(alloc));
    }
    match tokens(alloc, text) {
        Ok(found) => head_imports(alloc, &found),
        Err(error) => none_unless(alloc, error),
    }
}

/// No imports, unless memory ran out.
fn none_unless(alloc: Global, error: TextError<'_>) -> Result<Vec<Written>, AllocError>
    ensures none { IfOk result (λ v. v.items ≡ []) }
    ensures fault { IfOk result (λ _. IsFault error.entry) }
{
    match error {
        TextError::NoMemory => Err(AllocError),
        TextError::Fault(_) => Ok(Vec::new(alloc)),
    }
}

/// The imports in the head that the tokens begin with.
fn head_imports(alloc: Global, tokens: &[Token<'_>]) -> Result<Vec<Written>, AllocError>
    requires few { length tokens.now < 2 ^ 32 }
    ensures { IfOk result (λ v. HeadImports (map token_view tokens.now) (map word_view v.items)) }
{
    front_law();
    // No fault is told, so it may stand anywhere.
    let end = Pos { row: 1, column: 1 };
    match head(alloc, tokens, end) {
        Ok((found, _)) => named(alloc, tokens, &found.imports),
        Err(error) => none_unless(alloc, error),
    }
}

/// The names of imports, and where they begin.
fn named(
    alloc: Global,
    tokens: &[Token<'_>],
    imports: &[Import],
) -> Result<Vec<Written>, AllocError>
    ensures { IfOk result (λ v. map word_view v.items
        ≡ map (λ i. word_of (tree.word_view (map token_view tokens.now) i.name)) imports.now) }
{
    let mut names = Vec::with_capacity(alloc, imports.len())?;
    for import in imports {
        names.push(Written {
            name: Text::copy(alloc, text_at(tokens, import.name))?,
            place: place_at(tokens, import.name),
        })?;
    }
    Ok(names)
}

/// Where a word begins.
fn place_at(tokens: &[Token<'_>], word: Word) -> Pos
    ensures { result ≡ (tree.word_view (map token_view tokens.now) word).place }
{
    match tokens.get(word.index as usize) {
        Some(token) => token.start,
        None => Pos { row: 1, column: 1 },
    }
}
