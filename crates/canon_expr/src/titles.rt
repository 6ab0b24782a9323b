//! What a definition by a name means.

ghost use Rattle.std.specs.Prelude.{◌≡◌, option_map, IfOk};
ghost use Rattle.elm_tree.specs.View as tree_view;
ghost use Rattle.elm_tree.specs.View.{word_view};
ghost use Rattle.elm_tree.specs.Turns.{tokens_view};
ghost use Rattle.elm_canon.specs.declared.reference.Ref.TheVariants.{Local};
ghost use Rattle.elm_canon.specs.View.{annotation_view, expr_view, patterns_view};
ghost use Rattle.canon_env.specs.Imports.{name_of};
ghost use Rattle.canon_expr.specs.Binding.{is_function};
ghost use Rattle.canon_expr.specs.Blocks as spec;
ghost use Rattle.canon_expr.specs.Kept.{made_view};

use crate::bound_words::is_function;
use crate::boxes::defined_by;
use crate::made::Made;
use canon_env::finding::place_at;
use elm_canon::reference::Ref;
use elm_canon::tree::{Annotation, Expr, Pattern, Title};
use elm_lexer::token::Token;
use elm_tree::tree;
use elm_tree::tree::Word;
use std::alloc::{AllocError, Global};

/// What the definition of the name `name` means, which is written as the word `word`: a function by its parameters
/// `written` or its body `body`, or else a constant. `parameters` is what the parameters mean, `value` what the body
/// means, and `before` the annotation that stands before it. The definition is of the text of the tokens `tokens`.
pub fn made_named(
    tokens: &[Token<'_>],
    name: Ref,
    word: Word,
    before: Option<Annotation>,
    written: &[tree::Pattern],
    parameters: Vec<Pattern>,
    body: &tree::Expr,
    value: Box<Expr>,
) -> Made
    ensures { made_view result ≡ spec.made_of
        (is_function (tree_view.patterns_view (tokens_view tokens.now) written.now)
        (tree_view.expr_view (tokens_view tokens.now) body.now))
        (spec.title_of name (word_view (tokens_view tokens.now) word).place (option_map annotation_view before))
        (patterns_view parameters.items) (expr_view value.value) }
{
    let title = Title {
        name,
        place: place_at(tokens, word),
        annotation: before,
    };
    if is_function(written, body) {
        Made::Function(title, parameters, value)
    } else {
        Made::Constant(title, value)
    }
}

/// What the definition of the local name `name` means, otherwise as `made_named`. The error means that memory ran out.
pub fn made_of(
    alloc: Global,
    tokens: &[Token<'_>],
    name: Word,
    before: Option<Annotation>,
    written: &[tree::Pattern],
    parameters: Vec<Pattern>,
    body: &tree::Expr,
    value: Expr,
) -> Result<Made, AllocError>
    ensures { IfOk result (λ m. made_view m ≡ spec.made_of
        (is_function (tree_view.patterns_view (tokens_view tokens.now) written.now)
        (tree_view.expr_view (tokens_view tokens.now) body.now))
        (spec.title_of (Local (name_of (word_view (tokens_view tokens.now) name)))
        (word_view (tokens_view tokens.now) name).place (option_map annotation_view before))
        (patterns_view parameters.items) (expr_view value)) }
{
    let value = Box::new(alloc, value)?;
    let mut before = before;
    defined_by(
        alloc,
        tokens,
        name,
        &mut before,
        written,
        parameters,
        body,
        value,
    )
}
