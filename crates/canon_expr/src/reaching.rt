//! Definitions that reach themselves by uses.

ghost use Rattle.std.specs.Prelude.{◌≡◌, ◌<◌, ◌∷◌, [], ◌||◌, ◌&&◌, ℕ, List, length, map, slice_index_or, false, IfOk, OnOk};
ghost use Rattle.decl_groups.specs.InOrder.{is_in};
ghost use Rattle.decl_groups.specs.View.{is_marked};
ghost use Rattle.elm_tree.specs.Tree as tree;
ghost use Rattle.elm_tree.specs.View.{definition_view, words_view};
ghost use Rattle.elm_tree.specs.Turns.{tokens_view};
ghost use Rattle.canon_env.specs.Naming as naming;
ghost use Rattle.canon_env.specs.Sites.{Reaching};
ghost use Rattle.canon_expr.specs.Logs.{Grows};
ghost use Rattle.canon_expr.specs.Binding.{defined_by, defined_in, first_text};
ghost use Rattle.canon_expr.specs.Blocks.{reaching_sites};
ghost use Rattle.canon_expr.specs.Kept.{IsOrderOf};

use crate::bound_words::{first_word, is_function};
use crate::items::put;
use crate::log::Log;
use crate::order::Order;
use crate::words::words_of;
use canon_env::finding::{Finding, place_at};
use decl_groups::Group;
use elm_base::fault::Code;
use elm_base::text::Text;
use elm_lexer::token::Token;
use elm_tree::tree::{Definition, Word};
use elm_tree::turns::text_at;
use std::alloc::{AllocError, Global};

/// Marks the definitions at these places.
fn mark_each(marks: &mut Vec<bool>, members: &[u32])
    ensures count { length marks.new.items ≡ length marks.old.items }
    ensures marks { (i : ℕ) → i < length marks.old.items → slice_index_or marks.new.items i false
        ≡ (slice_index_or marks.old.items i false || is_in i members.now) }
{
    for member in members {
        let at = *member as usize;
        if at < marks.len() {
            marks[at] = true;
        }
    }
}

/// Marks the definitions of a group, if they use themselves.
fn mark_group(marks: &mut Vec<bool>, group: &Group)
    ensures count { length marks.new.items ≡ length marks.old.items }
    ensures marks { (i : ℕ) → i < length marks.old.items → slice_index_or marks.new.items i false
        ≡ (slice_index_or marks.old.items i false || (group.now.is_recursive && is_in i group.now.members.items)) }
{
    if group.is_recursive {
        mark_each(marks, &group.members);
    }
}

/// Of the first `count` definitions, which stand in a group whose definitions use themselves. `order` is their order. The
/// error means that memory ran out.
pub fn marks_in(alloc: Global, order: &Order, count: usize) -> Result<Vec<bool>, AllocError>
    ensures count { IfOk result (λ v. length v.items ≡ count) }
    ensures marks { IfOk result (λ v. (i : ℕ) → i < count
        → slice_index_or v.items i false ≡ is_marked order.now.groups.items i) }
{
    let mut marks = vec![in alloc; false; count]?;
    for group in &order.groups {
        mark_group(&mut marks, group);
    }
    Ok(marks)
}

/// The text of the first word, if there is one.
fn first_text<'a>(tokens: &[Token<'a>], words: &[Word]) -> &'a [u8]
    ensures { result.now ≡ first_text (words_view (tokens_view tokens.now) words.now) }
{
    match words {
        [first, ..] => text_at(tokens, *first),
        [] => b"",
    }
}

/// Notes the definition `definition` if it reaches itself, as `reaches` says, and is not a function. It is of the text of
/// the tokens `tokens`. The error means that memory ran out.
pub fn note_recursion(
    alloc: Global,
    tokens: &[Token<'_>],
    log: &mut Log,
    definition: &Definition,
    reaches: bool,
) -> Result<(), AllocError>
    ensures { OnOk result ((w : naming.World) → Grows w log.old log.new
        (Reaching reaches (defined_by (definition_view (tokens_view tokens.now) definition.now)) ∷ [])) }
{
    if !reaches {
        return Ok(());
    }
    match definition {
        Definition::Annotate(_, _) => Ok(()),
        Definition::Define(name, parameters, body) => {
            if is_function(parameters, body) {
                return Ok(());
            }
            log.note_word(alloc, tokens, Code::RecursiveValue, *name)
        }
        Definition::Destructure(pattern, _) => {
            let words = words_of(alloc, tokens, pattern)?;
            let finding = Finding {
                code: Code::RecursiveValue,
                place: place_at(tokens, first_word(pattern)),
                detail: Text::copy(alloc, first_text(tokens, &words))?,
            };
            put(&mut log.findings, finding)?;
            Ok(())
        }
    }
}

/// Notes each of the definitions `definitions` of a block that reaches itself by uses and is not a function. `order` is
/// their order, and `tokens` has the tokens of their text. The error means that memory ran out.
pub fn note_reaching(
    alloc: Global,
    tokens: &[Token<'_>],
    log: &mut Log,
    order: &Order,
    definitions: &[Definition],
) -> Result<(), AllocError>
    ensures { OnOk result ((w : naming.World) (uses : List (List ℕ)) → IsOrderOf order.now uses
        → length uses ≡ length definitions.now → Grows w log.old log.new (reaching_sites uses (defined_in
        (tree.definitions_of (map (definition_view (tokens_view tokens.now)) definitions.now))))) }
{
    let marks = marks_in(alloc, order, definitions.len())?;
    for (number, definition) in definitions.iter().enumerate() {
        note_recursion(alloc, tokens, log, definition, marks[number])?;
    }
    Ok(())
}
