//! The variables in a type.

ghost use Rattle.std.specs.Prelude.{◌≡◌, ◌++◌, List, map, flat_map, OnOk};
ghost use Rattle.elm_lexer.specs.Tokens as lexed;
ghost use Rattle.elm_tree.specs.View as tree;
ghost use Rattle.elm_tree.specs.View.{words_view};
ghost use Rattle.canon_type.specs.Written.{variables_in};
ghost use Rattle.canon_type.specs.Kept.{field_variables};

use elm_tree::tree::{FieldType, TypeTree, Word};
use std::alloc::AllocError;

/// Adds the variables in the type `written` to `words`, in written order, a record's base before its fields.
#[cycle(variables)]
pub(crate) fn push_variables(written: &TypeTree, words: &mut Vec<Word>) -> Result<(), AllocError>
    ensures { OnOk result ((tokens : List lexed.Token) → words_view tokens words.new.items
        ≡ words_view tokens words.old.items ++ variables_in (tree.type_view tokens written.now)) }
{
    match written {
        TypeTree::Variable(a) => {
            words.push(*a)?;
            Ok(())
        }
        TypeTree::Named(_, types) => push_all(types, words),
        TypeTree::Function(types) => push_all(types, words),
        TypeTree::Tuple(types) => push_all(types, words),
        TypeTree::Record(base, fields) => match base {
            None => push_in_fields(fields, words),
            Some(a) => {
                words.push(*a)?;
                push_in_fields(fields, words)
            }
        },
    }
}

/// The same of types.
#[cycle(variables)]
pub(crate) fn push_all(written: &[TypeTree], words: &mut Vec<Word>) -> Result<(), AllocError>
    ensures { OnOk result ((tokens : List lexed.Token) → words_view tokens words.new.items
        ≡ words_view tokens words.old.items ++ flat_map variables_in (map (tree.type_view tokens) written.now)) }
{
    for one in written {
        push_variables(one, words)?;
    }
    Ok(())
}

/// The same in the types of fields.
#[cycle(variables)]
fn push_in_fields(written: &[FieldType], words: &mut Vec<Word>) -> Result<(), AllocError>
    ensures { OnOk result ((tokens : List lexed.Token) → words_view tokens words.new.items
        ≡ words_view tokens words.old.items ++ flat_map field_variables (map (tree.field_type_view tokens) written.now)) }
{
    for field in written {
        push_variables(&field.field_type, words)?;
    }
    Ok(())
}
