//! Types.

#![tactic(auto)]

ghost use Rattle.std.specs.Prelude.{◌≡◌, ◌∷◌, List, OnOk};
ghost use Rattle.elm_lexer.specs.Tokens.{Token};
ghost use Rattle.elm_tree.specs.Tree as tree;
ghost use Rattle.elm_tree.specs.Tree.{types_of};
ghost use Rattle.elm_tree.specs.View.{word_view};
ghost use Rattle.elm_grammar.specs.declared.action.Action.TheVariants.{AnnotationRest, ArrowsOf, BracketType};
ghost use Rattle.elm_grammar.specs.declared.action.Action.TheVariants.{EmptyRecordType, MoreFieldTypes, NamedType};
ghost use Rattle.elm_grammar.specs.declared.action.Action.TheVariants.{NamedTypeAlone, RecordTypeOf, VariableType};
ghost use Rattle.elm_grammar.specs.declared.action.Item.TheVariants as item;
ghost use Rattle.elm_grammar.specs.Values.{One, Many};
ghost use Rattle.elm_values.specs.Stack.{Acts, columns, pop, push, top};

use crate::items::{more_types, same_type};
use crate::lists::{put_in, turned};
use crate::make::{base_and_field, bracketed_type};
use crate::stack::{
    put_rest, put_type, put_types, skip_word, take_field_types, take_type, take_types, take_word,
    take_words,
};
use crate::store::Store;
use crate::value::Rest;
use elm_tree::tree::{FieldType, TypeTree, Word};
use std::alloc::{AllocError, Global};

/// `: T`
pub fn annotation(stacks: &mut Store) -> Result<(), AllocError>
    ensures { OnOk result (Acts AnnotationRest stacks.old stacks.new) }
{
    skip_word(stacks);
    let written = take_type(stacks);
    put_rest(stacks, Rest::Typed(written))
}

/// The last list of types becomes the type of a function.
fn put_arrows(alloc: Global, stacks: &mut Store) -> Result<(), AllocError>
    ensures { OnOk result ((tokens : List Token) → columns tokens stacks.new
        ≡ push (One item.TypeTree)
        (tree.FunctionType (types_of (top tokens (Many item.TypeTree) (columns tokens stacks.old))))
        (pop (Many item.TypeTree) (columns tokens stacks.old))) }
{
    let types = turned(take_types(alloc, stacks));
    put_type(stacks, TypeTree::Function(types))
}

/// The last type goes with the word in front of the last list of fields.
fn put_field_type(alloc: Global, stacks: &mut Store, name: Word) -> Result<(), AllocError>
    ensures { OnOk result ((tokens : List Token) → columns tokens stacks.new
        ≡ push (Many item.FieldType)
        ((word_view tokens name, top tokens (One item.TypeTree) (columns tokens stacks.old))
        ∷ top tokens (Many item.FieldType) (columns tokens stacks.old))
        (pop (Many item.FieldType) (pop (One item.TypeTree) (columns tokens stacks.old)))) }
{
    let field_type = take_type(stacks);
    put_in(
        alloc,
        &mut stacks.held.field_type_lists,
        FieldType { name, field_type },
    )
}

/// `T -> U -> V`
pub fn arrow_type(alloc: Global, stacks: &mut Store) -> Result<(), AllocError>
    ensures { OnOk result (Acts ArrowsOf stacks.old stacks.new) }
{
    let others = take_types(alloc, stacks);
    if others.is_empty() {
        return same_type(stacks);
    }
    put_types(stacks, others)?;
    more_types(alloc, stacks)?;
    put_arrows(alloc, stacks)
}

/// A type with its arguments.
pub fn named_type(alloc: Global, stacks: &mut Store) -> Result<(), AllocError>
    ensures { OnOk result (Acts NamedType stacks.old stacks.new) }
{
    let name = take_word(stacks);
    let arguments = turned(take_types(alloc, stacks));
    put_type(stacks, TypeTree::Named(name, arguments))
}

/// A type without arguments.
pub fn lone_type(alloc: Global, stacks: &mut Store) -> Result<(), AllocError>
    ensures { OnOk result (Acts NamedTypeAlone stacks.old stacks.new) }
{
    let name = take_word(stacks);
    put_type(stacks, TypeTree::Named(name, Vec::new(alloc)))
}

/// A type variable.
pub fn variable(stacks: &mut Store) -> Result<(), AllocError>
    ensures { OnOk result (Acts VariableType stacks.old stacks.new) }
{
    let name = take_word(stacks);
    put_type(stacks, TypeTree::Variable(name))
}

/// Types in parentheses.
pub fn brackets(alloc: Global, stacks: &mut Store) -> Result<(), AllocError>
    ensures { OnOk result (Acts BracketType stacks.old stacks.new) }
{
    skip_word(stacks);
    let types = take_types(alloc, stacks);
    put_type(stacks, bracketed_type(types))
}

/// `{}`
pub fn empty_record(alloc: Global, stacks: &mut Store) -> Result<(), AllocError>
    ensures { OnOk result (Acts EmptyRecordType stacks.old stacks.new) }
{
    skip_word(stacks);
    put_type(stacks, TypeTree::Record(None, Vec::new(alloc)))
}

/// The type of a record.
pub fn record_type(alloc: Global, stacks: &mut Store) -> Result<(), AllocError>
    ensures { OnOk result (Acts RecordTypeOf stacks.old stacks.new) }
{
    let word = take_word(stacks);
    let (base, field) = base_and_field(word, take_words(alloc, stacks));
    skip_word(stacks);
    put_field_type(alloc, stacks, field)?;
    let fields = turned(take_field_types(alloc, stacks));
    put_type(stacks, TypeTree::Record(base, fields))
}

/// One field more.
pub fn more_fields(alloc: Global, stacks: &mut Store) -> Result<(), AllocError>
    ensures { OnOk result (Acts MoreFieldTypes stacks.old stacks.new) }
{
    skip_word(stacks);
    let name = take_word(stacks);
    skip_word(stacks);
    put_field_type(alloc, stacks, name)
}
