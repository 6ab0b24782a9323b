//! What a written type means.

ghost use Rattle.std.specs.Prelude.{◌≡◌, ◌++◌, map, flat_map, option_map, IfOk, OnOk, IsOkAnd};
ghost use Rattle.elm_base.specs.declared.fault.Code.TheVariants.{DuplicateField};
ghost use Rattle.elm_tree.specs.View as tree;
ghost use Rattle.elm_tree.specs.Turns.{tokens_view};
ghost use Rattle.elm_canon.specs.View.{annotation_view, field_type_view, types_view};
ghost use Rattle.elm_canon.specs.declared.tree.Annotation.TheVariants as form;
ghost use Rattle.canon_env.specs.Imports.{name_of};
ghost use Rattle.canon_env.specs.Naming as naming;
ghost use Rattle.canon_env.specs.Naming.{IsWorld};
ghost use Rattle.canon_env.specs.Types.{function_of, type_of, type_sites};
ghost use Rattle.canon_env.specs.Sites.{faults_at, at_word, repeats};
ghost use Rattle.canon_type.specs.Walking.{faults_in, field_faults, named_of, field_name};

use crate::forming::{add_field, tuple_type};
use crate::named::{blank, named};
use crate::outcomes::add_made;
use canon_env::env::World;
use canon_env::finding::Finding;
use canon_env::import::word_name;
use canon_env::repeats::push_repeats;
use elm_base::fault::Code;
use elm_canon::tree::{Annotation, FieldType};
use elm_lexer::token::Token;
use elm_tree::tree;
use elm_tree::tree::{TypeTree, Word};
use std::alloc::{AllocError, Global};

/// The words of the names of fields.
fn field_words(alloc: Global, fields: &[tree::FieldType]) -> Result<Vec<Word>, AllocError>
    ensures { IfOk result (λ v. v.items ≡ map field_name fields.now) }
{
    let mut words = Vec::with_capacity(alloc, fields.len())?;
    for field in fields {
        words.push(field.name)?;
    }
    Ok(words)
}

/// A variable.
fn variable(alloc: Global, tokens: &[Token<'_>], word: Word) -> Result<Annotation, AllocError>
    ensures { IfOk result (λ t. t ≡ form.Variable (name_of (tree.word_view (tokens_view tokens.now) word))) }
{
    let name = word_name(alloc, tokens, word)?;
    Ok(Annotation::Variable(name))
}

/// A function of these types. Of no types, which no text has, it has no meaning.
fn function_of(alloc: Global, types: Vec<Annotation>) -> Result<Annotation, AllocError>
    ensures { IfOk result (λ t. annotation_view t ≡ function_of (types_view types.items)) }
{
    if types.len() == 0 {
        return blank(alloc);
    }
    Ok(Annotation::Function(types))
}

/// A function with these parameters and the result after them, if they are made.
fn function(
    alloc: Global,
    types: Result<Vec<Annotation>, AllocError>,
) -> Result<Annotation, AllocError>
    ensures { IfOk result (λ t. IsOkAnd types (λ v. annotation_view t ≡ function_of (types_view v.items))) }
{
    match types {
        Ok(types) => function_of(alloc, types),
        Err(e) => Err(e),
    }
}

/// Adds the faults of fields whose names stand twice among these.
fn push_field_repeats(
    alloc: Global,
    tokens: &[Token<'_>],
    fields: &[tree::FieldType],
    findings: &mut Vec<Finding>,
) -> Result<(), AllocError>
    ensures { OnOk result (findings.new.items ≡ findings.old.items ++ map (at_word DuplicateField)
        (repeats (map (tree.word_view (tokens_view tokens.now)) (map field_name fields.now)))) }
{
    let words = field_words(alloc, fields)?;
    push_repeats(alloc, tokens, Code::DuplicateField, &words, findings)
}

/// A record over this base.
fn record_over(
    alloc: Global,
    tokens: &[Token<'_>],
    base: Option<Word>,
    types: Vec<FieldType>,
) -> Result<Annotation, AllocError>
    ensures { IfOk result (λ t. t ≡ form.Record
        (option_map (λ a. name_of (tree.word_view (tokens_view tokens.now) a)) base) types) }
{
    match base {
        None => Ok(Annotation::Record(None, types)),
        Some(a) => {
            let name = word_name(alloc, tokens, a)?;
            Ok(Annotation::Record(Some(name), types))
        }
    }
}

/// A record with fields that are written so, by their types. Their names that stand twice are added to the faults.
fn record(
    alloc: Global,
    tokens: &[Token<'_>],
    base: Option<Word>,
    fields: &[tree::FieldType],
    types: Vec<FieldType>,
    findings: &mut Vec<Finding>,
) -> Result<Annotation, AllocError>
    ensures meaning { IfOk result (λ t. t ≡ form.Record
        (option_map (λ a. name_of (tree.word_view (tokens_view tokens.now) a)) base) types) }
    ensures faults { OnOk result (findings.new.items ≡ findings.old.items ++ map (at_word DuplicateField)
        (repeats (map (tree.word_view (tokens_view tokens.now)) (map field_name fields.now)))) }
{
    push_field_repeats(alloc, tokens, fields, findings)?;
    record_over(alloc, tokens, base, types)
}

/// What the type `written` means, which is of the text of the tokens `tokens`, with its aliases expanded. Its faults
/// are added to `findings`, in the order of their sites. What has no meaning is a variable that no one can write. The
/// error means that memory ran out.
#[cycle(annotation)]
pub fn annotation(
    alloc: Global,
    tokens: &[Token<'_>],
    world: &World,
    written: &TypeTree,
    findings: &mut Vec<Finding>,
) -> Result<Annotation, AllocError>
    ensures meaning { IfOk result (λ t. (w : naming.World) → IsWorld world.now w → annotation_view t
        ≡ type_of w (tree.type_view (tokens_view tokens.now) written.now)) }
    ensures faults { OnOk result ((w : naming.World) → IsWorld world.now w → findings.new.items ≡ findings.old.items
        ++ flat_map (faults_at w) (type_sites w (tree.type_view (tokens_view tokens.now) written.now))) }
{
    match written {
        TypeTree::Variable(a) => variable(alloc, tokens, *a),
        TypeTree::Named(name, types) => {
            let arguments = annotations(alloc, tokens, world, types, findings)?;
            named(alloc, tokens, world, *name, arguments, findings)
        }
        TypeTree::Function(types) => {
            function(alloc, annotations(alloc, tokens, world, types, findings))
        }
        TypeTree::Tuple(types) => tuple_type(annotations(alloc, tokens, world, types, findings)),
        TypeTree::Record(base, fields) => {
            let types = field_annotations(alloc, tokens, world, fields, findings)?;
            record(alloc, tokens, *base, fields, types, findings)
        }
    }
}

/// What the types `written` mean, in turn, which are of the text of the tokens `tokens`. Their faults are added to
/// `findings`, in the order of their sites. The error means that memory ran out.
#[cycle(annotation)]
pub fn annotations(
    alloc: Global,
    tokens: &[Token<'_>],
    world: &World,
    written: &[TypeTree],
    findings: &mut Vec<Finding>,
) -> Result<Vec<Annotation>, AllocError>
    ensures types { IfOk result (λ v. (w : naming.World) → IsWorld world.now w → map annotation_view v.items
        ≡ map (type_of w) (map (tree.type_view (tokens_view tokens.now)) written.now)) }
    ensures faults { OnOk result ((w : naming.World) → IsWorld world.now w → findings.new.items ≡ findings.old.items
        ++ flat_map (faults_in w) (map (tree.type_view (tokens_view tokens.now)) written.now)) }
{
    let mut types = Vec::with_capacity(alloc, written.len())?;
    for one in written {
        let made = annotation(alloc, tokens, world, one, findings);
        add_made(&mut types, made)?;
    }
    Ok(types)
}

/// The fields whose types are written so, in turn.
#[cycle(annotation)]
fn field_annotations(
    alloc: Global,
    tokens: &[Token<'_>],
    world: &World,
    written: &[tree::FieldType],
    findings: &mut Vec<Finding>,
) -> Result<Vec<FieldType>, AllocError>
    ensures types { IfOk result (λ v. (w : naming.World) → IsWorld world.now w → map field_type_view v.items
        ≡ map (named_of w) (map (tree.field_type_view (tokens_view tokens.now)) written.now)) }
    ensures faults { OnOk result ((w : naming.World) → IsWorld world.now w → findings.new.items ≡ findings.old.items
        ++ flat_map (field_faults w) (map (tree.field_type_view (tokens_view tokens.now)) written.now)) }
{
    let mut types = Vec::with_capacity(alloc, written.len())?;
    for field in written {
        let name = word_name(alloc, tokens, field.name)?;
        let made = annotation(alloc, tokens, world, &field.field_type, findings);
        add_field(&mut types, name, made)?;
    }
    Ok(types)
}
