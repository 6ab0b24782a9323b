//! The faults of the parameters of declared types.

ghost use Rattle.std.specs.Prelude.{◌≡◌, [], ◌∷◌, ◌++◌, List, false, map, flat_map, IfOk, OnOk};
ghost use Rattle.indexmap.specs.IndexSet.{contains};
ghost use Rattle.elm_lexer.specs.Tokens as lexed;
ghost use Rattle.elm_tree.specs.Tree as plain;
ghost use Rattle.elm_tree.specs.View as tree;
ghost use Rattle.elm_tree.specs.View.{word_view, words_view, declaration_view, constructor_view};
ghost use Rattle.elm_tree.specs.Turns.{tokens_view};
ghost use Rattle.elm_canon.specs.Names.{Name, same_name};
ghost use Rattle.canon_env.specs.Exposing.{is_among};
ghost use Rattle.canon_env.specs.Imports.{name_of};
ghost use Rattle.canon_type.specs.Written.{variables_in};
ghost use Rattle.canon_type.specs.Parameters.{missing, twice, unbound, unused, constructor_variables, parameter_faults};

use crate::outcomes::when_done;
use crate::sets::insert;
use crate::variables::{push_all, push_variables};
use canon_env::finding::{Finding, finding_at};
use canon_env::import::word_name;
use canon_env::repeats::push_repeats;
use elm_base::fault::Code;
use elm_base::names::Name;
use elm_lexer::token::Token;
use elm_tree::tree::{Constructor, Declaration, TypeTree, Word};
use indexmap::IndexSet;
use std::alloc::{AllocError, Global};

/// Adds the names that words spell.
fn insert_all(
    alloc: Global,
    tokens: &[Token<'_>],
    words: &[Word],
    names: &mut IndexSet<Name>,
) -> Result<(), AllocError>
    ensures { OnOk result (((x : Name) → contains same_name names.old x ≡ false)
        → (x : Name) → contains same_name names.new x
        ≡ is_among x (map name_of (words_view (tokens_view tokens.now) words.now))) }
{
    for word in words {
        insert(names, word_name(alloc, tokens, *word)?)?;
    }
    Ok(())
}

/// The names that words spell.
fn names_of(
    alloc: Global,
    tokens: &[Token<'_>],
    words: &[Word],
) -> Result<IndexSet<Name>, AllocError>
    ensures { IfOk result (λ s. (x : Name) → contains same_name s x
        ≡ is_among x (map name_of (words_view (tokens_view tokens.now) words.now))) }
{
    let mut names = IndexSet::new(alloc);
    let done = insert_all(alloc, tokens, words, &mut names);
    when_done(done, names)
}

/// Adds a fault of the kind `code` at a word, if its name is none of these.
fn push_missing(
    alloc: Global,
    tokens: &[Token<'_>],
    code: Code,
    word: Word,
    names: &IndexSet<Name>,
    findings: &mut Vec<Finding>,
) -> Result<(), AllocError>
    ensures { OnOk result ((among : List plain.Word)
        → ((x : Name) → contains same_name names.now x ≡ is_among x (map name_of among)) → findings.new.items
        ≡ findings.old.items ++ missing code (word_view (tokens_view tokens.now) word ∷ []) among) }
{
    let name = word_name(alloc, tokens, word)?;
    if names.contains(&name) {
        return Ok(());
    }
    findings.push(finding_at(alloc, tokens, code, word)?)?;
    Ok(())
}

/// Adds a fault of the kind `code` at each of these words whose name is none of those of `among`.
fn push_all_missing(
    alloc: Global,
    tokens: &[Token<'_>],
    code: Code,
    words: &[Word],
    among: &[Word],
    findings: &mut Vec<Finding>,
) -> Result<(), AllocError>
    ensures { OnOk result (findings.new.items ≡ findings.old.items
        ++ missing code (words_view (tokens_view tokens.now) words.now) (words_view (tokens_view tokens.now) among.now)) }
{
    let names = names_of(alloc, tokens, among)?;
    for word in words {
        push_missing(alloc, tokens, code, *word, &names, findings)?;
    }
    Ok(())
}

/// The variables in the fields of constructors.
fn variables_of(alloc: Global, constructors: &[Constructor]) -> Result<Vec<Word>, AllocError>
    ensures { IfOk result (λ v. (tokens : List lexed.Token) → words_view tokens v.items
        ≡ flat_map constructor_variables (map (constructor_view tokens) constructors.now)) }
{
    let mut words = Vec::new(alloc);
    for constructor in constructors {
        push_all(&constructor.arguments, &mut words)?;
    }
    Ok(words)
}

/// Adds the faults of the parameters of a union.
fn push_of_union(
    alloc: Global,
    tokens: &[Token<'_>],
    parameters: &[Word],
    constructors: &[Constructor],
    findings: &mut Vec<Finding>,
) -> Result<(), AllocError>
    ensures { OnOk result (findings.new.items ≡ findings.old.items
        ++ (twice (words_view (tokens_view tokens.now) parameters.now)
        ++ unbound (words_view (tokens_view tokens.now) parameters.now)
        (flat_map constructor_variables (map (constructor_view (tokens_view tokens.now)) constructors.now)))) }
{
    push_repeats(
        alloc,
        tokens,
        Code::DuplicateTypeVariable,
        parameters,
        findings,
    )?;
    let variables = variables_of(alloc, constructors)?;
    push_all_missing(
        alloc,
        tokens,
        Code::UnboundTypeVariable,
        &variables,
        parameters,
        findings,
    )
}

/// Adds the faults of the parameters of an alias.
fn push_of_alias(
    alloc: Global,
    tokens: &[Token<'_>],
    parameters: &[Word],
    body: &TypeTree,
    findings: &mut Vec<Finding>,
) -> Result<(), AllocError>
    ensures { OnOk result (findings.new.items ≡ findings.old.items
        ++ (twice (words_view (tokens_view tokens.now) parameters.now)
        ++ (unbound (words_view (tokens_view tokens.now) parameters.now)
        (variables_in (tree.type_view (tokens_view tokens.now) body.now))
        ++ unused (words_view (tokens_view tokens.now) parameters.now)
        (variables_in (tree.type_view (tokens_view tokens.now) body.now))))) }
{
    push_repeats(
        alloc,
        tokens,
        Code::DuplicateTypeVariable,
        parameters,
        findings,
    )?;
    let mut variables = Vec::new(alloc);
    push_variables(body, &mut variables)?;
    push_all_missing(
        alloc,
        tokens,
        Code::UnboundTypeVariable,
        &variables,
        parameters,
        findings,
    )?;
    push_all_missing(
        alloc,
        tokens,
        Code::UnusedTypeVariable,
        parameters,
        &variables,
        findings,
    )
}

/// Adds the faults of the parameters of one declaration.
fn push_of_one(
    alloc: Global,
    tokens: &[Token<'_>],
    declaration: &Declaration,
    findings: &mut Vec<Finding>,
) -> Result<(), AllocError>
    ensures { OnOk result (findings.new.items ≡ findings.old.items
        ++ parameter_faults (declaration_view (tokens_view tokens.now) declaration.now)) }
{
    match declaration {
        Declaration::Value(_) => Ok(()),
        Declaration::Port(_, _) => Ok(()),
        Declaration::Union(_, parameters, constructors) => {
            push_of_union(alloc, tokens, parameters, constructors, findings)
        }
        Declaration::Alias(_, parameters, body) => {
            push_of_alias(alloc, tokens, parameters, body, findings)
        }
    }
}

/// Adds the faults of the parameters of the types that the declarations `declarations` declare, which are of the text
/// of the tokens `tokens`: a parameter stands there twice, a variable is no parameter, or an alias does not use a
/// parameter. The error means that memory ran out.
pub fn push_parameter_faults(
    alloc: Global,
    tokens: &[Token<'_>],
    declarations: &[Declaration],
    findings: &mut Vec<Finding>,
) -> Result<(), AllocError>
    ensures { OnOk result (findings.new.items ≡ findings.old.items
        ++ flat_map parameter_faults (map (declaration_view (tokens_view tokens.now)) declarations.now)) }
{
    for declaration in declarations {
        push_of_one(alloc, tokens, declaration, findings)?;
    }
    Ok(())
}
