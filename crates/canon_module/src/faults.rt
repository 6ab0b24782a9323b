//! The faults of the names that a module declares and exposes.

ghost use Rattle.std.specs.Prelude.{◌≡◌, ◌++◌, List, map, flat_map, option_map, OnOk};
ghost use Rattle.elm_lexer.specs.Tokens as lexed;
ghost use Rattle.elm_tree.specs.View as tree_view;
ghost use Rattle.elm_tree.specs.Turns.{tokens_view};
ghost use Rattle.canon_env.specs.Sites.{at_word};
ghost use Rattle.canon_module.specs.Faults.{duplicate_faults, export_fault, export_faults, name_faults, may_have_ports};
ghost use Rattle.canon_module.specs.View.{names_view};

use crate::exports::Declared;
use crate::names::Names;
use canon_env::finding::{Finding, push_finding};
use canon_env::repeats::push_repeats;
use elm_base::fault::Code;
use elm_base::names::Name;
use elm_lexer::token::Token;
use elm_tree::tree::{Exposed, Exposing, Header, Word};
use std::alloc::{AllocError, Global};

/// Adds the faults of names that are declared twice.
fn push_duplicates(
    alloc: Global,
    tokens: &[Token<'_>],
    names: &Names,
    findings: &mut Vec<Finding>,
) -> Result<(), AllocError>
    ensures { OnOk result (findings.new.items ≡ findings.old.items
        ++ duplicate_faults (names_view (tokens_view tokens.now) names.now)) }
{
    push_repeats(alloc, tokens, Code::DuplicateName, &names.values, findings)?;
    push_repeats(alloc, tokens, Code::DuplicateName, &names.types, findings)?;
    push_repeats(
        alloc,
        tokens,
        Code::DuplicateName,
        &names.constructors,
        findings,
    )
}

/// Adds a fault of one kind for each of the words.
fn push_each(
    alloc: Global,
    tokens: &[Token<'_>],
    code: Code,
    words: &[Word],
    findings: &mut Vec<Finding>,
) -> Result<(), AllocError>
    ensures { OnOk result (findings.new.items ≡ findings.old.items
        ++ map (at_word code) (tree_view.words_view (tokens_view tokens.now) words.now)) }
{
    for word in words {
        push_finding(alloc, tokens, code, *word, findings)?;
    }
    Ok(())
}

/// Adds the faults of these entries of a header.
fn push_entries(
    alloc: Global,
    tokens: &[Token<'_>],
    given: &[Name],
    names: &Names,
    entries: &[Exposed],
    findings: &mut Vec<Finding>,
) -> Result<(), AllocError>
    ensures { OnOk result (findings.new.items ≡ findings.old.items
        ++ flat_map (export_fault given.now (names_view (tokens_view tokens.now) names.now))
        (map (tree_view.exposed_view (tokens_view tokens.now)) entries.now)) }
{
    let declared = Declared::of(alloc, tokens, given, names)?;
    declared.push_faults(alloc, tokens, entries, findings)
}

/// Adds the faults of what a header exposes.
fn push_exports(
    alloc: Global,
    tokens: &[Token<'_>],
    given: &[Name],
    names: &Names,
    header: &Option<Header>,
    findings: &mut Vec<Finding>,
) -> Result<(), AllocError>
    ensures { OnOk result (findings.new.items ≡ findings.old.items
        ++ export_faults given.now (names_view (tokens_view tokens.now) names.now)
        (option_map (tree_view.header_view (tokens_view tokens.now)) header.now)) }
{
    match header {
        Some(header) => match &header.exposes {
            Exposing::These(entries) => {
                push_entries(alloc, tokens, given, names, entries, findings)
            }
            Exposing::Everything => Ok(()),
        },
        None => Ok(()),
    }
}

/// Whether a module with this header may have ports.
fn may_have_ports(header: &Option<Header>) -> bool
    ensures { (tokens : List lexed.Token) → result
        ≡ may_have_ports (option_map (tree_view.header_view tokens) header.now) }
{
    match header {
        Some(header) => header.has_ports,
        None => false,
    }
}

/// Adds the faults of the names that a module declares and that its header exposes: a name that is declared twice, one
/// that is exposed and not declared, a port in a module that may have none. `names` are the names that its declarations
/// declare, by the text of the tokens `tokens`, and `given` those of the types that it has without a text. The error
/// means that memory ran out.
pub fn push_name_faults(
    alloc: Global,
    tokens: &[Token<'_>],
    given: &[Name],
    names: &Names,
    header: &Option<Header>,
    findings: &mut Vec<Finding>,
) -> Result<(), AllocError>
    ensures { OnOk result (findings.new.items ≡ findings.old.items
        ++ name_faults given.now (names_view (tokens_view tokens.now) names.now)
        (option_map (tree_view.header_view (tokens_view tokens.now)) header.now)) }
{
    push_duplicates(alloc, tokens, names, findings)?;
    push_exports(alloc, tokens, given, names, header, findings)?;
    if !may_have_ports(header) {
        push_each(
            alloc,
            tokens,
            Code::PortInPlainModule,
            &names.ports,
            findings,
        )?;
    }
    Ok(())
}
