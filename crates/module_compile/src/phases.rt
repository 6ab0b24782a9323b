//! The phases of text, imports and names.

ghost use Rattle.std.specs.Prelude.{◌≡◌, ◌≤◌, [], ℕ, List, length, IfOk};
ghost use Rattle.elm_lexer.specs.View.{IfFault};
ghost use Rattle.elm_parser.specs.Parsed.{HasTextFault, IsText};
ghost use Rattle.elm_tree.specs.Turns.{tokens_view};
ghost use Rattle.module_made.specs.Around.{Around, head_faults};
ghost use Rattle.module_compile.specs.Phases.{AreClean, Tells};
ghost use Rattle.module_compile.specs.Settings.{parsed_view};
ghost use Rattle.module_compile.specs.ModulePhasesView.{around_view};

use crate::faults::{faults_of, text_faults};
use crate::imports::Imports;
use canon_expr::canon_pattern_laws::literals_law;
use canon_module::module::Resolved;
use elm_base::fault::Fault;
use elm_lexer::TextError;
use elm_parser::{Parsed, parse_text};
use std::alloc::{AllocError, Global};

/// What the phases up to names make of a text.
#[derive(Drop)]
pub enum Outcome {
    /// The module without a fault in its imports and names, and what it shows to those that import it.
    Named(Box<Resolved>),
    /// The faults of the first phase that has any.
    Bad(Vec<Fault>),
}

/// A module without a fault in its imports and names, or what it lacks of the core library.
fn whole(
    alloc: Global,
    imports: &Imports,
    path: &str,
    text: &[u8],
    resolved: Box<Resolved>,
) -> Result<Outcome, AllocError>
    requires { AreClean (around_view imports.now) text.now resolved.value }
    ensures { IfOk result (Tells (around_view imports.now) path.now text.now) }
{
    let lacks = imports.lacking(alloc, &resolved.module)?;
    if lacks.len() != 0 {
        return Ok(Outcome::Bad(faults_of(alloc, path, &lacks)?));
    }
    Ok(Outcome::Named(resolved))
}

/// What a text means that was read and whose imports have no faults, or the faults of its names.
fn named_in_place(
    alloc: Global,
    imports: &Imports,
    path: &str,
    text: &[u8],
    parsed: &Parsed<'_>,
) -> Result<Outcome, AllocError>
    requires text { IsText text.now (tokens_view parsed.now.tokens.items) (parsed_view parsed.now) }
    requires found { head_faults (around_view imports.now) (parsed_view parsed.now).head ≡ [] }
    ensures { IfOk result (Tells (around_view imports.now) path.now text.now) }
{
    literals_law();
    let resolved = imports.resolved(alloc, parsed)?;
    if resolved.faults.len() != 0 {
        return Ok(Outcome::Bad(faults_of(alloc, path, &resolved.faults)?));
    }
    whole(alloc, imports, path, text, resolved)
}

/// What a text means that was read, or the faults of its imports or of its names.
fn named_parsed(
    alloc: Global,
    imports: &Imports,
    path: &str,
    text: &[u8],
    parsed: &Parsed<'_>,
) -> Result<Outcome, AllocError>
    requires { IsText text.now (tokens_view parsed.now.tokens.items) (parsed_view parsed.now) }
    ensures { IfOk result (Tells (around_view imports.now) path.now text.now) }
{
    let found = imports.head_faults(alloc, &parsed.tokens, &parsed.module.head)?;
    if found.len() != 0 {
        return Ok(Outcome::Bad(faults_of(alloc, path, &found)?));
    }
    named_in_place(alloc, imports, path, text, parsed)
}

/// The fault of a text that was not read.
fn unread(alloc: Global, path: &str, error: TextError<'_>) -> Result<Outcome, AllocError>
    ensures { (a : Around) (text : List ℕ) → IfFault error.entry (HasTextFault text)
        → IfOk result (Tells a path.now text) }
{
    match error {
        TextError::NoMemory => Err(AllocError),
        TextError::Fault(fault) => Ok(Outcome::Bad(text_faults(alloc, path, fault)?)),
    }
}

/// What the text `text` of a module means, or all faults of the first of its phases text, imports and names that has
/// any. `imports` is what the module is compiled in, and `path` is the path of its file, with which its faults are
/// reported. The error means that memory ran out.
pub fn named(
    alloc: Global,
    imports: &Imports,
    path: &str,
    text: &[u8],
) -> Result<Outcome, AllocError>
    requires { length text.now ≤ 4194304 }
    ensures { IfOk result (Tells (around_view imports.now) path.now text.now) }
{
    match parse_text(alloc, text) {
        Ok(parsed) => named_parsed(alloc, imports, path, text, &parsed),
        Err(error) => unread(alloc, path, error),
    }
}
