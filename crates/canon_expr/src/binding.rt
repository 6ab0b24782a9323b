//! Names that come into scope with what binds them.

ghost use Rattle.std.specs.Prelude.{◌≡◌, Some, map, option_map, IfOk, OnOk};
ghost use Rattle.elm_tree.specs.Tree as tree;
ghost use Rattle.elm_tree.specs.View as tree_view;
ghost use Rattle.elm_tree.specs.Turns.{tokens_view};
ghost use Rattle.elm_canon.specs.View.{pattern_view, patterns_view, annotation_view};
ghost use Rattle.canon_env.specs.Naming as naming;
ghost use Rattle.canon_env.specs.Naming.{IsWorld};
ghost use Rattle.canon_env.specs.Locals.{with_names};
ghost use Rattle.canon_env.specs.Patterns as spec;
ghost use Rattle.canon_env.specs.Types.{type_of, type_sites};
ghost use Rattle.canon_expr.specs.Scope.{locals_of, without};
ghost use Rattle.canon_expr.specs.Logs.{Grows};
ghost use Rattle.canon_expr.specs.Literals.{AreLiterals};
ghost use Rattle.canon_expr.specs.Binding.{bound_in};

use crate::bindings::note_bindings;
use crate::bound_words::bound_in;
use crate::items::set;
use crate::log::Log;
use crate::pattern::{pattern, patterns};
use crate::scope::{Entered, Scope};
use crate::words::{words_of, words_of_all};
use canon_env::env::World;
use canon_type::annotation::annotation;
use elm_canon::tree::{Annotation, Pattern};
use elm_lexer::token::Token;
use elm_tree::tree;
use elm_tree::tree::{Definition, TypeTree, Word};
use std::alloc::{AllocError, Global};

/// What a pattern means, and the words of the names that it binds.
#[derive(Drop)]
pub(crate) struct BoundPattern {
    pub(crate) pattern: Box<Pattern>,
    pub(crate) words: Vec<Word>,
}

/// What the patterns of one list mean, and the words of the names that they bind.
#[derive(Drop)]
pub(crate) struct Parameters {
    pub(crate) patterns: Vec<Pattern>,
    pub(crate) words: Vec<Word>,
}

/// What a pattern means, in a box. The faults in it are noted.
pub(crate) fn boxed_pattern(
    alloc: Global,
    tokens: &[Token<'_>],
    world: &World,
    log: &mut Log,
    written: &tree::Pattern,
) -> Result<Box<Pattern>, AllocError>
    requires { AreLiterals (tokens_view tokens.now) }
    ensures meaning { IfOk result (λ p. (w : naming.World) → IsWorld world.now w → pattern_view p.value
        ≡ spec.pattern_of w (tree_view.pattern_view (tokens_view tokens.now) written.now)) }
    ensures log { OnOk result ((w : naming.World) → IsWorld world.now w → Grows w log.old log.new
        (spec.match_sites (tree_view.pattern_view (tokens_view tokens.now) written.now))) }
{
    Ok(Box::new(alloc, pattern(alloc, tokens, world, log, written)?)?)
}

/// What a pattern means. The faults in it are noted, and those of the names that it binds.
pub(crate) fn bind_pattern(
    alloc: Global,
    tokens: &[Token<'_>],
    world: &World,
    scope: &Scope,
    log: &mut Log,
    written: &tree::Pattern,
) -> Result<BoundPattern, AllocError>
    requires { AreLiterals (tokens_view tokens.now) }
    ensures meaning { IfOk result (λ b. (w : naming.World) → IsWorld world.now w → pattern_view b.pattern.value
        ≡ spec.pattern_of w (tree_view.pattern_view (tokens_view tokens.now) written.now)) }
    ensures words { IfOk result (λ b. tree_view.words_view (tokens_view tokens.now) b.words.items
        ≡ spec.words_of (tree_view.pattern_view (tokens_view tokens.now) written.now)) }
    ensures log { OnOk result ((w : naming.World) → IsWorld world.now w → Grows w log.old log.new
        (spec.pattern_sites (locals_of scope.now)
        (tree_view.pattern_view (tokens_view tokens.now) written.now))) }
{
    let words = words_of(alloc, tokens, written)?;
    let pattern = boxed_pattern(alloc, tokens, world, log, written)?;
    note_bindings(alloc, tokens, world, scope, log, &words)?;
    Ok(BoundPattern { pattern, words })
}

/// What the patterns of one list mean. The faults in them are noted, and those of the names that they bind.
pub(crate) fn bind_parameters(
    alloc: Global,
    tokens: &[Token<'_>],
    world: &World,
    scope: &Scope,
    log: &mut Log,
    written: &[tree::Pattern],
) -> Result<Parameters, AllocError>
    requires { AreLiterals (tokens_view tokens.now) }
    ensures meaning { IfOk result (λ b. (w : naming.World) → IsWorld world.now w → patterns_view b.patterns.items
        ≡ spec.patterns_of w (tree_view.patterns_view (tokens_view tokens.now) written.now)) }
    ensures words { IfOk result (λ b. tree_view.words_view (tokens_view tokens.now) b.words.items
        ≡ spec.words_of_all (tree_view.patterns_view (tokens_view tokens.now) written.now)) }
    ensures log { OnOk result ((w : naming.World) → IsWorld world.now w → Grows w log.old log.new
        (spec.list_sites (locals_of scope.now)
        (tree_view.patterns_view (tokens_view tokens.now) written.now))) }
{
    let words = words_of_all(alloc, tokens, written)?;
    let patterns = patterns(alloc, tokens, world, log, written)?;
    note_bindings(alloc, tokens, world, scope, log, &words)?;
    Ok(Parameters { patterns, words })
}

/// Brings the names into scope that definitions bind. The faults of these names are noted. The result is for `leave`.
pub(crate) fn enter_block(
    alloc: Global,
    tokens: &[Token<'_>],
    world: &World,
    scope: &mut Scope,
    log: &mut Log,
    definitions: &[Definition],
) -> Result<Vec<Entered>, AllocError>
    ensures names { OnOk result (locals_of scope.new ≡ with_names (bound_in
        (tree.definitions_of (map (tree_view.definition_view (tokens_view tokens.now)) definitions.now)))
        (locals_of scope.old)) }
    ensures entered { IfOk result (λ es. without es.items (locals_of scope.new) ≡ locals_of scope.old) }
    ensures log { OnOk result ((w : naming.World) → IsWorld world.now w → Grows w log.old log.new
        (spec.binding_sites (locals_of scope.old) (bound_in
        (tree.definitions_of (map (tree_view.definition_view (tokens_view tokens.now)) definitions.now))))) }
{
    let words = bound_in(alloc, tokens, definitions)?;
    note_bindings(alloc, tokens, world, scope, log, &words)?;
    scope.enter(alloc, tokens, &words)
}

/// Keeps what a written type means as the annotation `before`. The faults in it are noted.
pub(crate) fn annotate(
    alloc: Global,
    tokens: &[Token<'_>],
    world: &World,
    log: &mut Log,
    written: &TypeTree,
    before: &mut Option<Annotation>,
) -> Result<(), AllocError>
    ensures meaning { OnOk result ((w : naming.World) → IsWorld world.now w → option_map annotation_view before.new
        ≡ Some (type_of w (tree_view.type_view (tokens_view tokens.now) written.now))) }
    ensures log { OnOk result ((w : naming.World) → IsWorld world.now w → Grows w log.old log.new
        (type_sites w (tree_view.type_view (tokens_view tokens.now) written.now))) }
{
    let meant = annotation(alloc, tokens, world, written, &mut log.findings)?;
    set(before, Some(meant));
    Ok(())
}
