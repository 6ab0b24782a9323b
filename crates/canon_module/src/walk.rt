//! What the declarations of a module mean, with what is wrong in each noted.

ghost use Rattle.std.specs.Prelude.{◌≡◌, ◌++◌, ◌∷◌, [], Some, None, length, map, flat_map, option_map, IfOk, OnOk};
ghost use Rattle.elm_tree.specs.Tree as trees;
ghost use Rattle.elm_tree.specs.View as tree_view;
ghost use Rattle.elm_tree.specs.View.{word_view, declaration_view, definition_view};
ghost use Rattle.elm_tree.specs.Turns.{tokens_view};
ghost use Rattle.elm_canon.specs.declared.reference.Ref.TheVariants.{Top};
ghost use Rattle.elm_canon.specs.View.{annotation_view, expr_view, patterns_view, known_view};
ghost use Rattle.canon_env.specs.Imports.{name_of};
ghost use Rattle.canon_env.specs.Naming as naming;
ghost use Rattle.canon_env.specs.Naming.{IsWorld};
ghost use Rattle.canon_env.specs.Locals.{no_locals};
ghost use Rattle.canon_env.specs.Sites.{faults_at};
ghost use Rattle.canon_env.specs.Patterns.{match_sites};
ghost use Rattle.canon_env.specs.Types.{type_of, type_sites};
ghost use Rattle.canon_expr.specs.Scope.{locals_of};
ghost use Rattle.canon_expr.specs.Logs.{Grows};
ghost use Rattle.canon_expr.specs.Literals.{AreLiterals};
ghost use Rattle.canon_expr.specs.Binding.{is_function};
ghost use Rattle.canon_expr.specs.Blocks.{made_of, title_of};
ghost use Rattle.canon_expr.specs.Kept.{made_view};
ghost use Rattle.canon_expr.specs.Exprs.{annotation_of, definition_sites, expr_sites};
ghost use Rattle.canon_module.specs.Items as spec;
ghost use Rattle.canon_module.specs.Ports.{port_faults};
ghost use Rattle.canon_module.specs.CanonValuesFaults.{declaration_faults};
ghost use Rattle.canon_module.specs.CanonValuesKept.{item_view};

use crate::before::Before;
use crate::item::{Item, PortFunction};
use crate::outcomes::{boxed, done, in_box, put, when_done};
use crate::port::{Port, resolve};
use crate::written::{Declarations, Written};
use canon_env::env::World;
use canon_env::finding::Finding;
use canon_env::import::word_name;
use canon_expr::bindings::note_bindings;
use canon_expr::log::Log;
use canon_expr::made::Made;
use canon_expr::pattern::{pattern, patterns};
use canon_expr::scope::Scope;
use canon_expr::titles::made_named;
use canon_expr::walk::scoped;
use canon_expr::words::words_of_all;
use canon_type::annotation::annotation;
use elm_base::names::Name;
use elm_canon::reference::Ref;
use elm_canon::tree::{Expr, Pattern};
use elm_lexer::token::Token;
use elm_tree::tree;
use elm_tree::tree::{Declaration, Definition, TypeTree, Word};
use std::alloc::{AllocError, Global};

/// The name of this module that a word spells.
fn top_name(alloc: Global, tokens: &[Token<'_>], home: &Name, word: Word) -> Result<Ref, AllocError>
    ensures { IfOk result (λ r. r ≡ Top home.now (name_of (word_view (tokens_view tokens.now) word))) }
{
    Ok(Ref::Top(home.clone()?, word_name(alloc, tokens, word)?))
}

/// Keeps what a written type means as the annotation before the next declaration. Its faults are added to `findings`.
fn annotate(
    alloc: Global,
    tokens: &[Token<'_>],
    world: &World,
    written: &TypeTree,
    findings: &mut Vec<Finding>,
    before: &mut Before,
) -> Result<(), AllocError>
    ensures meaning { OnOk result ((w : naming.World) → IsWorld world.now w → option_map annotation_view before.new
        ≡ Some (type_of w (tree_view.type_view (tokens_view tokens.now) written.now))) }
    ensures faults { OnOk result ((w : naming.World) → IsWorld world.now w → findings.new.items ≡ findings.old.items
        ++ flat_map (faults_at w) (type_sites w (tree_view.type_view (tokens_view tokens.now) written.now))) }
{
    before.keep(annotation(alloc, tokens, world, written, findings))
}

/// A definition as a declaration.
fn value_item(alloc: Global, made: Made) -> Result<Item, AllocError>
    ensures { IfOk result (λ i. item_view i ≡ spec.ValueItem (made_view made)) }
{
    match in_box(alloc, made) {
        Ok(made) => Ok(Item::Value(made)),
        Err(e) => Err(e),
    }
}

/// What a definition by a name means, by what its parameters and its body mean, with the annotation that stands before
/// it. None stands before the next declaration.
fn made_by(
    alloc: Global,
    tokens: &[Token<'_>],
    title: Ref,
    name: Word,
    before: &mut Before,
    written: &[tree::Pattern],
    parameters: Vec<Pattern>,
    body: &tree::Expr,
    value: Box<Expr>,
) -> Result<Item, AllocError>
    ensures meaning { IfOk result (λ i. item_view i ≡ spec.ValueItem (made_of
        (is_function (tree_view.patterns_view (tokens_view tokens.now) written.now)
        (tree_view.expr_view (tokens_view tokens.now) body.now))
        (title_of title (word_view (tokens_view tokens.now) name).place (option_map annotation_view before.old))
        (patterns_view parameters.items) (expr_view value.value))) }
    ensures before { OnOk result (before.new ≡ None) }
{
    let annotated = before.take();
    let made = made_named(
        tokens, title, name, annotated, written, parameters, body, value,
    );
    value_item(alloc, made)
}

/// What a definition by a name means, where no names are local, with the annotation that stands before it. None stands
/// before the next declaration.
fn named_in(
    alloc: Global,
    tokens: &[Token<'_>],
    home: &Name,
    world: &World,
    scope: &mut Scope,
    log: &mut Log,
    name: Word,
    parameters: &[tree::Pattern],
    body: &tree::Expr,
    before: &mut Before,
) -> Result<Item, AllocError>
    requires literals { AreLiterals (tokens_view tokens.now) }
    requires alone { locals_of scope.old ≡ no_locals }
    ensures meaning { IfOk result (λ i. (w : naming.World) → IsWorld world.now w → w.name ≡ home.now
        → item_view i ≡ spec.ValueItem (spec.top_made w (option_map annotation_view before.old) (trees.Define
        (word_view (tokens_view tokens.now) name) (tree_view.patterns_view (tokens_view tokens.now) parameters.now)
        (tree_view.expr_view (tokens_view tokens.now) body.now)))) }
    ensures log { OnOk result ((w : naming.World) → IsWorld world.now w → Grows w log.old log.new
        (definition_sites w no_locals (trees.Define
        (word_view (tokens_view tokens.now) name) (tree_view.patterns_view (tokens_view tokens.now) parameters.now)
        (tree_view.expr_view (tokens_view tokens.now) body.now)))) }
    ensures before { OnOk result (before.new ≡ None) }
{
    let words = words_of_all(alloc, tokens, parameters)?;
    let meant = patterns(alloc, tokens, world, log, parameters)?;
    note_bindings(alloc, tokens, world, scope, log, &words)?;
    let value = scoped(alloc, tokens, world, scope, log, &words, body)?;
    let title = top_name(alloc, tokens, home, name)?;
    made_by(
        alloc, tokens, title, name, before, parameters, meant, body, value,
    )
}

/// The same, which begins where no names are local.
fn named(
    alloc: Global,
    tokens: &[Token<'_>],
    home: &Name,
    world: &World,
    log: &mut Log,
    name: Word,
    parameters: &[tree::Pattern],
    body: &tree::Expr,
    before: &mut Before,
) -> Result<Item, AllocError>
    requires { AreLiterals (tokens_view tokens.now) }
    ensures meaning { IfOk result (λ i. (w : naming.World) → IsWorld world.now w → w.name ≡ home.now
        → item_view i ≡ spec.ValueItem (spec.top_made w (option_map annotation_view before.old) (trees.Define
        (word_view (tokens_view tokens.now) name) (tree_view.patterns_view (tokens_view tokens.now) parameters.now)
        (tree_view.expr_view (tokens_view tokens.now) body.now)))) }
    ensures log { OnOk result ((w : naming.World) → IsWorld world.now w → Grows w log.old log.new
        (definition_sites w no_locals (trees.Define
        (word_view (tokens_view tokens.now) name) (tree_view.patterns_view (tokens_view tokens.now) parameters.now)
        (tree_view.expr_view (tokens_view tokens.now) body.now)))) }
    ensures before { OnOk result (before.new ≡ None) }
{
    let mut scope = Scope::new(alloc);
    named_in(
        alloc, tokens, home, world, &mut scope, log, name, parameters, body, before,
    )
}

/// Notes what is wrong in a pattern.
fn note_pattern(
    alloc: Global,
    tokens: &[Token<'_>],
    world: &World,
    log: &mut Log,
    left: &tree::Pattern,
) -> Result<(), AllocError>
    requires { AreLiterals (tokens_view tokens.now) }
    ensures { OnOk result ((w : naming.World) → IsWorld world.now w → Grows w log.old log.new
        (match_sites (tree_view.pattern_view (tokens_view tokens.now) left.now))) }
{
    done(pattern(alloc, tokens, world, log, left))
}

/// Notes what is wrong in an expression where no names are local.
fn note_value(
    alloc: Global,
    tokens: &[Token<'_>],
    world: &World,
    log: &mut Log,
    body: &tree::Expr,
) -> Result<(), AllocError>
    requires { AreLiterals (tokens_view tokens.now) }
    ensures { OnOk result ((w : naming.World) → IsWorld world.now w → Grows w log.old log.new
        (expr_sites w no_locals (tree_view.expr_view (tokens_view tokens.now) body.now))) }
{
    let mut scope = Scope::new(alloc);
    scoped(alloc, tokens, world, &mut scope, log, &[], body)?;
    Ok(())
}

/// Notes what is wrong in a pattern and in what it takes apart.
fn note_parts(
    alloc: Global,
    tokens: &[Token<'_>],
    world: &World,
    log: &mut Log,
    left: &tree::Pattern,
    body: &tree::Expr,
) -> Result<(), AllocError>
    requires { AreLiterals (tokens_view tokens.now) }
    ensures { OnOk result ((w : naming.World) → IsWorld world.now w → Grows w log.old log.new
        (definition_sites w no_locals (trees.Destructure (tree_view.pattern_view (tokens_view tokens.now) left.now)
        (tree_view.expr_view (tokens_view tokens.now) body.now)))) }
{
    note_pattern(alloc, tokens, world, log, left)?;
    note_value(alloc, tokens, world, log, body)
}

/// What a definition means, with the annotation that stands before it. What then stands before the next declaration is
/// the annotation that it is, if it is one.
fn definition(
    alloc: Global,
    tokens: &[Token<'_>],
    home: &Name,
    world: &World,
    log: &mut Log,
    definition: &Definition,
    before: &mut Before,
) -> Result<Item, AllocError>
    requires { AreLiterals (tokens_view tokens.now) }
    ensures meaning { IfOk result (λ i. (w : naming.World) → IsWorld world.now w → w.name ≡ home.now
        → item_view i ≡ spec.ValueItem (spec.top_made w (option_map annotation_view before.old)
        (definition_view (tokens_view tokens.now) definition.now))) }
    ensures faults { OnOk result ((w : naming.World) → IsWorld world.now w → log.new.findings.items
        ≡ log.old.findings.items
        ++ flat_map (faults_at w) (definition_sites w no_locals (definition_view (tokens_view tokens.now) definition.now))) }
    ensures before { OnOk result ((w : naming.World) → IsWorld world.now w → option_map annotation_view before.new
        ≡ annotation_of w (definition_view (tokens_view tokens.now) definition.now)) }
{
    match definition {
        Definition::Annotate(_, annotated) => when_done(
            annotate(alloc, tokens, world, annotated, &mut log.findings, before),
            Item::Nothing,
        ),
        Definition::Define(name, parameters, body) => {
            named(
                alloc, tokens, home, world, log, *name, parameters, body, before,
            )
        }
        Definition::Destructure(left, body) => {
            before.forget();
            when_done(
                note_parts(alloc, tokens, world, log, left, body),
                Item::Nothing,
            )
        }
    }
}

/// What a port is as a function without a body, by its name.
fn function_of(name: Ref, port: Box<Port>) -> PortFunction
    ensures name { result.name ≡ name }
    ensures known { result.known ≡ port.value.known }
{
    PortFunction {
        name,
        known: Box::into_inner(port).known,
    }
}

/// A port as a declaration.
fn port_item(alloc: Global, name: Ref, port: Box<Port>) -> Result<Item, AllocError>
    ensures { IfOk result (λ i. item_view i ≡ spec.PortItem name (known_view port.value.known)) }
{
    match in_box(alloc, function_of(name, port)) {
        Ok(function) => Ok(Item::Port(function)),
        Err(e) => Err(e),
    }
}

/// What a port means.
fn declared_port(
    alloc: Global,
    tokens: &[Token<'_>],
    home: &Name,
    world: &World,
    name: Word,
    written: &TypeTree,
    findings: &mut Vec<Finding>,
) -> Result<Item, AllocError>
    ensures meaning { IfOk result (λ i. (w : naming.World) → IsWorld world.now w → w.name ≡ home.now
        → item_view i ≡ spec.item_of w None (trees.Port (word_view (tokens_view tokens.now) name)
        (tree_view.type_view (tokens_view tokens.now) written.now))) }
    ensures faults { OnOk result ((w : naming.World) → IsWorld world.now w → findings.new.items ≡ findings.old.items
        ++ port_faults w (word_view (tokens_view tokens.now) name)
        (tree_view.type_view (tokens_view tokens.now) written.now)) }
{
    let title = top_name(alloc, tokens, home, name)?;
    match boxed(
        alloc,
        resolve(alloc, tokens, world, name, written, findings),
    ) {
        Ok(port) => port_item(alloc, title, port),
        Err(e) => Err(e),
    }
}

/// What a declaration means, with the annotation that stands before it. What then stands before the next one is the
/// annotation that it is, if it is one.
fn item(
    alloc: Global,
    tokens: &[Token<'_>],
    home: &Name,
    world: &World,
    log: &mut Log,
    declaration: &Written<'_>,
    before: &mut Before,
) -> Result<Item, AllocError>
    requires { AreLiterals (tokens_view tokens.now) }
    ensures meaning { IfOk result (λ i. (w : naming.World) → IsWorld world.now w → w.name ≡ home.now
        → item_view i ≡ spec.item_of w (option_map annotation_view before.old)
        (declaration_view (tokens_view tokens.now) declaration.now)) }
    ensures faults { OnOk result ((w : naming.World) → IsWorld world.now w → log.new.findings.items
        ≡ log.old.findings.items
        ++ declaration_faults w (declaration_view (tokens_view tokens.now) declaration.now)) }
    ensures before { OnOk result ((w : naming.World) → IsWorld world.now w → option_map annotation_view before.new
        ≡ spec.annotation_by w (declaration_view (tokens_view tokens.now) declaration.now)) }
{
    match declaration.get() {
        Declaration::Value(value) => definition(alloc, tokens, home, world, log, value, before),
        Declaration::Port(name, written) => {
            before.forget();
            declared_port(
                alloc,
                tokens,
                home,
                world,
                *name,
                written,
                &mut log.findings,
            )
        }
        Declaration::Union(_, _, _) => {
            before.forget();
            Ok(Item::Nothing)
        }
        Declaration::Alias(_, _, _) => {
            before.forget();
            Ok(Item::Nothing)
        }
    }
}

/// What the declarations `declarations` of the module `home` mean, in turn. They are of the text of the tokens `tokens`,
/// as the lexer makes them, and `world` has the names of the module and its imports. The faults in them are noted in
/// `log`, but for those of types. The error means that memory ran out.
pub fn items(
    alloc: Global,
    tokens: &[Token<'_>],
    home: &Name,
    world: &World,
    log: &mut Log,
    declarations: &Declarations<'_>,
) -> Result<Vec<Item>, AllocError>
    requires { AreLiterals (tokens_view tokens.now) }
    ensures count { IfOk result (λ v. length v.items ≡ length declarations.now) }
    ensures meaning { IfOk result (λ v. (w : naming.World) → IsWorld world.now w → w.name ≡ home.now
        → map item_view v.items ≡ spec.items_of w None (map (declaration_view (tokens_view tokens.now)) declarations.now)) }
    ensures faults { OnOk result ((w : naming.World) → IsWorld world.now w → log.new.findings.items
        ≡ log.old.findings.items
        ++ flat_map (declaration_faults w) (map (declaration_view (tokens_view tokens.now)) declarations.now)) }
{
    let mut before = Before::none();
    let mut items = Vec::with_capacity(alloc, declarations.len())?;
    for number in 0..declarations.len() {
        let declaration = declarations.at(number);
        let item = item(alloc, tokens, home, world, log, &declaration, &mut before)?;
        put(&mut items, item)?;
    }
    Ok(items)
}
