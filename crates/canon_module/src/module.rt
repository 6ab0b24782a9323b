//! What a module means, and all faults of its names.

ghost use Rattle.std.specs.Prelude.{◌≡◌, ◌++◌, List, map, flat_map, option_map, IfOk, OnOk};
ghost use Rattle.elm_tree.specs.View as tree_view;
ghost use Rattle.elm_tree.specs.Turns.{tokens_view};
ghost use Rattle.elm_canon.specs.Tree as canon;
ghost use Rattle.elm_canon.specs.View.{declaration_view, port_declaration_view, module_view};
ghost use Rattle.canon_env.specs.Imports.{name_of};
ghost use Rattle.canon_env.specs.Env.{Rows, IsEnvOf, imported_rows, known_view};
ghost use Rattle.canon_env.specs.Exposing.{import_faults, written_view};
ghost use Rattle.canon_env.specs.Shown.{shown_view, unions_view};
ghost use Rattle.canon_env.specs.Naming as naming;
ghost use Rattle.canon_env.specs.Naming.{IsWorld};
ghost use Rattle.canon_env.specs.Order.{IsInOrder};
ghost use Rattle.canon_module.specs.Names.{names_in};
ghost use Rattle.canon_module.specs.View.{names_view};
ghost use Rattle.canon_module.specs.Faults.{name_faults};
ghost use Rattle.canon_expr.specs.Literals.{AreLiterals};
ghost use Rattle.canon_type.specs.DeclaredTypes.{module_world, AreDeclared, AreAll, declared_faults};
ghost use Rattle.canon_module.specs.Items.{value_groups};
ghost use Rattle.canon_module.specs.CanonValuesFaults.{value_faults};
ghost use Rattle.canon_module.specs.Resolve as spec;
ghost use Rattle.canon_module.specs.Kept.{setting_view};

use crate::faults::push_name_faults;
use crate::makers::makers;
use crate::names::Names;
use crate::outcomes::{boxed, in_box, put};
use crate::ports::ports;
use crate::shown::shown_of;
use crate::values::values;
use crate::written::Declarations;
use canon_env::env::{Env, Known, World};
use canon_env::exposing::{Written, import_faults};
use canon_env::finding::Finding;
use canon_env::order::in_order;
use canon_env::shown::Shown;
use canon_expr::log::Log;
use canon_type::constructors::names_of;
use canon_type::declaring::{Declared, declared_types};
use elm_base::names::Name;
use elm_canon::tree as canon;
use elm_canon::tree::{Module, PortDeclaration, UnionDeclaration};
use elm_lexer::token::Token;
use elm_tree::tree;
use elm_tree::tree::Header;
use std::alloc::{AllocError, Global};
use std::sync::Arc;

/// What a module is resolved against.
#[derive(Clone, Copy)]
pub struct Setting<'a> {
    /// Its name, by its path.
    pub home: &'a Name,
    /// The types that it has without a text, as `Int` is of `Basics`.
    pub given: &'a [Arc<UnionDeclaration, Global>],
    /// Its imports, those that each module has without writing them among them, each beside what its module shows.
    pub imports: &'a [Known<'a>],
    /// The imports that are written, each beside what its module shows.
    pub written: &'a [Written<'a>],
}

/// What a module means, what it shows to those that import it, and its faults.
#[derive(Drop)]
pub struct Resolved {
    /// Of no use where there are faults.
    pub module: Module,
    pub shown: Shown,
    /// Each once, by place and then by code.
    pub faults: Vec<Finding>,
}

/// The names of unions.
fn union_names(
    alloc: Global,
    unions: &[Arc<UnionDeclaration, Global>],
) -> Result<Vec<Name>, AllocError>
    ensures { IfOk result (λ v. v.items ≡ map spec.union_name (unions_view unions.now)) }
{
    let mut names = Vec::with_capacity(alloc, unions.len())?;
    for union in unions {
        put(&mut names, union.name.clone()?)?;
    }
    Ok(names)
}

/// The faults of the imports, and of the names that a module declares and exposes.
fn heading_faults(
    alloc: Global,
    tokens: &[Token<'_>],
    setting: &Setting<'_>,
    names: &Names,
    header: &Option<Header>,
) -> Result<Vec<Finding>, AllocError>
    ensures { IfOk result (λ v. v.items
        ≡ flat_map import_faults (map (written_view (tokens_view tokens.now)) setting.now.written.now)
        ++ name_faults (map spec.union_name (unions_view setting.now.given.now))
        (names_view (tokens_view tokens.now) names.now)
        (option_map (tree_view.header_view (tokens_view tokens.now)) header.now)) }
{
    let mut findings = import_faults(alloc, tokens, setting.written)?;
    let given = union_names(alloc, setting.given)?;
    push_name_faults(alloc, tokens, &given, names, header, &mut findings)?;
    Ok(findings)
}

/// What a module declares, and what it can name: its own values are `values`, and the names of others `imported`. The
/// faults of its types are added to `findings`.
fn types_of(
    alloc: Global,
    tokens: &[Token<'_>],
    home: &Name,
    imported: Env,
    values: Vec<Name>,
    declarations: &Declarations<'_>,
    findings: &mut Vec<Finding>,
) -> Result<Box<Declared>, AllocError>
    ensures values { IfOk result (λ d. (shown_view d.value.shown).values ≡ values.items) }
    ensures types { IfOk result (λ d. (rows : Rows) → IsEnvOf imported rows → AreDeclared home.now rows
        (map (tree_view.declaration_view (tokens_view tokens.now)) declarations.now) (shown_view d.value.shown)) }
    ensures all { IfOk result (λ d. (rows : Rows) → IsEnvOf imported rows → AreAll home.now rows
        (map (tree_view.declaration_view (tokens_view tokens.now)) declarations.now) (shown_view d.value.shown)) }
    ensures world { IfOk result (λ d. (rows : Rows) → IsEnvOf imported rows
        → IsWorld d.value.world (module_world home.now rows (shown_view d.value.shown))) }
    ensures faults { IfOk result (λ d. (rows : Rows) → IsEnvOf imported rows → findings.new.items
        ≡ findings.old.items ++ declared_faults (module_world home.now rows (shown_view d.value.shown))
        (map (tree_view.declaration_view (tokens_view tokens.now)) declarations.now)) }
{
    boxed(
        alloc,
        declared_types(
            alloc,
            tokens,
            home,
            imported,
            values,
            declarations.all(),
            findings,
        ),
    )
}

/// What a module declares, and what it can name. The faults of its types are added to `findings`.
fn declared(
    alloc: Global,
    tokens: &[Token<'_>],
    setting: &Setting<'_>,
    names: &Names,
    declarations: &Declarations<'_>,
    findings: &mut Vec<Finding>,
) -> Result<Box<Declared>, AllocError>
    ensures values { IfOk result (λ d. (shown_view d.value.shown).values
        ≡ map name_of (names_view (tokens_view tokens.now) names.now).values) }
    ensures types { IfOk result (λ d. AreDeclared setting.now.home.now
        (imported_rows (map known_view setting.now.imports.now))
        (map (tree_view.declaration_view (tokens_view tokens.now)) declarations.now) (shown_view d.value.shown)) }
    ensures all { IfOk result (λ d. AreAll setting.now.home.now
        (imported_rows (map known_view setting.now.imports.now))
        (map (tree_view.declaration_view (tokens_view tokens.now)) declarations.now) (shown_view d.value.shown)) }
    ensures world { IfOk result (λ d. IsWorld d.value.world (module_world setting.now.home.now
        (imported_rows (map known_view setting.now.imports.now)) (shown_view d.value.shown))) }
    ensures faults { IfOk result (λ d. findings.new.items ≡ findings.old.items
        ++ declared_faults (module_world setting.now.home.now
        (imported_rows (map known_view setting.now.imports.now)) (shown_view d.value.shown))
        (map (tree_view.declaration_view (tokens_view tokens.now)) declarations.now)) }
{
    let values = names_of(alloc, tokens, &names.values)?;
    let imported = Env::of(alloc, setting.imports)?;
    types_of(
        alloc,
        tokens,
        setting.home,
        imported,
        values,
        declarations,
        findings,
    )
}

/// The constructors that a module declares, and then the groups of its values. The faults in its values and ports are
/// noted in `log`.
fn meanings(
    alloc: Global,
    tokens: &[Token<'_>],
    home: &Name,
    world: &World,
    log: &mut Log,
    declarations: &Declarations<'_>,
) -> Result<Vec<canon::Declaration>, AllocError>
    requires { AreLiterals (tokens_view tokens.now) }
    ensures meaning { IfOk result (λ v. (w : naming.World) → IsWorld world.now w → w.name ≡ home.now
        → map declaration_view v.items ≡ flat_map (spec.makers_in home.now)
        (map (tree_view.declaration_view (tokens_view tokens.now)) declarations.now)
        ++ value_groups w (map (tree_view.declaration_view (tokens_view tokens.now)) declarations.now)) }
    ensures faults { OnOk result ((w : naming.World) → IsWorld world.now w → w.name ≡ home.now
        → log.new.findings.items ≡ log.old.findings.items
        ++ value_faults w (map (tree_view.declaration_view (tokens_view tokens.now)) declarations.now)) }
{
    let mut meanings = makers(alloc, tokens, home, declarations)?;
    let mut groups = values(alloc, tokens, home, world, log, declarations)?;
    meanings.append(&mut groups)?;
    Ok(meanings)
}

/// A module with its types, its ports and its values.
fn assembled(
    name: Name,
    declared: Box<Declared>,
    ports: Vec<PortDeclaration>,
    declarations: Vec<canon::Declaration>,
) -> Module
    ensures name { (module_view result).name ≡ name }
    ensures unions { (module_view result).unions ≡ (shown_view declared.value.shown).unions }
    ensures aliases { (module_view result).aliases ≡ (shown_view declared.value.shown).aliases }
    ensures ports { (module_view result).ports ≡ map port_declaration_view ports.items }
    ensures declarations { (module_view result).declarations ≡ map declaration_view declarations.items }
{
    let Declared { shown, world: _ } = Box::into_inner(declared);
    Module {
        name,
        unions: shown.unions,
        aliases: shown.aliases,
        ports,
        declarations,
    }
}

/// What a module declares and can name, with the faults of its imports, of the names that it declares and exposes, and
/// of its types.
#[derive(Drop)]
struct Begun {
    declared: Box<Declared>,
    findings: Vec<Finding>,
}

/// What a module declares and can name.
fn begin(
    alloc: Global,
    tokens: &[Token<'_>],
    setting: &Setting<'_>,
    parsed: &tree::Module,
) -> Result<Begun, AllocError>
    ensures values { IfOk result (λ b. (shown_view b.declared.value.shown).values ≡ map name_of
        (names_in (tree_view.module_view (tokens_view tokens.now) parsed.now).declarations).values) }
    ensures types { IfOk result (λ b. AreDeclared setting.now.home.now
        (imported_rows (map known_view setting.now.imports.now))
        (tree_view.module_view (tokens_view tokens.now) parsed.now).declarations
        (shown_view b.declared.value.shown)) }
    ensures all { IfOk result (λ b. AreAll setting.now.home.now
        (imported_rows (map known_view setting.now.imports.now))
        (tree_view.module_view (tokens_view tokens.now) parsed.now).declarations
        (shown_view b.declared.value.shown)) }
    ensures world { IfOk result (λ b. IsWorld b.declared.value.world (module_world setting.now.home.now
        (imported_rows (map known_view setting.now.imports.now)) (shown_view b.declared.value.shown))) }
    ensures faults { IfOk result (λ b. b.findings.items
        ≡ spec.heading_faults (setting_view (tokens_view tokens.now) setting.now)
        (tree_view.module_view (tokens_view tokens.now) parsed.now)
        ++ declared_faults (module_world setting.now.home.now
        (imported_rows (map known_view setting.now.imports.now)) (shown_view b.declared.value.shown))
        (tree_view.module_view (tokens_view tokens.now) parsed.now).declarations) }
{
    let declarations = Declarations::of(parsed);
    let names = Names::of(alloc, &declarations)?;
    let mut findings = heading_faults(alloc, tokens, setting, &names, &parsed.head.header)?;
    let declared = declared(alloc, tokens, setting, &names, &declarations, &mut findings)?;
    Ok(Begun { declared, findings })
}

/// The values and ports of a module, with all of its faults in order.
#[derive(Drop)]
struct Contents {
    declarations: Vec<canon::Declaration>,
    ports: Vec<PortDeclaration>,
    faults: Vec<Finding>,
}

/// The values and ports of a module, of which the faults `findings` are known.
fn valued(
    alloc: Global,
    tokens: &[Token<'_>],
    home: &Name,
    world: &World,
    findings: Vec<Finding>,
    declarations: &Declarations<'_>,
) -> Result<Box<Contents>, AllocError>
    requires { AreLiterals (tokens_view tokens.now) }
    ensures declarations { IfOk result (λ v. (w : naming.World) → IsWorld world.now w → w.name ≡ home.now
        → map declaration_view v.value.declarations.items ≡ flat_map (spec.makers_in home.now)
        (map (tree_view.declaration_view (tokens_view tokens.now)) declarations.now)
        ++ value_groups w (map (tree_view.declaration_view (tokens_view tokens.now)) declarations.now)) }
    ensures ports { IfOk result (λ v. (w : naming.World) → IsWorld world.now w
        → map port_declaration_view v.value.ports.items ≡ flat_map (spec.ports_in w)
        (map (tree_view.declaration_view (tokens_view tokens.now)) declarations.now)) }
    ensures faults { IfOk result (λ v. (w : naming.World) → IsWorld world.now w → w.name ≡ home.now
        → IsInOrder (findings.items
        ++ value_faults w (map (tree_view.declaration_view (tokens_view tokens.now)) declarations.now))
        v.value.faults.items) }
{
    let mut log = Log {
        findings,
        uses: Vec::new(alloc),
    };
    let meanings = meanings(alloc, tokens, home, world, &mut log, declarations)?;
    let ports = ports(alloc, tokens, world, declarations)?;
    let faults = in_order(alloc, log.findings)?;
    let contents = in_box(
        alloc,
        Contents {
            declarations: meanings,
            ports,
            faults,
        },
    )?;
    Ok(contents)
}

/// A module with its types, its ports and its values, with what it shows and its faults.
fn whole(
    name: Name,
    declared: Box<Declared>,
    contents: Box<Contents>,
    shown: Box<Shown>,
) -> Resolved
    ensures name { (module_view result.module).name ≡ name }
    ensures unions { (module_view result.module).unions ≡ (shown_view declared.value.shown).unions }
    ensures aliases { (module_view result.module).aliases ≡ (shown_view declared.value.shown).aliases }
    ensures ports { (module_view result.module).ports ≡ map port_declaration_view contents.value.ports.items }
    ensures declarations { (module_view result.module).declarations
        ≡ map declaration_view contents.value.declarations.items }
    ensures shown { result.shown ≡ shown.value }
    ensures faults { result.faults ≡ contents.value.faults }
{
    let Contents {
        declarations,
        ports,
        faults,
    } = Box::into_inner(contents);
    Resolved {
        module: assembled(name, declared, ports, declarations),
        shown: Box::into_inner(shown),
        faults,
    }
}

/// What the module `parsed` means, which is of the text of the tokens `tokens`, as the lexer makes them; what it shows
/// to those that import it; and all faults of its imports, of the names that it declares and exposes, of its types, its
/// ports and its values. It takes time in proportion to the text and to what its imports show, but for the order of
/// groups and faults. The error means that memory ran out; so it does where there are 2 ^ 32 declarations, or
/// constructors of one union, or more.
pub fn resolve(
    alloc: Global,
    tokens: &[Token<'_>],
    setting: &Setting<'_>,
    parsed: &tree::Module,
) -> Result<Resolved, AllocError>
    requires { AreLiterals (tokens_view tokens.now) }
    ensures module { IfOk result (λ r. spec.IsModule (setting_view (tokens_view tokens.now) setting.now)
        (tree_view.module_view (tokens_view tokens.now) parsed.now).declarations (module_view r.module)) }
    ensures one { IfOk result (λ r. (m : canon.Module) →
        spec.IsModule (setting_view (tokens_view tokens.now) setting.now)
        (tree_view.module_view (tokens_view tokens.now) parsed.now).declarations m → m ≡ module_view r.module) }
    ensures shown { IfOk result (λ r. shown_view r.shown
        ≡ spec.module_shows (setting_view (tokens_view tokens.now) setting.now)
        (tree_view.module_view (tokens_view tokens.now) parsed.now) (module_view r.module)) }
    ensures faults { IfOk result (λ r. IsInOrder
        (spec.module_faults (setting_view (tokens_view tokens.now) setting.now)
        (tree_view.module_view (tokens_view tokens.now) parsed.now) (module_view r.module)) r.faults.items) }
{
    let declarations = Declarations::of(parsed);
    let begun = begin(alloc, tokens, setting, parsed)?;
    let Begun { declared, findings } = begun;
    let world = &declared.world;
    let valued = valued(alloc, tokens, setting.home, world, findings, &declarations)?;
    let shown = boxed(
        alloc,
        shown_of(
            alloc,
            tokens,
            &parsed.head.header,
            setting.given,
            &declared.shown,
        ),
    )?;
    let name = setting.home.clone()?;
    Ok(whole(name, declared, valued, shown))
}
