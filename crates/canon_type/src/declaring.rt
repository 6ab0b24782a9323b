//! The types that a module declares.

ghost use Rattle.std.specs.Prelude.{◌≡◌, ◌++◌, ◌∷◌, [], List, map, flat_map, filter_map, IfOk, OnOk};
ghost use Rattle.elm_tree.specs.View.{declaration_view};
ghost use Rattle.elm_tree.specs.Turns.{tokens_view};
ghost use Rattle.elm_canon.specs.Names.{Name};
ghost use Rattle.canon_env.specs.Env.{Rows, IsEnvOf, own_rows};
ghost use Rattle.canon_env.specs.Shown.{shown_view, aliases_view};
ghost use Rattle.canon_env.specs.Naming as naming;
ghost use Rattle.canon_env.specs.Naming.{IsWorld};
ghost use Rattle.canon_type.specs.Written.{aliases_in};
ghost use Rattle.canon_type.specs.CanonAliasesKept.{made_view, AreExpanded};
ghost use Rattle.canon_type.specs.DeclaredTypes.{module_world, AreDeclared, AreAll, declared_faults};
ghost use Rattle.canon_type.specs.DeclaredTypesKept.{bare_shown, setting_of, alias_faults, written_faults, site_faults};
ghost use Rattle.canon_type.specs.DeclaredTypesKept.{with_values};

use crate::aliases::aliases_of;
use crate::annotation::annotation;
use crate::expanding::{Expansion, expanded_aliases};
use crate::outcomes::{boxed, put_made, unboxed, when_done};
use crate::parameters::push_parameter_faults;
use crate::recursion::push_recursion_faults;
use crate::unions::{bare_unions, declared_unions};
use canon_env::env::{Env, World};
use canon_env::finding::Finding;
use canon_env::shown::Shown;
use elm_base::names::Name;
use elm_canon::tree::AliasDeclaration;
use elm_lexer::token::Token;
use elm_tree::tree::Declaration;
use std::alloc::{AllocError, Global};
use std::sync::Arc;

/// What a module declares, and what it can name.
#[derive(Drop)]
pub struct Declared {
    /// Its values, unions and aliases.
    pub shown: Shown,
    /// Its own names, which are those of all that it declares, and those of its imports.
    pub world: World,
}

/// Adds the faults of the parameters of declared types, and of aliases that reach themselves.
fn push_written_faults(
    alloc: Global,
    tokens: &[Token<'_>],
    declarations: &[Declaration],
    findings: &mut Vec<Finding>,
) -> Result<(), AllocError>
    ensures { OnOk result (findings.new.items ≡ findings.old.items
        ++ written_faults (map (declaration_view (tokens_view tokens.now)) declarations.now)) }
{
    push_parameter_faults(alloc, tokens, declarations, findings)?;
    push_recursion_faults(alloc, tokens, declarations, findings)?;
    Ok(())
}

/// A module's own names whose unions have their names and parameters alone.
fn bare_names(
    alloc: Global,
    tokens: &[Token<'_>],
    home: &Name,
    declarations: &[Declaration],
) -> Result<Env, AllocError>
    ensures { IfOk result (λ e. IsEnvOf e (own_rows home.now
        (bare_shown home.now (map (declaration_view (tokens_view tokens.now)) declarations.now)))) }
{
    let shown = Shown {
        values: Vec::new(alloc),
        unions: bare_unions(alloc, tokens, home, declarations)?,
        aliases: Vec::new(alloc),
    };
    let own = Env::own(alloc, home, &shown)?;
    Ok(own)
}

/// The aliases of a module, with what names mean once they are declared.
fn expanded(
    alloc: Global,
    tokens: &[Token<'_>],
    home: &Name,
    imported: Env,
    declarations: &[Declaration],
) -> Result<Expansion, AllocError>
    ensures { IfOk result (λ e. (rows : Rows) → IsEnvOf imported rows → AreExpanded (setting_of home.now rows
        (map (declaration_view (tokens_view tokens.now)) declarations.now)) e.world e.made.items) }
{
    let own = bare_names(alloc, tokens, home, declarations)?;
    let world = World { own, imported };
    let expansion = expanded_aliases(alloc, tokens, home, world, declarations)?;
    Ok(expansion)
}

/// Adds the faults in the types that the aliases stand for.
fn push_alias_faults(
    alloc: Global,
    tokens: &[Token<'_>],
    world: &World,
    declarations: &[Declaration],
    findings: &mut Vec<Finding>,
) -> Result<(), AllocError>
    ensures { OnOk result ((w : naming.World) → IsWorld world.now w → findings.new.items ≡ findings.old.items
        ++ flat_map (alias_faults w) (aliases_in (map (declaration_view (tokens_view tokens.now)) declarations.now))) }
{
    let aliases = aliases_of(alloc, declarations)?;
    for alias in &aliases {
        annotation(alloc, tokens, world, alias.body, findings)?;
    }
    Ok(())
}

/// Adds an alias, if it is declared.
fn push_made(
    made: &Option<Arc<AliasDeclaration, Global>>,
    aliases: &mut Vec<Arc<AliasDeclaration, Global>>,
) -> Result<(), AllocError>
    ensures { OnOk result (aliases_view aliases.new.items
        ≡ aliases_view aliases.old.items ++ filter_map made_view (made.now ∷ [])) }
{
    match made {
        Some(alias) => {
            aliases.push(Arc::try_clone(alias)?)?;
            Ok(())
        }
        None => Ok(()),
    }
}

/// The aliases that are declared, in turn.
fn all_made(
    alloc: Global,
    made: &[Option<Arc<AliasDeclaration, Global>>],
) -> Result<Vec<Arc<AliasDeclaration, Global>>, AllocError>
    ensures { IfOk result (λ v. aliases_view v.items ≡ filter_map made_view made.now) }
{
    let mut aliases = Vec::with_capacity(alloc, made.len())?;
    for one in made {
        push_made(one, &mut aliases)?;
    }
    Ok(aliases)
}

/// The unions and aliases of a module, once its aliases are declared. The faults at their sites are added.
fn shown_by(
    alloc: Global,
    tokens: &[Token<'_>],
    home: &Name,
    expansion: &Expansion,
    declarations: &[Declaration],
    findings: &mut Vec<Finding>,
) -> Result<Shown, AllocError>
    ensures types { IfOk result (λ s. (rows : Rows) → AreExpanded (setting_of home.now rows
        (map (declaration_view (tokens_view tokens.now)) declarations.now)) expansion.now.world expansion.now.made.items
        → (values : List Name) → AreDeclared home.now rows
        (map (declaration_view (tokens_view tokens.now)) declarations.now) (with_values values (shown_view s))) }
    ensures faults { IfOk result (λ s. (rows : Rows) → AreExpanded (setting_of home.now rows
        (map (declaration_view (tokens_view tokens.now)) declarations.now)) expansion.now.world expansion.now.made.items
        → (values : List Name) → findings.new.items ≡ findings.old.items
        ++ site_faults (module_world home.now rows (with_values values (shown_view s)))
        (map (declaration_view (tokens_view tokens.now)) declarations.now)) }
{
    let unions = declared_unions(
        alloc,
        tokens,
        home,
        &expansion.world,
        declarations,
        findings,
    )?;
    push_alias_faults(alloc, tokens, &expansion.world, declarations, findings)?;
    let aliases = all_made(alloc, &expansion.made)?;
    Ok(Shown {
        values: Vec::new(alloc),
        unions,
        aliases,
    })
}

/// Lets a module name what it declares.
fn name_own(alloc: Global, home: &Name, declared: &mut Declared) -> Result<(), AllocError>
    ensures shown { OnOk result (declared.new.shown ≡ declared.old.shown) }
    ensures world { OnOk result ((rows : Rows) → IsEnvOf declared.old.world.imported rows
        → IsWorld declared.new.world (module_world home.now rows (shown_view declared.old.shown))) }
{
    let own = Env::own(alloc, home, &declared.shown);
    put_made(&mut declared.world.own, own)
}

/// The world of a module whose aliases are declared.
fn world_of(expansion: Box<Expansion>) -> World
    ensures { result ≡ expansion.value.world }
{
    Box::into_inner(expansion).world
}

/// What a module declares, with what it can name by it. Before, the world of `expansion` has what it imports.
fn finished(
    alloc: Global,
    home: &Name,
    shown: Shown,
    expansion: Box<Expansion>,
) -> Result<Box<Declared>, AllocError>
    ensures shown { IfOk result (λ d. d.value.shown ≡ shown) }
    ensures world { IfOk result (λ d. (rows : Rows) → IsEnvOf expansion.value.world.imported rows
        → IsWorld d.value.world (module_world home.now rows (shown_view shown))) }
{
    let world = world_of(expansion);
    let mut declared = Declared { shown, world };
    let done = name_own(alloc, home, &mut declared);
    boxed(alloc, when_done(done, declared))
}

/// What a module declares whose aliases are declared. Its values are those of the names `values`.
fn declared_by(
    alloc: Global,
    tokens: &[Token<'_>],
    home: &Name,
    expansion: Box<Expansion>,
    values: Vec<Name>,
    declarations: &[Declaration],
    findings: &mut Vec<Finding>,
) -> Result<Box<Declared>, AllocError>
    ensures values { IfOk result (λ d. (shown_view d.value.shown).values ≡ values.items) }
    ensures types { IfOk result (λ d. (rows : Rows) → AreExpanded (setting_of home.now rows
        (map (declaration_view (tokens_view tokens.now)) declarations.now)) expansion.value.world
        expansion.value.made.items → AreDeclared home.now rows
        (map (declaration_view (tokens_view tokens.now)) declarations.now) (shown_view d.value.shown)) }
    ensures world { IfOk result (λ d. (rows : Rows) → AreExpanded (setting_of home.now rows
        (map (declaration_view (tokens_view tokens.now)) declarations.now)) expansion.value.world
        expansion.value.made.items
        → IsWorld d.value.world (module_world home.now rows (shown_view d.value.shown))) }
    ensures faults { IfOk result (λ d. (rows : Rows) → AreExpanded (setting_of home.now rows
        (map (declaration_view (tokens_view tokens.now)) declarations.now)) expansion.value.world
        expansion.value.made.items → findings.new.items
        ≡ findings.old.items ++ declared_faults (module_world home.now rows (shown_view d.value.shown))
        (map (declaration_view (tokens_view tokens.now)) declarations.now)) }
{
    push_written_faults(alloc, tokens, declarations, findings)?;
    let mut shown = shown_by(alloc, tokens, home, &expansion, declarations, findings)?;
    shown.values = values;
    finished(alloc, home, shown, expansion)
}

/// What the module `home` declares by the declarations `declarations`, which are of the text of the tokens `tokens`:
/// its values are those of the names `values`, and its unions and aliases are told with all aliases expanded.
/// `imported` is what names mean by its imports. The faults of its declarations of types are added to `findings`. The
/// error means that memory ran out; so it does where there are 2 ^ 32 aliases or constructors of a union or more.
pub fn declared_types(
    alloc: Global,
    tokens: &[Token<'_>],
    home: &Name,
    imported: Env,
    values: Vec<Name>,
    declarations: &[Declaration],
    findings: &mut Vec<Finding>,
) -> Result<Declared, AllocError>
    ensures values { IfOk result (λ d. (shown_view d.shown).values ≡ values.items) }
    ensures types { IfOk result (λ d. (rows : Rows) → IsEnvOf imported rows → AreDeclared home.now rows
        (map (declaration_view (tokens_view tokens.now)) declarations.now) (shown_view d.shown)) }
    ensures all { IfOk result (λ d. (rows : Rows) → IsEnvOf imported rows → AreAll home.now rows
        (map (declaration_view (tokens_view tokens.now)) declarations.now) (shown_view d.shown)) }
    ensures world { IfOk result (λ d. (rows : Rows) → IsEnvOf imported rows
        → IsWorld d.world (module_world home.now rows (shown_view d.shown))) }
    ensures faults { IfOk result (λ d. (rows : Rows) → IsEnvOf imported rows → findings.new.items
        ≡ findings.old.items ++ declared_faults (module_world home.now rows (shown_view d.shown))
        (map (declaration_view (tokens_view tokens.now)) declarations.now)) }
{
    match boxed(alloc, expanded(alloc, tokens, home, imported, declarations)) {
        Ok(expansion) => unboxed(declared_by(
            alloc,
            tokens,
            home,
            expansion,
            values,
            declarations,
            findings,
        )),
        Err(e) => Err(e),
    }
}
