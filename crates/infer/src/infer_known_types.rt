//! The types of what modules declare without a body and of what they offer to others.

ghost use Rattle.std.specs.Prelude.{◌≡◌, ◌++◌, map, flat_map, option_map, IfOk, OnOk};
ghost use Rattle.std.specs.Map.{lookup};
ghost use Rattle.std.specs.Str.{bytes_eq};
ghost use Rattle.elm_canon.specs.View.{module_view, alias_declaration_view, port_declaration_view};
ghost use Rattle.elm_canon.specs.View.{union_declaration_view};
ghost use Rattle.elm_type.specs.Types.{Name as PlainName};
ghost use Rattle.elm_type.specs.View.{scheme_view, kind_view};
ghost use Rattle.interface.specs.Interface.{value_view, union_view, alias_view};
ghost use Rattle.interface.specs.View.{interface_view};
ghost use Rattle.type_items.specs.Annotations.{annotation_scheme};
ghost use Rattle.type_items.specs.Modules.{alias_makers, declared, known_in, union_makers};
ghost use Rattle.infer_steps.specs.View.{known_view, schemes_view};
ghost use Rattle.infer.specs.Known.{as_scheme, offered};
ghost use Rattle.infer.specs.Named.{named_views};

use crate::makers::{push_alias, push_union};
use crate::named::{Named, push_annotated, table};
use elm_base::names::Name;
use elm_canon::tree::{AliasDeclaration, Module, PortDeclaration, UnionDeclaration};
use elm_type::copy;
use elm_type::scheme::{Kind, Scheme};
use infer_steps::known::{Known, ModuleTypes};
use interface::Interface;
use interface::value::Value;
use std::alloc::{AllocError, Global};
use std::sync::Arc;

/// Adds the constructors of the unions of the module `home`.
fn push_unions(
    alloc: Global,
    home: &Name,
    unions: &[Arc<UnionDeclaration, Global>],
    found: &mut Vec<Named>,
) -> Result<(), AllocError>
    ensures { OnOk result (named_views found.new.items ≡ named_views found.old.items
        ++ map as_scheme (flat_map (union_makers home.now) (map (λ u. union_declaration_view u.value) unions.now))) }
{
    for union in unions {
        push_union(alloc, home, union, found)?;
    }
    Ok(())
}

/// Adds the constructors of aliases.
fn push_aliases(
    alloc: Global,
    aliases: &[Arc<AliasDeclaration, Global>],
    found: &mut Vec<Named>,
) -> Result<(), AllocError>
    ensures { OnOk result (named_views found.new.items ≡ named_views found.old.items
        ++ map as_scheme (flat_map alias_makers (map (λ a. alias_declaration_view a.value) aliases.now))) }
{
    for alias in aliases {
        push_alias(alloc, alias, found)?;
    }
    Ok(())
}

/// Adds ports.
fn push_ports(
    alloc: Global,
    ports: &[PortDeclaration],
    found: &mut Vec<Named>,
) -> Result<(), AllocError>
    ensures { OnOk result (named_views found.new.items ≡ named_views found.old.items
        ++ map as_scheme (map (λ p. (p.name, p.port_type)) (map port_declaration_view ports.now))) }
{
    for port in ports {
        push_annotated(alloc, &port.name, &port.port_type, found)?;
    }
    Ok(())
}

/// The types of what the module `module` declares without a body: its constructors, those of its aliases, and its
/// ports. The error means that memory or numbers ran out.
pub fn module_types(alloc: Global, module: &Module) -> Result<ModuleTypes, AllocError>
    ensures { IfOk result (λ types. (x : PlainName) → schemes_view types x
        ≡ option_map annotation_scheme (lookup (bytes_eq x) (declared (module_view module.now)))) }
{
    let mut found = Vec::new(alloc);
    push_unions(alloc, &module.name, &module.unions, &mut found)?;
    push_aliases(alloc, &module.aliases, &mut found)?;
    push_ports(alloc, &module.ports, &mut found)?;
    table(alloc, found)
}

/// Adds the types of what the module `module` declares without a body to `known`. The error means that memory or
/// numbers ran out.
pub(crate) fn add_own_types(
    alloc: Global,
    module: &Module,
    known: &mut Known,
) -> Result<(), AllocError>
    ensures { OnOk result ((m x : PlainName)
        → known_view known.new m x ≡ known_in (module_view module.now) (known_view known.old) m x) }
{
    let types = module_types(alloc, module)?;
    let home = module.name.clone()?;
    known.insert(home, types)?;
    Ok(())
}

/// Adds the types of what the module `module` declares without a body to those of the modules that it imports, `env`.
/// The error means that memory or numbers ran out.
pub fn with_own_types(alloc: Global, module: &Module, env: Known) -> Result<Known, AllocError>
    ensures { IfOk result (λ known. (m x : PlainName)
        → known_view known m x ≡ known_in (module_view module.now) (known_view env) m x) }
{
    let mut known = env;
    add_own_types(alloc, module, &mut known)?;
    Ok(known)
}

/// The same names once more.
fn copy_names(alloc: Global, names: &[Name]) -> Result<Vec<Name>, AllocError>
    ensures { IfOk result (λ copies. copies.items ≡ names.now) }
{
    let mut copies = Vec::with_capacity(alloc, names.len())?;
    for name in names {
        copies.push(name.clone()?)?;
    }
    Ok(copies)
}

/// The same kinds once more.
fn copy_kinds(alloc: Global, kinds: &[Kind]) -> Result<Vec<Kind>, AllocError>
    ensures { IfOk result (λ copies. map kind_view copies.items ≡ map kind_view kinds.now) }
{
    let mut copies = Vec::with_capacity(alloc, kinds.len())?;
    for kind in kinds {
        let lacks = copy_names(alloc, &kind.lacks)?;
        copies.push(Kind {
            class: kind.class,
            lacks,
        })?;
    }
    Ok(copies)
}

/// The scheme `scheme` once more. The error means that memory ran out.
pub fn copy_scheme(alloc: Global, scheme: &Scheme) -> Result<Scheme, AllocError>
    ensures { IfOk result (λ copy. scheme_view copy ≡ scheme_view scheme.now) }
{
    let ty = copy(alloc, &scheme.ty)?;
    let kinds = copy_kinds(alloc, &scheme.kinds)?;
    Ok(Scheme { ty, kinds })
}

/// Adds values with their types.
fn push_values(alloc: Global, values: &[Value], found: &mut Vec<Named>) -> Result<(), AllocError>
    ensures { OnOk result (named_views found.new.items ≡ named_views found.old.items
        ++ map (λ v. (v.name, v.scheme)) (map value_view values.now)) }
{
    for value in values {
        let name = value.name.clone()?;
        let scheme = copy_scheme(alloc, &value.scheme)?;
        found.push(Named { name, scheme })?;
    }
    Ok(())
}

/// The types of what the module `home` offers by its interface `interface`: its values, ports among them, and the
/// constructors of its unions and aliases. The error means that memory or numbers ran out.
pub fn offered_types(
    alloc: Global,
    home: &Name,
    interface: &Interface,
) -> Result<ModuleTypes, AllocError>
    ensures { IfOk result (λ types. (x : PlainName) → schemes_view types x
        ≡ lookup (bytes_eq x) (offered home.now (interface_view interface.now))) }
{
    let mut found = Vec::new(alloc);
    push_values(alloc, interface.values(), &mut found)?;
    push_unions(alloc, home, interface.unions(), &mut found)?;
    push_aliases(alloc, interface.aliases(), &mut found)?;
    table(alloc, found)
}
