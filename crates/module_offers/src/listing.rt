//! The values of a module whose names pass a test.

ghost use Rattle.std.specs.Prelude.{◌≡◌, ◌++◌, ◌∷◌, [], map, flat_map, IfOk, OnOk};
ghost use Rattle.elm_canon.specs.Tree.{functions_of};
ghost use Rattle.elm_canon.specs.View.{declaration_view, function_view, group_view, port_declaration_view};
ghost use Rattle.elm_canon.specs.View.{module_view};
ghost use Rattle.elm_type.specs.View.{scheme_view};
ghost use Rattle.module_offers.specs.Offers as spec;
ghost use Rattle.module_offers.specs.Offers.{named_by};
ghost use Rattle.module_offers.specs.View.{values_view};

use crate::naming::Naming;
use crate::told::Told;
use elm_base::names::Name;
use elm_canon::reference::Ref;
use elm_canon::tree::{Declaration, Function, Group, Module, PortDeclaration};
use elm_type::order::scheme_in_order;
use elm_type::rename;
use elm_type::scheme::Scheme;
use interface::value::Value;
use std::alloc::{AllocError, Global};
use type_schemes::written::written_scheme;

/// Adds a value.
fn push_value(
    values: &mut Vec<Value>,
    name: &Name,
    parameters: usize,
    scheme: Scheme,
) -> Result<(), AllocError>
    ensures { OnOk result (values_view values.new.items ≡ values_view values.old.items
        ++ record { name = name.now; parameters = parameters; scheme = scheme_view scheme } ∷ []) }
{
    values.push(Value {
        name: name.clone()?,
        parameters,
        scheme,
    })?;
    Ok(())
}

/// Adds the value of a definition of so many parameters, if its name passes and its type is told.
fn push_defined<T: Told, N: Naming>(
    alloc: Global,
    told: &T,
    naming: &N,
    name: &Ref,
    parameters: usize,
    values: &mut Vec<Value>,
) -> Result<(), AllocError>
    ensures { OnOk result (values_view values.new.items ≡ values_view values.old.items
        ++ named_by (N.test naming.now) (spec.defined_value (T.schemes told.now) name.now parameters)) }
{
    match name {
        Ref::Local(_) => Ok(()),
        Ref::Top(_, own) => {
            if !naming.passes(own) {
                return Ok(());
            }
            match told.get(name)? {
                Some(scheme) => {
                    let scheme = scheme_in_order(alloc, scheme)?;
                    push_value(values, own, parameters, scheme)
                }
                None => Ok(()),
            }
        }
    }
}

/// Adds the values of functions.
fn push_functions<T: Told, N: Naming>(
    alloc: Global,
    told: &T,
    naming: &N,
    functions: &[Function],
    values: &mut Vec<Value>,
) -> Result<(), AllocError>
    ensures { OnOk result (values_view values.new.items ≡ values_view values.old.items
        ++ named_by (N.test naming.now) (spec.function_values (T.schemes told.now)
        (functions_of (map function_view functions.now)))) }
{
    for function in functions {
        let parameters = function.parameters.len();
        push_defined(
            alloc,
            told,
            naming,
            &function.title.name,
            parameters,
            values,
        )?;
    }
    Ok(())
}

/// Adds the values of a group.
fn push_group<T: Told, N: Naming>(
    alloc: Global,
    told: &T,
    naming: &N,
    group: &Group,
    values: &mut Vec<Value>,
) -> Result<(), AllocError>
    ensures { OnOk result (values_view values.new.items ≡ values_view values.old.items
        ++ named_by (N.test naming.now) (spec.group_values (T.schemes told.now) (group_view group.now))) }
{
    match group {
        Group::Together(functions) => push_functions(alloc, told, naming, functions, values),
        Group::Constant(title, _) => push_defined(alloc, told, naming, &title.name, 0, values),
        Group::Destructure(_, _) => Ok(()),
    }
}

/// Adds the values of a declaration.
fn push_declared<T: Told, N: Naming>(
    alloc: Global,
    told: &T,
    naming: &N,
    declaration: &Declaration,
    values: &mut Vec<Value>,
) -> Result<(), AllocError>
    ensures { OnOk result (values_view values.new.items ≡ values_view values.old.items
        ++ named_by (N.test naming.now) (spec.declared_values (T.schemes told.now)
        (declaration_view declaration.now))) }
{
    match declaration {
        Declaration::Given(_, _) => Ok(()),
        Declaration::Define(group) => push_group(alloc, told, naming, group, values),
    }
}

/// Adds the values of declarations.
fn push_all_declared<T: Told, N: Naming>(
    alloc: Global,
    told: &T,
    naming: &N,
    declarations: &[Declaration],
    values: &mut Vec<Value>,
) -> Result<(), AllocError>
    ensures { OnOk result (values_view values.new.items ≡ values_view values.old.items
        ++ named_by (N.test naming.now) (flat_map (spec.declared_values (T.schemes told.now))
        (map declaration_view declarations.now))) }
{
    for declaration in declarations {
        push_declared(alloc, told, naming, declaration, values)?;
    }
    Ok(())
}

/// Adds the value of a port, if its name passes.
fn push_port<N: Naming>(
    alloc: Global,
    naming: &N,
    port: &PortDeclaration,
    values: &mut Vec<Value>,
) -> Result<(), AllocError>
    ensures { OnOk result (values_view values.new.items ≡ values_view values.old.items
        ++ named_by (N.test naming.now) (spec.port_value (port_declaration_view port.now) ∷ [])) }
{
    if !naming.passes(&port.name) {
        return Ok(());
    }
    let written = written_scheme(alloc, &port.port_type)?;
    let scheme = rename(alloc, &written.scheme)?;
    push_value(values, &port.name, 0, scheme)
}

/// Adds the values of ports.
fn push_ports<N: Naming>(
    alloc: Global,
    naming: &N,
    ports: &[PortDeclaration],
    values: &mut Vec<Value>,
) -> Result<(), AllocError>
    ensures { OnOk result (values_view values.new.items ≡ values_view values.old.items
        ++ named_by (N.test naming.now) (map spec.port_value (map port_declaration_view ports.now))) }
{
    for port in ports {
        push_port(alloc, naming, port, values)?;
    }
    Ok(())
}

/// The values of a module whose names pass: definitions, with the types that are told, and ports.
pub(crate) fn values_named<T: Told, N: Naming>(
    alloc: Global,
    told: &T,
    naming: &N,
    module: &Module,
) -> Result<Vec<Value>, AllocError>
    ensures { IfOk result (λ v. values_view v.items
        ≡ named_by (N.test naming.now) (spec.module_values (module_view module.now) (T.schemes told.now))) }
{
    let mut values = Vec::new(alloc);
    push_all_declared(alloc, told, naming, &module.declarations, &mut values)?;
    push_ports(alloc, naming, &module.ports, &mut values)?;
    Ok(values)
}
