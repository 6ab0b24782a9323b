//! The ports that a module declares.

ghost use Rattle.std.specs.Prelude.{◌≡◌, ◌++◌, ◌∷◌, [], map, flat_map, IfOk, OnOk, IsOkAnd};
ghost use Rattle.elm_tree.specs.View as tree_view;
ghost use Rattle.elm_tree.specs.Turns.{tokens_view};
ghost use Rattle.elm_canon.specs.View.{port_declaration_view};
ghost use Rattle.canon_env.specs.Naming as naming;
ghost use Rattle.canon_env.specs.Naming.{IsWorld};
ghost use Rattle.canon_module.specs.Resolve.{ports_in};

use crate::outcomes::put;
use crate::port::{Port, resolve};
use crate::written::{Declarations, Written};
use canon_env::env::World;
use elm_canon::tree::PortDeclaration;
use elm_lexer::token::Token;
use elm_tree::tree::Declaration;
use std::alloc::{AllocError, Global};

/// What a port declares.
fn declaration_part(port: Port) -> PortDeclaration
    ensures { result ≡ port.declaration }
{
    port.declaration
}

/// Adds what a port declares, if it is made.
fn push_declaration(
    ports: &mut Vec<PortDeclaration>,
    made: Result<Port, AllocError>,
) -> Result<(), AllocError>
    ensures { OnOk result (IsOkAnd made (λ port. ports.new.items ≡ ports.old.items ++ port.declaration ∷ [])) }
{
    match made {
        Ok(port) => put(ports, declaration_part(port)),
        Err(e) => Err(e),
    }
}

/// Adds the port that a declaration is, if it is one.
fn push_port(
    alloc: Global,
    tokens: &[Token<'_>],
    world: &World,
    declaration: &Written<'_>,
    ports: &mut Vec<PortDeclaration>,
) -> Result<(), AllocError>
    ensures { OnOk result ((w : naming.World) → IsWorld world.now w → map port_declaration_view ports.new.items
        ≡ map port_declaration_view ports.old.items
        ++ ports_in w (tree_view.declaration_view (tokens_view tokens.now) declaration.now)) }
{
    match declaration.get() {
        Declaration::Value(_) => Ok(()),
        Declaration::Port(name, written) => {
            let mut known = Vec::new(alloc);
            push_declaration(
                ports,
                resolve(alloc, tokens, world, *name, written, &mut known),
            )
        }
        Declaration::Union(_, _, _) => Ok(()),
        Declaration::Alias(_, _, _) => Ok(()),
    }
}

/// The ports that the declarations of a module declare, in written order. Their faults are those of its values.
pub(crate) fn ports(
    alloc: Global,
    tokens: &[Token<'_>],
    world: &World,
    declarations: &Declarations<'_>,
) -> Result<Vec<PortDeclaration>, AllocError>
    ensures { IfOk result (λ v. (w : naming.World) → IsWorld world.now w → map port_declaration_view v.items
        ≡ flat_map (ports_in w) (map (tree_view.declaration_view (tokens_view tokens.now)) declarations.now)) }
{
    let mut ports = Vec::new(alloc);
    for number in 0..declarations.len() {
        let declaration = declarations.at(number);
        push_port(alloc, tokens, world, &declaration, &mut ports)?;
    }
    Ok(ports)
}
