//! Headers, imports and declarations.

#![tactic(auto)]

ghost use Rattle.std.specs.Prelude.{◌≡◌, List, OnOk};
ghost use Rattle.elm_lexer.specs.Tokens.{Token};
ghost use Rattle.elm_grammar.specs.declared.action.Action.TheVariants.{AliasOf, ConstructorOf, EmptyModule, ExposeAll};
ghost use Rattle.elm_grammar.specs.declared.action.Action.TheVariants.{ExposeNothing, ExposeOperator, ExposeThese};
ghost use Rattle.elm_grammar.specs.declared.action.Action.TheVariants.{ExposeUpper, ExposeWord, FirstPort, HeaderOf};
ghost use Rattle.elm_grammar.specs.declared.action.Action.TheVariants.{ImportOf, Opening, PortHeader, PortModule};
ghost use Rattle.elm_grammar.specs.declared.action.Action.TheVariants.{PortOf, UnionOf, ValueOf, WithDeclaration};
ghost use Rattle.elm_grammar.specs.declared.action.Action.TheVariants.{WithHeader, WithImport};
ghost use Rattle.elm_grammar.specs.declared.action.Item.TheVariants as item;
ghost use Rattle.elm_grammar.specs.Values.{One, with_ports};
ghost use Rattle.elm_values.specs.Stack.{Acts, columns, pop, push, top};

use crate::items::{more_constructors, more_exposed};
use crate::lists::{first, move_to, one_item, turned};
use crate::make::definition;
use crate::nothing::{no_declaration, no_import, no_module};
use crate::stack::{
    put_constructor, put_declaration, put_exposed, put_exposing, put_header, put_import,
    put_module, put_words, skip_word, take_constructors, take_exposed_list, take_exposing,
    take_header, take_module, take_rest, take_type, take_types, take_word, take_words,
};
use crate::store::Store;
use elm_tree::tree::{Constructor, Declaration, Exposed, Exposing, Header, Import};
use std::alloc::{AllocError, Global};

/// A module without declarations.
pub fn empty_module(alloc: Global, stacks: &mut Store) -> Result<(), AllocError>
    ensures { OnOk result (Acts EmptyModule stacks.old stacks.new) }
{
    put_module(stacks, no_module(alloc))
}

/// A module with a header.
pub fn with_header(alloc: Global, stacks: &mut Store) -> Result<(), AllocError>
    ensures { OnOk result (Acts WithHeader stacks.old stacks.new) }
{
    let header = take_header(stacks);
    let mut built = take_module(alloc, stacks);
    built.head.header = Some(header);
    put_module(stacks, built)
}

/// A module with an import in front.
pub fn with_import(alloc: Global, stacks: &mut Store) -> Result<(), AllocError>
    ensures { OnOk result (Acts WithImport stacks.old stacks.new) }
{
    let mut built = take_module(alloc, stacks);
    move_to(
        &mut stacks.held.imports,
        &mut built.head.imports,
        no_import(),
    )?;
    put_module(stacks, built)
}

/// A module with a declaration in front.
pub fn with_declaration(alloc: Global, stacks: &mut Store) -> Result<(), AllocError>
    ensures { OnOk result (Acts WithDeclaration stacks.old stacks.new) }
{
    let mut built = take_module(alloc, stacks);
    move_to(
        &mut stacks.held.declarations,
        &mut built.declarations,
        no_declaration(),
    )?;
    put_module(stacks, built)
}

/// A module with the header of a port module.
pub fn port_module(alloc: Global, stacks: &mut Store) -> Result<(), AllocError>
    ensures { OnOk result (Acts PortModule stacks.old stacks.new) }
{
    skip_word(stacks);
    add_ports(stacks)?;
    with_header(alloc, stacks)
}

/// A module that begins with a port.
pub fn first_port(alloc: Global, stacks: &mut Store) -> Result<(), AllocError>
    ensures { OnOk result (Acts FirstPort stacks.old stacks.new) }
{
    let name = take_word(stacks);
    skip_word(stacks);
    let written = take_type(stacks);
    put_declaration(stacks, Declaration::Port(name, written))?;
    with_declaration(alloc, stacks)
}

/// A header.
pub fn header_of(stacks: &mut Store) -> Result<(), AllocError>
    ensures { OnOk result (Acts HeaderOf stacks.old stacks.new) }
{
    let name = take_word(stacks);
    skip_word(stacks);
    let exposes = take_exposing(stacks);
    put_header(
        stacks,
        Header {
            has_ports: false,
            name,
            exposes,
        },
    )
}

/// The last header becomes that of a port module.
fn add_ports(stacks: &mut Store) -> Result<(), AllocError>
    ensures { OnOk result ((tokens : List Token) → columns tokens stacks.new
        ≡ push (One item.Header) (with_ports (top tokens (One item.Header) (columns tokens stacks.old)))
        (pop (One item.Header) (columns tokens stacks.old))) }
{
    let mut header = take_header(stacks);
    header.has_ports = true;
    put_header(stacks, header)
}

/// The header of a port module.
pub fn port_header(stacks: &mut Store) -> Result<(), AllocError>
    ensures { OnOk result (Acts PortHeader stacks.old stacks.new) }
{
    skip_word(stacks);
    skip_word(stacks);
    add_ports(stacks)
}

/// `(..)`
pub fn expose_all(stacks: &mut Store) -> Result<(), AllocError>
    ensures { OnOk result (Acts ExposeAll stacks.old stacks.new) }
{
    skip_word(stacks);
    skip_word(stacks);
    put_exposing(stacks, Exposing::Everything)
}

/// Nothing is exposed.
pub fn expose_nothing(alloc: Global, stacks: &mut Store) -> Result<(), AllocError>
    ensures { OnOk result (Acts ExposeNothing stacks.old stacks.new) }
{
    put_exposing(stacks, Exposing::These(Vec::new(alloc)))
}

/// What is exposed by name.
pub fn expose_these(alloc: Global, stacks: &mut Store) -> Result<(), AllocError>
    ensures { OnOk result (Acts ExposeThese stacks.old stacks.new) }
{
    more_exposed(alloc, stacks)?;
    let list = turned(take_exposed_list(alloc, stacks));
    put_exposing(stacks, Exposing::These(list))
}

/// A value that is exposed.
pub fn expose_word(stacks: &mut Store) -> Result<(), AllocError>
    ensures { OnOk result (Acts ExposeWord stacks.old stacks.new) }
{
    let name = take_word(stacks);
    put_exposed(
        stacks,
        Exposed {
            name,
            is_open: false,
        },
    )
}

/// A type that is exposed.
pub fn expose_upper(alloc: Global, stacks: &mut Store) -> Result<(), AllocError>
    ensures { OnOk result (Acts ExposeUpper stacks.old stacks.new) }
{
    let name = take_word(stacks);
    let is_open = !take_words(alloc, stacks).is_empty();
    put_exposed(stacks, Exposed { name, is_open })
}

/// An operator that is exposed.
pub fn expose_operator(stacks: &mut Store) -> Result<(), AllocError>
    ensures { OnOk result (Acts ExposeOperator stacks.old stacks.new) }
{
    skip_word(stacks);
    let name = take_word(stacks);
    skip_word(stacks);
    put_exposed(
        stacks,
        Exposed {
            name,
            is_open: false,
        },
    )
}

/// `(..)` after a type.
pub fn opening(alloc: Global, stacks: &mut Store) -> Result<(), AllocError>
    ensures { OnOk result (Acts Opening stacks.old stacks.new) }
{
    skip_word(stacks);
    let dots = take_word(stacks);
    skip_word(stacks);
    let words = one_item(alloc, dots)?;
    put_words(stacks, words)
}

/// An import.
pub fn import_of(alloc: Global, stacks: &mut Store) -> Result<(), AllocError>
    ensures { OnOk result (Acts ImportOf stacks.old stacks.new) }
{
    skip_word(stacks);
    let name = take_word(stacks);
    let alias = first(take_words(alloc, stacks));
    let exposes = take_exposing(stacks);
    put_import(
        stacks,
        Import {
            name,
            alias,
            exposes,
        },
    )
}

/// A port.
pub fn port_of(stacks: &mut Store) -> Result<(), AllocError>
    ensures { OnOk result (Acts PortOf stacks.old stacks.new) }
{
    skip_word(stacks);
    let name = take_word(stacks);
    skip_word(stacks);
    let written = take_type(stacks);
    put_declaration(stacks, Declaration::Port(name, written))
}

/// A value.
pub fn value_of(stacks: &mut Store) -> Result<(), AllocError>
    ensures { OnOk result (Acts ValueOf stacks.old stacks.new) }
{
    let name = take_word(stacks);
    let rest = take_rest(stacks);
    put_declaration(stacks, Declaration::Value(definition(name, rest)))
}

/// An alias.
pub fn alias_of(alloc: Global, stacks: &mut Store) -> Result<(), AllocError>
    ensures { OnOk result (Acts AliasOf stacks.old stacks.new) }
{
    skip_word(stacks);
    let name = take_word(stacks);
    let parameters = turned(take_words(alloc, stacks));
    skip_word(stacks);
    let written = take_type(stacks);
    put_declaration(stacks, Declaration::Alias(name, parameters, written))
}

/// A custom type.
pub fn union_of(alloc: Global, stacks: &mut Store) -> Result<(), AllocError>
    ensures { OnOk result (Acts UnionOf stacks.old stacks.new) }
{
    let name = take_word(stacks);
    let parameters = turned(take_words(alloc, stacks));
    skip_word(stacks);
    more_constructors(alloc, stacks)?;
    let constructors = turned(take_constructors(alloc, stacks));
    put_declaration(stacks, Declaration::Union(name, parameters, constructors))
}

/// A constructor.
pub fn constructor_of(alloc: Global, stacks: &mut Store) -> Result<(), AllocError>
    ensures { OnOk result (Acts ConstructorOf stacks.old stacks.new) }
{
    let name = take_word(stacks);
    let arguments = turned(take_types(alloc, stacks));
    put_constructor(stacks, Constructor { name, arguments })
}
