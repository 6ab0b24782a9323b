//! Interfaces of their parts, and their texts.

ghost use Rattle.std.specs.Prelude.{◌≡◌, ◌↔◌, map, IsTrue, IfOk};
ghost use Rattle.std.specs.Ordering.{nat_cmp};
ghost use Rattle.std.specs.Cmp.Lexicographic.{slice_cmp};
ghost use Rattle.interface.specs.Interface.{value_view, union_view, alias_view, in_order, interface_of, parts_view};
ghost use Rattle.interface.specs.Text.{text_of, Fits, IsTextOf};
ghost use Rattle.interface.specs.View.{interface_view};

use crate::forms::lists::put_list;
use crate::offered::Interface;
use crate::value::Value;
use elm_canon::tree::{AliasDeclaration, UnionDeclaration};
use std::alloc::{AllocError, Global};
use std::cmp::Ordering;
use std::sync::Arc;

/// How two values stand by their names.
fn value_order(first: &Value, second: &Value) -> Ordering
    ensures { result ≡ slice_cmp nat_cmp (value_view first.now).name (value_view second.now).name }
{
    first.name.cmp(&second.name)
}

/// The values in the order of their names.
fn sorted_values(values: Vec<Value>) -> Result<Vec<Value>, AllocError>
    ensures { IfOk result (λ sorted. map value_view sorted.items ≡ in_order (λ v. v.name)
        (map value_view values.items)) }
{
    let mut values = values;
    values.sort_by(|first, second| value_order(first, second))?;
    Ok(values)
}

/// How two unions stand by their names.
fn union_order(
    first: &Arc<UnionDeclaration, Global>,
    second: &Arc<UnionDeclaration, Global>,
) -> Ordering
    ensures { result ≡ slice_cmp nat_cmp (union_view first.now).name (union_view second.now).name }
{
    first.name.cmp(&second.name)
}

/// The unions in the order of their names.
fn sorted_unions(
    unions: Vec<Arc<UnionDeclaration, Global>>,
) -> Result<Vec<Arc<UnionDeclaration, Global>>, AllocError>
    ensures { IfOk result (λ sorted. map union_view sorted.items ≡ in_order (λ u. u.name)
        (map union_view unions.items)) }
{
    let mut unions = unions;
    unions.sort_by(|first, second| union_order(first, second))?;
    Ok(unions)
}

/// How two aliases stand by their names.
fn alias_order(
    first: &Arc<AliasDeclaration, Global>,
    second: &Arc<AliasDeclaration, Global>,
) -> Ordering
    ensures { result ≡ slice_cmp nat_cmp (alias_view first.now).name (alias_view second.now).name }
{
    first.name.cmp(&second.name)
}

/// The aliases in the order of their names.
fn sorted_aliases(
    aliases: Vec<Arc<AliasDeclaration, Global>>,
) -> Result<Vec<Arc<AliasDeclaration, Global>>, AllocError>
    ensures { IfOk result (λ sorted. map alias_view sorted.items ≡ in_order (λ a. a.name)
        (map alias_view aliases.items)) }
{
    let mut aliases = aliases;
    aliases.sort_by(|first, second| alias_order(first, second))?;
    Ok(aliases)
}

/// The text of the parts of an interface.
#[tactic(auto, unfolding(crate::specs::Text::interface_format, crate::specs::Text::values_format, crate::specs::Text::unions_format, crate::specs::Text::aliases_format, crate::specs::Text::text_of,))]
fn text_of_parts(
    alloc: Global,
    values: &[Value],
    unions: &[Arc<UnionDeclaration, Global>],
    aliases: &[Arc<AliasDeclaration, Global>],
) -> Result<Vec<u8>, AllocError>
    ensures { IfOk result (λ text. IsTextOf (parts_view values.now unions.now aliases.now) text.items) }
{
    let mut text = Vec::new(alloc);
    put_list(alloc, &mut text, values)?;
    put_list(alloc, &mut text, unions)?;
    put_list(alloc, &mut text, aliases)?;
    Ok(text)
}

impl Interface {
    /// The interface of the values `values`, ports among them, the unions `unions`, of which one that hides its
    /// constructors has none, and the aliases `aliases`, each in any order. It has them in ascending order of their
    /// names, by their UTF-16 units; those of one name keep their order. The error means that memory ran out.
    pub fn new(
        alloc: Global,
        values: Vec<Value>,
        unions: Vec<Arc<UnionDeclaration, Global>>,
        aliases: Vec<Arc<AliasDeclaration, Global>>,
    ) -> Result<Interface, AllocError>
        ensures { IfOk result (λ interface. interface_view interface
            ≡ interface_of (map value_view values.items) (map union_view unions.items) (map alias_view aliases.items)) }
    {
        let values = sorted_values(values)?;
        let unions = sorted_unions(unions)?;
        let aliases = sorted_aliases(aliases)?;
        let text = text_of_parts(alloc, &values, &unions, &aliases)?;
        Ok(Interface {
            values,
            unions,
            aliases,
            text,
        })
    }

    /// The values, ports among them, in ascending order of their names.
    pub fn values(&self) -> &[Value]
        ensures { map value_view result.now ≡ (interface_view self.now).values }
    {
        self.values.as_slice()
    }

    /// The unions, in ascending order of their names. One that hides its constructors has none.
    pub fn unions(&self) -> &[Arc<UnionDeclaration, Global>]
        ensures { map union_view result.now ≡ (interface_view self.now).unions }
    {
        self.unions.as_slice()
    }

    /// The aliases, in ascending order of their names.
    pub fn aliases(&self) -> &[Arc<AliasDeclaration, Global>]
        ensures { map alias_view result.now ≡ (interface_view self.now).aliases }
    {
        self.aliases.as_slice()
    }
}

/// Whether two texts are the same.
fn same_text(first: &[u8], second: &[u8]) -> bool
    ensures { IsTrue result ↔ first.now ≡ second.now }
{
    first == second
}

/// Whether two interfaces are the same: whether they offer the same values with the same types and numbers of written
/// parameters, the same unions and the same aliases.
pub fn same(first: &Interface, second: &Interface) -> bool
    ensures { IsTrue result ↔ interface_view first.now ≡ interface_view second.now }
{
    same_text(&first.text, &second.text)
}

/// The text of the interface `interface`, which no other has. The error means that memory ran out.
pub fn to_text(alloc: Global, interface: &Interface) -> Result<Vec<u8>, AllocError>
    ensures text { IfOk result (λ text. text.items ≡ text_of (interface_view interface.now)) }
    // What was written is read again.
    ensures fits { Fits (interface_view interface.now) }
{
    Vec::from_slice(alloc, &interface.text)
}
