//! Types of values.

ghost use Rattle.std.specs.Prelude.{◌≡◌, OnOk, map, refl};
ghost use Rattle.std.proofs.lemmas.List.{map_push};
ghost use Rattle.elm_type.specs.Types as plain;
ghost use Rattle.elm_type.specs.View.{type_view, kind_view, scheme_view};
ghost use Rattle.elm_type.specs.declared.node.Node as stored;
ghost use Rattle.interface.specs.Formats.{Puts};
ghost use Rattle.interface.specs.Interface as offered;
ghost use Rattle.interface.specs.Interface.{value_view};
ghost use Rattle.interface.specs.Reading.{Gives};
ghost use Rattle.interface.specs.Text.{class_format, kind_format, rigid_format, leaf_format, head_format};
ghost use Rattle.interface.specs.Text.{node_format, type_format, scheme_format, value_format};

use super::lists::{Entry, list_at, put_list};
use super::parts::{count_at, name_at, put_count, put_name, put_short, put_tag, short_at, tag_at};
use crate::error::ReadError;
use crate::input::Input;
use crate::shapes::are_of_one;
use crate::value::Value;
use elm_type::class::Class;
use elm_type::head::Head;
use elm_type::node::{Leaf, Node};
use elm_type::rigid::Rigid;
use elm_type::scheme::{Kind, Scheme};
use elm_type::ty::Ty;
use std::alloc::{AllocError, Global};

#[tactic(auto, unfolding(crate::specs::Text::class_format, crate::specs::Text::tag_format))]
fn put_class(out: &mut Vec<u8>, class: Class) -> Result<(), AllocError>
    ensures { OnOk result (Puts class_format out.old.items out.new.items class) }
{
    match class {
        Class::Any => put_tag(out, 0),
        Class::Number => put_tag(out, 1),
        Class::Comparable => put_tag(out, 2),
        Class::Appendable => put_tag(out, 3),
        Class::CompAppend => put_tag(out, 4),
    }
}

#[tactic(auto, unfolding(crate::specs::Text::class_format))]
fn class_at(input: &mut Input) -> Result<Class, ReadError>
    ensures { Gives (λ x. (x, input.new.rest.now)) result (class_format.get input.old.rest.now) }
{
    match tag_at(input) {
        Ok(0) => Ok(Class::Any),
        Ok(1) => Ok(Class::Number),
        Ok(2) => Ok(Class::Comparable),
        Ok(3) => Ok(Class::Appendable),
        Ok(4) => Ok(Class::CompAppend),
        Ok(_) => Err(ReadError::Refused),
        Err(error) => Err(error),
    }
}

impl Entry for Kind {
    ghost Plain = { plain.Kind };

    ghost view = { kind_view };

    ghost views = { map kind_view };

    ghost format = { kind_format };

    #[tactic(auto, unfolding(crate::specs::Text::kind_format, crate::specs::Text::names_format))]
    fn put(&self, alloc: Global, out: &mut Vec<u8>) -> Result<(), AllocError> {
        put_class(out, self.class)?;
        put_list(alloc, out, &self.lacks)
    }

    #[tactic(auto, unfolding(crate::specs::Text::kind_format, crate::specs::Text::names_format))]
    fn read(alloc: Global, input: &mut Input) -> Result<Kind, ReadError> {
        let class = class_at(input)?;
        let lacks = list_at(alloc, input)?;
        Ok(Kind { class, lacks })
    }

    ghost none = { refl };

    ghost more = { map_push kind_view };
}

#[tactic(auto, unfolding(crate::specs::Text::rigid_format, crate::specs::Text::place_format, crate::specs::Text::names_format))]
fn put_rigid(alloc: Global, out: &mut Vec<u8>, constant: &Rigid) -> Result<(), AllocError>
    ensures { OnOk result (Puts rigid_format out.old.items out.new.items constant.now) }
{
    put_list(alloc, out, constant.place())?;
    put_name(alloc, out, constant.name())?;
    put_class(out, constant.class())?;
    put_list(alloc, out, constant.lacks())
}

#[tactic(auto, unfolding(crate::specs::Text::rigid_format, crate::specs::Text::place_format, crate::specs::Text::names_format))]
fn rigid_at(alloc: Global, input: &mut Input) -> Result<Rigid, ReadError>
    ensures { Gives (λ x. (x, input.new.rest.now)) result (rigid_format.get input.old.rest.now) }
{
    let place = list_at(alloc, input)?;
    let name = name_at(alloc, input)?;
    let class = class_at(input)?;
    let lacks = list_at(alloc, input)?;
    Ok(Rigid::new(alloc, place, name, class, lacks)?)
}

#[tactic(auto, unfolding(crate::specs::Text::leaf_format, crate::specs::Text::tag_format))]
fn put_leaf(alloc: Global, out: &mut Vec<u8>, leaf: &Leaf) -> Result<(), AllocError>
    ensures { OnOk result (Puts leaf_format out.old.items out.new.items leaf.now) }
{
    match leaf {
        Leaf::Free(number) => {
            put_tag(out, 0)?;
            put_short(out, *number)
        }
        Leaf::Fixed(constant) => {
            put_tag(out, 1)?;
            put_rigid(alloc, out, constant)
        }
    }
}

#[tactic(auto, unfolding(crate::specs::Text::leaf_format))]
fn leaf_at(alloc: Global, input: &mut Input) -> Result<Leaf, ReadError>
    ensures { Gives (λ x. (x, input.new.rest.now)) result (leaf_format.get input.old.rest.now) }
{
    match tag_at(input)? {
        0 => Ok(Leaf::Free(short_at(input)?)),
        1 => Ok(Leaf::Fixed(rigid_at(alloc, input)?)),
        _ => Err(ReadError::Refused),
    }
}

#[tactic(auto, unfolding(crate::specs::Text::head_format, crate::specs::Text::tag_format))]
fn put_head(alloc: Global, out: &mut Vec<u8>, head: &Head) -> Result<(), AllocError>
    ensures { OnOk result (Puts head_format out.old.items out.new.items head.now) }
{
    match head {
        Head::Named(module, name) => {
            put_tag(out, 0)?;
            put_name(alloc, out, module)?;
            put_name(alloc, out, name)
        }
        Head::Function => put_tag(out, 1),
        Head::Tuple => put_tag(out, 2),
    }
}

#[tactic(auto, unfolding(crate::specs::Text::head_format))]
fn head_at(alloc: Global, input: &mut Input) -> Result<Head, ReadError>
    ensures { Gives (λ x. (x, input.new.rest.now)) result (head_format.get input.old.rest.now) }
{
    match tag_at(input)? {
        0 => {
            let module = name_at(alloc, input)?;
            let name = name_at(alloc, input)?;
            Ok(Head::Named(module, name))
        }
        1 => Ok(Head::Function),
        2 => Ok(Head::Tuple),
        _ => Err(ReadError::Refused),
    }
}

impl Entry for Node {
    ghost Plain = { stored.Node };

    ghost view = { λ node. node };

    ghost views = { λ nodes. nodes };

    ghost format = { node_format };

    #[tactic(auto, unfolding(crate::specs::Text::node_format, crate::specs::Text::tag_format))]
    fn put(&self, alloc: Global, out: &mut Vec<u8>) -> Result<(), AllocError> {
        match self {
            Node::Made(head, count) => {
                put_tag(out, 0)?;
                put_head(alloc, out, head)?;
                put_count(out, *count)
            }
            Node::Record(count) => {
                put_tag(out, 1)?;
                put_count(out, *count)
            }
            Node::Open(leaf, count) => {
                put_tag(out, 2)?;
                put_leaf(alloc, out, leaf)?;
                put_count(out, *count)
            }
            Node::Field(name) => {
                put_tag(out, 3)?;
                put_name(alloc, out, name)
            }
        }
    }

    #[tactic(auto, unfolding(crate::specs::Text::node_format))]
    fn read(alloc: Global, input: &mut Input) -> Result<Node, ReadError> {
        match tag_at(input)? {
            0 => {
                let head = head_at(alloc, input)?;
                let count = count_at(input)?;
                Ok(Node::Made(head, count))
            }
            1 => Ok(Node::Record(count_at(input)?)),
            2 => {
                let leaf = leaf_at(alloc, input)?;
                let count = count_at(input)?;
                Ok(Node::Open(leaf, count))
            }
            3 => Ok(Node::Field(name_at(alloc, input)?)),
            _ => Err(ReadError::Refused),
        }
    }

    ghost none = { refl };

    ghost more = { λ xs x. refl };
}

#[tactic(auto, unfolding(crate::specs::Text::type_format, crate::specs::Text::nodes_format))]
fn put_type(alloc: Global, out: &mut Vec<u8>, ty: &Ty) -> Result<(), AllocError>
    ensures { OnOk result (Puts type_format out.old.items out.new.items (type_view ty.now)) }
{
    put_list(alloc, out, &ty.nodes)
}

#[tactic(auto, unfolding(crate::specs::Text::type_format, crate::specs::Text::nodes_format))]
fn type_at(alloc: Global, input: &mut Input) -> Result<Ty, ReadError>
    ensures { Gives (λ x. (type_view x, input.new.rest.now)) result (type_format.get input.old.rest.now) }
{
    let nodes = list_at(alloc, input)?;
    if !are_of_one(alloc, &nodes)? {
        return Err(ReadError::Refused);
    }
    Ok(Ty { nodes })
}

#[tactic(auto, unfolding(crate::specs::Text::scheme_format, crate::specs::Text::kinds_format))]
fn put_scheme(alloc: Global, out: &mut Vec<u8>, scheme: &Scheme) -> Result<(), AllocError>
    ensures { OnOk result (Puts scheme_format out.old.items out.new.items (scheme_view scheme.now)) }
{
    put_type(alloc, out, &scheme.ty)?;
    put_list(alloc, out, &scheme.kinds)
}

#[tactic(auto, unfolding(crate::specs::Text::scheme_format, crate::specs::Text::kinds_format))]
fn scheme_at(alloc: Global, input: &mut Input) -> Result<Scheme, ReadError>
    ensures { Gives (λ x. (scheme_view x, input.new.rest.now)) result (scheme_format.get input.old.rest.now) }
{
    let ty = type_at(alloc, input)?;
    let kinds = list_at(alloc, input)?;
    Ok(Scheme { ty, kinds })
}

impl Entry for Value {
    ghost Plain = { offered.Value };

    ghost view = { value_view };

    ghost views = { map value_view };

    ghost format = { value_format };

    #[tactic(auto, unfolding(crate::specs::Text::value_format))]
    fn put(&self, alloc: Global, out: &mut Vec<u8>) -> Result<(), AllocError> {
        put_name(alloc, out, &self.name)?;
        put_count(out, self.parameters)?;
        put_scheme(alloc, out, &self.scheme)
    }

    #[tactic(auto, unfolding(crate::specs::Text::value_format))]
    fn read(alloc: Global, input: &mut Input) -> Result<Value, ReadError> {
        let name = name_at(alloc, input)?;
        let parameters = count_at(input)?;
        let scheme = scheme_at(alloc, input)?;
        Ok(Value {
            name,
            parameters,
            scheme,
        })
    }

    ghost none = { refl };

    ghost more = { map_push value_view };
}
