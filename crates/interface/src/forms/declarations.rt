//! Unions and aliases.

ghost use Rattle.std.specs.Prelude.{◌≡◌, OnOk, map, refl};
ghost use Rattle.std.proofs.lemmas.List.{map_push};
ghost use Rattle.elm_canon.specs.Tree as plain;
ghost use Rattle.elm_canon.specs.Unions as unions;
ghost use Rattle.elm_canon.specs.View.{types_view, union_declaration_view, alias_declaration_view};
ghost use Rattle.elm_canon.specs.declared.unions.Alternative as stored;
ghost use Rattle.elm_canon.specs.declared.unions.Tag.TheVariants as mark;
ghost use Rattle.interface.specs.Formats.{Puts};
ghost use Rattle.interface.specs.Interface.{union_view, alias_view};
ghost use Rattle.interface.specs.Reading.{Gives};
ghost use Rattle.interface.specs.Text.{mark_format, alternative_format, union_format, annotations_format};
ghost use Rattle.interface.specs.Text.{union_declaration_format, alias_declaration_format};

use super::lists::{Entry, list_at, put_list};
use super::parts::{
    count_at, flag_at, half_at, name_at, put_count, put_flag, put_half, put_name, put_tag, tag_at,
};
use super::steps::{annotation_at, annotations_at, put_annotation, put_annotations};
use crate::error::ReadError;
use crate::input::Input;
use elm_canon::tree::{AliasDeclaration, Fields, UnionDeclaration};
use elm_canon::unions::{Alternative, Tag, Union, UnionShape};
use std::alloc::{AllocError, Global};
use std::sync::Arc;

/// Adds the mark of a number.
#[tactic(auto, unfolding(crate::specs::Text::mark_format, crate::specs::Text::tag_format))]
fn put_number_mark(out: &mut Vec<u8>, number: i64) -> Result<(), AllocError>
    ensures { OnOk result (Puts mark_format out.old.items out.new.items (mark.Number number)) }
{
    if number >= 0 {
        put_tag(out, 2)?;
        put_half(out, number as u64)
    } else {
        put_tag(out, 3)?;
        put_half(out, (-(number + 1)) as u64)
    }
}

#[tactic(auto, unfolding(crate::specs::Text::mark_format, crate::specs::Text::tag_format))]
fn put_mark(out: &mut Vec<u8>, mark: Tag) -> Result<(), AllocError>
    ensures { OnOk result (Puts mark_format out.old.items out.new.items mark) }
{
    match mark {
        Tag::Blank => put_tag(out, 0),
        Tag::Truth(truth) => {
            put_tag(out, 1)?;
            put_flag(out, truth)
        }
        Tag::Number(number) => put_number_mark(out, number),
    }
}

#[tactic(auto, unfolding(crate::specs::Text::mark_format))]
fn mark_at(input: &mut Input) -> Result<Tag, ReadError>
    ensures { Gives (λ x. (x, input.new.rest.now)) result (mark_format.get input.old.rest.now) }
{
    match tag_at(input)? {
        0 => Ok(Tag::Blank),
        1 => Ok(Tag::Truth(flag_at(input)?)),
        2 => Ok(Tag::Number(half_at(input)? as i64)),
        3 => Ok(Tag::Number(-(half_at(input)? as i64) - 1)),
        _ => Err(ReadError::Refused),
    }
}

impl Entry for Alternative {
    ghost Plain = { stored.Alternative };

    ghost view = { λ alternative. alternative };

    ghost views = { λ alternatives. alternatives };

    ghost format = { alternative_format };

    #[tactic(auto, unfolding(crate::specs::Text::alternative_format))]
    fn put(&self, alloc: Global, out: &mut Vec<u8>) -> Result<(), AllocError> {
        put_name(alloc, out, &self.name)?;
        put_mark(out, self.tag)?;
        put_count(out, self.arity)
    }

    #[tactic(auto, unfolding(crate::specs::Text::alternative_format))]
    fn read(alloc: Global, input: &mut Input) -> Result<Alternative, ReadError> {
        let name = name_at(alloc, input)?;
        let tag = mark_at(input)?;
        let arity = count_at(input)?;
        Ok(Alternative { name, tag, arity })
    }

    ghost none = { refl };

    ghost more = { λ xs x. refl };
}

#[tactic(auto, unfolding(crate::specs::Text::union_format, crate::specs::Text::tag_format, crate::specs::Text::alternatives_format))]
fn put_shape(alloc: Global, out: &mut Vec<u8>, shape: &UnionShape) -> Result<(), AllocError>
    ensures { OnOk result (Puts union_format out.old.items out.new.items (unions.union_view shape.now)) }
{
    match shape {
        UnionShape::Tuple(parts) => {
            put_tag(out, 0)?;
            put_count(out, *parts)
        }
        UnionShape::List => put_tag(out, 1),
        UnionShape::Declared(module, name, alternatives) => {
            put_tag(out, 2)?;
            put_name(alloc, out, module)?;
            put_name(alloc, out, name)?;
            put_list(alloc, out, alternatives)
        }
    }
}

fn put_union(alloc: Global, out: &mut Vec<u8>, union: &Union) -> Result<(), AllocError>
    ensures { OnOk result (Puts union_format out.old.items out.new.items union.now) }
{
    put_shape(alloc, out, union.shape())
}

#[tactic(auto, unfolding(crate::specs::Text::union_format, crate::specs::Text::alternatives_format))]
fn shape_at(alloc: Global, input: &mut Input) -> Result<UnionShape, ReadError>
    ensures { Gives (λ x. (unions.union_view x, input.new.rest.now)) result (union_format.get input.old.rest.now) }
{
    match tag_at(input)? {
        0 => Ok(UnionShape::Tuple(count_at(input)?)),
        1 => Ok(UnionShape::List),
        2 => {
            let module = name_at(alloc, input)?;
            let name = name_at(alloc, input)?;
            let alternatives = list_at(alloc, input)?;
            Ok(UnionShape::Declared(module, name, alternatives))
        }
        _ => Err(ReadError::Refused),
    }
}

fn union_at(alloc: Global, input: &mut Input) -> Result<Union, ReadError>
    ensures { Gives (λ x. (x, input.new.rest.now)) result (union_format.get input.old.rest.now) }
{
    let shape = shape_at(alloc, input)?;
    Ok(Union::new(alloc, shape)?)
}

impl Entry for Fields {
    ghost Plain = { plain.Annotations };

    ghost view = { λ f. types_view f.types.items };

    ghost views = { map (λ f. types_view f.types.items) };

    ghost format = { annotations_format };

    fn put(&self, alloc: Global, out: &mut Vec<u8>) -> Result<(), AllocError> {
        put_annotations(alloc, out, &self.types)
    }

    fn read(alloc: Global, input: &mut Input) -> Result<Fields, ReadError> {
        Ok(Fields {
            types: annotations_at(alloc, input)?,
        })
    }

    ghost none = { refl };

    ghost more = { map_push (λ f. types_view f.types.items) };
}

#[tactic(auto, unfolding(crate::specs::Text::union_declaration_format, crate::specs::Text::names_format, crate::specs::Text::fields_format))]
fn put_union_declaration(
    alloc: Global,
    out: &mut Vec<u8>,
    declaration: &UnionDeclaration,
) -> Result<(), AllocError>
    ensures { OnOk result (Puts union_declaration_format out.old.items out.new.items
        (union_declaration_view declaration.now)) }
{
    put_name(alloc, out, &declaration.name)?;
    put_union(alloc, out, &declaration.union)?;
    put_list(alloc, out, &declaration.parameters)?;
    put_list(alloc, out, &declaration.fields)
}

#[tactic(auto, unfolding(crate::specs::Text::union_declaration_format, crate::specs::Text::names_format, crate::specs::Text::fields_format))]
fn union_declaration_at(alloc: Global, input: &mut Input) -> Result<UnionDeclaration, ReadError>
    ensures { Gives (λ x. (union_declaration_view x, input.new.rest.now)) result
        (union_declaration_format.get input.old.rest.now) }
{
    let name = name_at(alloc, input)?;
    let union = union_at(alloc, input)?;
    let parameters = list_at(alloc, input)?;
    let fields = list_at(alloc, input)?;
    Ok(UnionDeclaration {
        name,
        union,
        parameters,
        fields,
    })
}

impl Entry for Arc<UnionDeclaration, Global> {
    ghost Plain = { plain.UnionDeclaration };

    ghost view = { union_view };

    ghost views = { map union_view };

    ghost format = { union_declaration_format };

    fn put(&self, alloc: Global, out: &mut Vec<u8>) -> Result<(), AllocError> {
        put_union_declaration(alloc, out, self)
    }

    fn read(alloc: Global, input: &mut Input) -> Result<Arc<UnionDeclaration, Global>, ReadError> {
        let declaration = union_declaration_at(alloc, input)?;
        Ok(Arc::new(alloc, declaration)?)
    }

    ghost none = { refl };

    ghost more = { map_push union_view };
}

#[tactic(auto, unfolding(crate::specs::Text::alias_declaration_format, crate::specs::Text::names_format))]
fn put_alias_declaration(
    alloc: Global,
    out: &mut Vec<u8>,
    declaration: &AliasDeclaration,
) -> Result<(), AllocError>
    ensures { OnOk result (Puts alias_declaration_format out.old.items out.new.items
        (alias_declaration_view declaration.now)) }
{
    put_name(alloc, out, &declaration.name)?;
    put_list(alloc, out, &declaration.parameters)?;
    put_annotation(alloc, out, &declaration.body)?;
    put_flag(out, declaration.is_maker)
}

#[tactic(auto, unfolding(crate::specs::Text::alias_declaration_format, crate::specs::Text::names_format))]
fn alias_declaration_at(alloc: Global, input: &mut Input) -> Result<AliasDeclaration, ReadError>
    ensures { Gives (λ x. (alias_declaration_view x, input.new.rest.now)) result
        (alias_declaration_format.get input.old.rest.now) }
{
    let name = name_at(alloc, input)?;
    let parameters = list_at(alloc, input)?;
    let body = annotation_at(alloc, input)?;
    let is_maker = flag_at(input)?;
    Ok(AliasDeclaration {
        name,
        parameters,
        body,
        is_maker,
    })
}

impl Entry for Arc<AliasDeclaration, Global> {
    ghost Plain = { plain.AliasDeclaration };

    ghost view = { alias_view };

    ghost views = { map alias_view };

    ghost format = { alias_declaration_format };

    fn put(&self, alloc: Global, out: &mut Vec<u8>) -> Result<(), AllocError> {
        put_alias_declaration(alloc, out, self)
    }

    fn read(alloc: Global, input: &mut Input) -> Result<Arc<AliasDeclaration, Global>, ReadError> {
        let declaration = alias_declaration_at(alloc, input)?;
        Ok(Arc::new(alloc, declaration)?)
    }

    ghost none = { refl };

    ghost more = { map_push alias_view };
}
