//! The unions that a module declares.

ghost use Rattle.std.specs.Prelude.{◌≡◌, [], ◌∷◌, map, flat_map, Some};
ghost use Rattle.std.specs.List.{list_any};
ghost use Rattle.elm_canon.specs.View.{types_view, union_declaration_view};
ghost use Rattle.elm_canon.specs.Names.{same_name};
ghost use Rattle.core_modules.specs.Signs.{IsFields, IsMaker, IsUnion, IsVariable, left_in, signs_view, rest_view};
ghost use Rattle.core_modules.specs.Signs.{union_spelled, constructor_spelled, maker_sign, same_signs};
ghost use Rattle.elm_meaning.specs.Seen as seen;

use crate::sign::Sign;
use crate::spelling::{after_types, after_variable, is_nothing};
use elm_base::names::Name;
use elm_canon::tree::{Fields, UnionDeclaration};
use elm_canon::unions::{Alternative, Tag, UnionShape};
use elm_type::ascii::is_text;
use std::alloc::Global;
use std::sync::Arc;

/// Whether two tags are the same.
fn same_tag(first: Tag, second: Tag) -> bool
    ensures { result ≡ seen.same_tag first second }
{
    match (first, second) {
        (Tag::Number(m), Tag::Number(n)) => m == n,
        (Tag::Truth(a), Tag::Truth(b)) => a == b,
        (Tag::Blank, Tag::Blank) => true,
        _ => false,
    }
}

/// What is left after the sign of a union, which has that name and is `own` of the module `home`.
fn after_head<'a>(
    name: &Name,
    home: &Name,
    own: &Name,
    constructors: usize,
    parameters: usize,
    signs: Option<&'a [Sign]>,
) -> Option<&'a [Sign]>
    ensures { rest_view result
        ≡ left_in (IsUnion name.now home.now own.now constructors parameters ∷ []) (rest_view signs.entry) }
{
    let Some([sign, rest @ ..]) = signs else {
        return None;
    };
    match sign {
        Sign::Union(text, place, makers, variables) => {
            if is_text(name, text)
                && is_text(home, place)
                && is_text(own, text)
                && constructors == *makers
                && parameters == *variables
            {
                Some(rest)
            } else {
                None
            }
        }
        _ => None,
    }
}

/// What is left after a constructor.
fn after_maker<'a>(constructor: &Alternative, signs: Option<&'a [Sign]>) -> Option<&'a [Sign]>
    ensures { rest_view result ≡ left_in (maker_sign constructor.now ∷ []) (rest_view signs.entry) }
{
    let Some([sign, rest @ ..]) = signs else {
        return None;
    };
    match sign {
        Sign::Maker(name, tag, arity) => {
            if is_text(&constructor.name, name)
                && same_tag(constructor.tag, *tag)
                && constructor.arity == *arity
            {
                Some(rest)
            } else {
                None
            }
        }
        _ => None,
    }
}

/// What is left after the sign of so many fields.
fn after_count(count: usize, signs: Option<&[Sign]>) -> Option<&[Sign]>
    ensures { rest_view result ≡ left_in (IsFields count ∷ []) (rest_view signs.entry) }
{
    let Some([sign, rest @ ..]) = signs else {
        return None;
    };
    match sign {
        Sign::Fields(fields) => { if count == *fields { Some(rest) } else { None } }
        _ => None,
    }
}

/// What is left after constructors.
fn after_makers<'a>(constructors: &[Alternative], signs: Option<&'a [Sign]>) -> Option<&'a [Sign]>
    ensures { rest_view result ≡ left_in (map maker_sign constructors.now) (rest_view signs.entry) }
{
    let mut rest = signs;
    for constructor in constructors {
        rest = after_maker(constructor, rest);
    }
    rest
}

/// What is left after variables.
fn after_variables<'a>(names: &[Name], signs: Option<&'a [Sign]>) -> Option<&'a [Sign]>
    ensures { rest_view result ≡ left_in (map IsVariable names.now) (rest_view signs.entry) }
{
    let mut rest = signs;
    for name in names {
        rest = after_variable(name, rest);
    }
    rest
}

/// What is left after the fields of a constructor.
fn after_fields<'a>(fields: &Fields, signs: Option<&'a [Sign]>) -> Option<&'a [Sign]>
    ensures { rest_view result
        ≡ left_in (constructor_spelled (types_view fields.now.types.items)) (rest_view signs.entry) }
{
    let rest = after_count(fields.types.len(), signs);
    after_types(&fields.types, rest)
}

/// What is left after the fields of constructors.
fn after_all_fields<'a>(all: &[Fields], signs: Option<&'a [Sign]>) -> Option<&'a [Sign]>
    ensures { rest_view result
        ≡ left_in (flat_map constructor_spelled (map (λ f. types_view f.types.items) all.now)) (rest_view signs.entry) }
{
    let mut rest = signs;
    for fields in all {
        rest = after_fields(fields, rest);
    }
    rest
}

/// What is left after a union.
fn after_union<'a>(union: &UnionDeclaration, signs: &'a [Sign]) -> Option<&'a [Sign]>
    ensures { rest_view result
        ≡ left_in (union_spelled (union_declaration_view union.now)) (Some (signs_view signs.now)) }
{
    match union.union.shape() {
        UnionShape::Tuple(_) => None,
        UnionShape::List => None,
        UnionShape::Declared(home, own, constructors) => {
            let rest = after_head(
                &union.name,
                home,
                own,
                constructors.len(),
                union.parameters.len(),
                Some(signs),
            );
            let rest = after_makers(constructors, rest);
            let rest = after_variables(&union.parameters, rest);
            after_all_fields(&union.fields, rest)
        }
    }
}

/// Whether a union is spelled so.
fn is_union(union: &UnionDeclaration, signs: &[Sign]) -> bool
    ensures { result ≡ same_signs (union_spelled (union_declaration_view union.now)) (signs_view signs.now) }
{
    is_nothing(after_union(union, signs))
}

/// Whether one of the unions is spelled so.
pub(crate) fn has_spelled(unions: &[Arc<UnionDeclaration, Global>], signs: &[Sign]) -> bool
    ensures { result ≡ list_any (λ u. same_signs (union_spelled u) (signs_view signs.now))
        (map (λ u. union_declaration_view u.value) unions.now) }
{
    for union in unions {
        if is_union(union, signs) {
            return true;
        }
    }
    false
}

/// Whether one of the unions has that name.
pub(crate) fn has_named(unions: &[Arc<UnionDeclaration, Global>], name: &[u8]) -> bool
    ensures { result ≡ list_any (λ u. same_name u.name name.now)
        (map (λ u. union_declaration_view u.value) unions.now) }
{
    for union in unions {
        if is_text(&union.name, name) {
            return true;
        }
    }
    false
}
