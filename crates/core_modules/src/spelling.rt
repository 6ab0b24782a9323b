//! What is left of signs after those of a type, if something is left before it.

ghost use Rattle.std.specs.Prelude.{◌≡◌, [], ◌∷◌, map};
ghost use Rattle.elm_canon.specs.Tree.{annotations_of, field_types_of};
ghost use Rattle.elm_canon.specs.View.{annotation_view, field_type_view, function_type};
ghost use Rattle.core_modules.specs.Signs.{IsVariable, IsNamed, IsFunction, IsTuple, IsRecord, IsField, left_in};
ghost use Rattle.core_modules.specs.Signs.{spelled, all_spelled, fields_spelled, signs_view, rest_view, is_nothing};
ghost use Rattle.core_modules.specs.Signs.{same_signs};

use crate::sign::Sign;
use elm_base::names::Name;
use elm_canon::tree::{Annotation, FieldType};
use elm_type::ascii::is_text;

/// What is left after a variable.
pub(crate) fn after_variable<'a>(name: &Name, signs: Option<&'a [Sign]>) -> Option<&'a [Sign]>
    ensures { rest_view result ≡ left_in (IsVariable name.now ∷ []) (rest_view signs.entry) }
{
    let Some([sign, rest @ ..]) = signs else {
        return None;
    };
    match sign {
        Sign::Variable(text) => {
            if is_text(name, text) {
                Some(rest)
            } else {
                None
            }
        }
        _ => None,
    }
}

/// What is left after a type of a module with so many arguments.
fn after_named<'a>(
    home: &Name,
    name: &Name,
    count: usize,
    signs: Option<&'a [Sign]>,
) -> Option<&'a [Sign]>
    ensures { rest_view result ≡ left_in (IsNamed home.now name.now count ∷ []) (rest_view signs.entry) }
{
    let Some([sign, rest @ ..]) = signs else {
        return None;
    };
    match sign {
        Sign::Named(place, text, arguments) => {
            if is_text(home, place) && is_text(name, text) && count == *arguments {
                Some(rest)
            } else {
                None
            }
        }
        _ => None,
    }
}

/// What is left after the sign of a function.
fn after_arrow(signs: Option<&[Sign]>) -> Option<&[Sign]>
    ensures { rest_view result ≡ left_in (IsFunction ∷ []) (rest_view signs.entry) }
{
    let Some([sign, rest @ ..]) = signs else {
        return None;
    };
    match sign {
        Sign::Function => Some(rest),
        _ => None,
    }
}

/// What is left after the sign of a tuple of so many parts.
fn after_tuple(count: usize, signs: Option<&[Sign]>) -> Option<&[Sign]>
    ensures { rest_view result ≡ left_in (IsTuple count ∷ []) (rest_view signs.entry) }
{
    let Some([sign, rest @ ..]) = signs else {
        return None;
    };
    match sign {
        Sign::Tuple(parts) => { if count == *parts { Some(rest) } else { None } }
        _ => None,
    }
}

/// What is left after the sign of a record of so many fields.
fn after_record(count: usize, signs: Option<&[Sign]>) -> Option<&[Sign]>
    ensures { rest_view result ≡ left_in (IsRecord count ∷ []) (rest_view signs.entry) }
{
    let Some([sign, rest @ ..]) = signs else {
        return None;
    };
    match sign {
        Sign::Record(fields) => { if count == *fields { Some(rest) } else { None } }
        _ => None,
    }
}

/// What is left after the name of a field.
fn after_field<'a>(name: &Name, signs: Option<&'a [Sign]>) -> Option<&'a [Sign]>
    ensures { rest_view result ≡ left_in (IsField name.now ∷ []) (rest_view signs.entry) }
{
    let Some([sign, rest @ ..]) = signs else {
        return None;
    };
    match sign {
        Sign::Field(text) => {
            if is_text(name, text) {
                Some(rest)
            } else {
                None
            }
        }
        _ => None,
    }
}

/// What is left after a type. It is walked no deeper than the signs go.
#[cycle(spelling)]
fn after_type<'a>(t: &Annotation, signs: Option<&'a [Sign]>) -> Option<&'a [Sign]>
    ensures { rest_view result ≡ left_in (spelled (annotation_view t.now)) (rest_view signs.entry) }
{
    if signs.is_none() {
        return None;
    }
    match t {
        Annotation::Variable(name) => after_variable(name, signs),
        Annotation::Named(home, name, types) => {
            let rest = after_named(home, name, types.len(), signs);
            after_types(types, rest)
        }
        Annotation::Function(types) => after_function(types, signs),
        Annotation::Tuple(types) => {
            let rest = after_tuple(types.len(), signs);
            after_types(types, rest)
        }
        Annotation::Record(base, fields) => match base {
            None => {
                let rest = after_record(fields.len(), signs);
                after_fields(fields, rest)
            }
            Some(_) => None,
        },
        Annotation::Shared(t) => after_type(t, signs),
    }
}

/// What is left after a function of all these but the last, which is the result.
#[cycle(spelling)]
fn after_function<'a>(types: &[Annotation], signs: Option<&'a [Sign]>) -> Option<&'a [Sign]>
    ensures { rest_view result
        ≡ left_in (spelled (function_type (map annotation_view types.now))) (rest_view signs.entry) }
{
    match types {
        [] => after_tuple(0, signs),
        [parameters @ .., last] => {
            let mut rest = signs;
            for t in parameters {
                rest = after_type(t, after_arrow(rest));
            }
            after_type(last, rest)
        }
    }
}

/// What is left after these types.
#[cycle(spelling)]
pub(crate) fn after_types<'a>(types: &[Annotation], signs: Option<&'a [Sign]>) -> Option<&'a [Sign]>
    ensures { rest_view result
        ≡ left_in (all_spelled (annotations_of (map annotation_view types.now))) (rest_view signs.entry) }
{
    let mut rest = signs;
    for t in types {
        rest = after_type(t, rest);
    }
    rest
}

/// What is left after the fields of a record.
#[cycle(spelling)]
fn after_fields<'a>(fields: &[FieldType], signs: Option<&'a [Sign]>) -> Option<&'a [Sign]>
    ensures { rest_view result
        ≡ left_in (fields_spelled (field_types_of (map field_type_view fields.now))) (rest_view signs.entry) }
{
    let mut rest = signs;
    for field in fields {
        rest = after_type(&field.field_type, after_field(&field.name, rest));
    }
    rest
}

/// Whether nothing is left.
pub(crate) fn is_nothing(rest: Option<&[Sign]>) -> bool
    ensures { result ≡ is_nothing (rest_view rest.entry) }
{
    match rest {
        Some(rest) => rest.len() == 0,
        None => false,
    }
}

/// Whether a type is spelled so.
pub(crate) fn is_spelled(t: &Annotation, signs: &[Sign]) -> bool
    ensures { result ≡ same_signs (spelled (annotation_view t.now)) (signs_view signs.now) }
{
    is_nothing(after_type(t, Some(signs)))
}
