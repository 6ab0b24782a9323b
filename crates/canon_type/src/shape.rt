//! The outermost form of a type.

ghost use Rattle.std.specs.Prelude.{◌≡◌};
ghost use Rattle.elm_canon.specs.View.{annotation_view};
ghost use Rattle.canon_type.specs.Shape.{shape_view, HasResult};

use elm_base::names::Name;
use elm_canon::tree::{Annotation, FieldType};

/// The outermost form of a type.
#[derive(Clone, Copy)]
pub enum Shape<'a> {
    Variable(&'a Name),
    Named(&'a Name, &'a Name, &'a [Annotation]),
    /// The first parameter, and the others with the result.
    Function(&'a Annotation, &'a [Annotation]),
    Tuple(&'a [Annotation]),
    Record(&'a [FieldType]),
    Extended(&'a Name, &'a [FieldType]),
}

/// The outermost form of a type.
pub fn shape_of(t: &Annotation) -> Shape<'_>
    ensures view { shape_view result ≡ annotation_view t.now }
    ensures has_result { HasResult result }
{
    match t {
        Annotation::Variable(a) => Shape::Variable(a),
        Annotation::Named(home, name, types) => Shape::Named(home, name, types),
        Annotation::Function(types) => match types.as_slice() {
            [] => Shape::Tuple(types),
            [only] => shape_of(only),
            [first, others @ ..] => Shape::Function(first, others),
        },
        Annotation::Tuple(types) => Shape::Tuple(types),
        Annotation::Record(base, fields) => match base {
            None => Shape::Record(fields),
            Some(a) => Shape::Extended(a, fields),
        },
        Annotation::Shared(t) => shape_of(t),
    }
}
