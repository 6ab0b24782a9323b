//! The truth values.

ghost use Rattle.std.specs.Prelude.{◌≡◌, codes};
ghost use Rattle.elm_canon.specs.View.{union_declaration_view};
ghost use Rattle.canon_env.specs.Env.{declared_alternatives};
ghost use Rattle.canon_type.specs.Unions.{is_type};
ghost use Rattle.module_offers.specs.Faults as spec;

use elm_base::names::Name;
use elm_canon::tree::UnionDeclaration;
use elm_canon::unions::{Alternative, UnionShape};
use elm_type::ascii::is_text;

/// Whether these are two constructors at most, without fields.
fn are_truths(constructors: &[Alternative]) -> bool
    ensures { result ≡ spec.are_truths constructors.now }
{
    if constructors.len() > 2 {
        return false;
    }
    for constructor in constructors {
        if constructor.arity != 0 {
            return false;
        }
    }
    true
}

/// Whether the constructors of a union are such.
fn has_truths(union: &UnionDeclaration) -> bool
    ensures { result ≡ spec.are_truths (declared_alternatives (union_declaration_view union.now).union) }
{
    match union.union.shape() {
        UnionShape::Tuple(_) => true,
        UnionShape::List => true,
        UnionShape::Declared(_, _, constructors) => are_truths(constructors),
    }
}

/// Whether a union of the module `home` is that of the truth values.
fn is_bool(home: &Name, union: &UnionDeclaration) -> bool
    ensures { result ≡ is_type (codes "Basics") (codes "Bool") home.now (union_declaration_view union.now).name }
{
    is_text(home, b"Basics") && is_text(&union.name, b"Bool")
}

/// Whether a union of the module `home` is that of the truth values, and is not as they are.
pub(crate) fn is_no_bool(home: &Name, union: &UnionDeclaration) -> bool
    ensures { result ≡ spec.is_no_bool home.now (union_declaration_view union.now) }
{
    is_bool(home, union) && !has_truths(union)
}
