//! The kinds of the variables of annotations.

ghost use Rattle.std.specs.Prelude.{◌≡◌, ◌++◌, ◌∷◌, [], map, nat_eq, IfOk, OnOk, if◌then◌else◌};
ghost use Rattle.std.specs.Str.{bytes_eq};
ghost use Rattle.std.specs.List.{starts_with};
ghost use Rattle.type_schemes.specs.Kinds.{HasNames, fields_beside, kind_in, noted_beside, pair_view};
ghost use Rattle.elm_type.specs.View.{kind_view};
ghost use Rattle.elm_type.specs.Ground.{contains};
ghost use Rattle.type_items.specs.Annotations.{name_class, once};

use crate::beside::Beside;
use elm_base::names::Name;
use elm_type::class::Class;
use elm_type::scheme::Kind;
use std::alloc::{AllocError, Global};
use std::collections::HashSet;

/// Whether a name begins with a text in ASCII.
fn begins(name: &Name, front: &[u8]) -> bool
    ensures { result ≡ starts_with nat_eq name.now front.now }
{
    let units = name.as_slice();
    let count = front.len();
    if units.len() < count {
        return false;
    }
    for place in 0..count {
        if units[place] != u16::from(front[place]) {
            return false;
        }
    }
    true
}

/// The class that the name of a variable says.
fn name_class(name: &Name) -> Class
    ensures { result ≡ name_class name.now }
{
    if begins(name, b"number") {
        return Class::Number;
    }
    if begins(name, b"comparable") {
        return Class::Comparable;
    }
    if begins(name, b"appendable") {
        return Class::Appendable;
    }
    if begins(name, b"compappend") {
        return Class::CompAppend;
    }
    Class::Any
}

/// Whether two names are the same.
fn is_same(first: &Name, second: &Name) -> bool
    ensures { result ≡ bytes_eq second.now first.now }
{
    second == first
}

/// Adds a name, unless it is there.
fn note(seen: &mut HashSet<Name>, names: &mut Vec<Name>, name: &Name) -> Result<(), AllocError>
    requires { HasNames seen.old names.old.items }
    ensures seen { OnOk result (HasNames seen.new names.new.items) }
    ensures names { OnOk result (names.new.items ≡ (if contains name.now names.old.items then names.old.items
        else names.old.items ++ name.now ∷ [])) }
{
    if seen.insert(name.clone()?)? {
        names.push(name.clone()?)?;
    }
    Ok(())
}

/// Adds the field of a pair, if it is beside the variable and not there.
fn note_beside(
    seen: &mut HashSet<Name>,
    names: &mut Vec<Name>,
    pair: &Beside,
    variable: &Name,
) -> Result<(), AllocError>
    requires { HasNames seen.old names.old.items }
    ensures seen { OnOk result (HasNames seen.new names.new.items) }
    ensures names { OnOk result (names.new.items ≡ noted_beside variable.now (pair_view pair.now) names.old.items) }
{
    if is_same(&pair.variable, variable) {
        note(seen, names, &pair.field)?;
        return Ok(());
    }
    Ok(())
}

/// The fields beside a variable, each once.
fn lacks(alloc: Global, pairs: &[Beside], variable: &Name) -> Result<Vec<Name>, AllocError>
    ensures { IfOk result (λ lacks. lacks.items ≡ once (fields_beside variable.now (map pair_view pairs.now)) []) }
{
    let mut lacks = Vec::new(alloc);
    let mut seen = HashSet::new(alloc);
    for pair in pairs {
        note_beside(&mut seen, &mut lacks, pair, variable)?;
    }
    Ok(lacks)
}

/// The kinds of variables.
pub fn kinds(alloc: Global, pairs: &[Beside], names: &[Name]) -> Result<Vec<Kind>, AllocError>
    ensures { IfOk result (λ kinds. map kind_view kinds.items ≡ map (kind_in (map pair_view pairs.now)) names.now) }
{
    let mut kinds = Vec::with_capacity(alloc, names.len())?;
    for name in names {
        kinds.push(Kind {
            class: name_class(name),
            lacks: lacks(alloc, pairs, name)?,
        })?;
    }
    Ok(kinds)
}
