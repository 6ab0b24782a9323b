//! The constants of a definition.

ghost use Rattle.std.specs.Prelude.{◌≡◌, length, map, IfOk};
ghost use Rattle.elm_type.specs.View.{kind_view};
ghost use Rattle.infer_groups.specs.Given.{constants_at};

use elm_base::names::Name;
use elm_type::rigid::Rigid;
use elm_type::scheme::Kind;
use std::alloc::{AllocError, Global};

/// A copy of a place. The error means that memory ran out.
fn copy_place(alloc: Global, place: &[u32]) -> Result<Vec<u32>, AllocError>
    ensures { IfOk result (λ copy. copy.items ≡ place.now) }
{
    let mut copy = Vec::with_capacity(alloc, place.len())?;
    for number in place {
        copy.push(*number)?;
    }
    Ok(copy)
}

/// A copy of names. The error means that memory ran out.
fn copy_names(alloc: Global, names: &[Name]) -> Result<Vec<Name>, AllocError>
    ensures { IfOk result (λ copy. copy.items ≡ names.now) }
{
    let mut copy = Vec::with_capacity(alloc, names.len())?;
    for name in names {
        copy.push(name.clone()?)?;
    }
    Ok(copy)
}

/// Constants of these names and kinds, of the place `place`. The error means that memory ran out.
pub(crate) fn constants(
    alloc: Global,
    place: &[u32],
    names: &[Name],
    kinds: &[Kind],
) -> Result<Vec<Rigid>, AllocError>
    requires { length kinds.now ≡ length names.now }
    ensures { IfOk result (λ rigids. rigids.items ≡ constants_at place.now names.now (map kind_view kinds.now)) }
{
    let mut rigids = Vec::with_capacity(alloc, names.len())?;
    for at in 0..names.len() {
        let place = copy_place(alloc, place)?;
        let kind = &kinds[at];
        let lacks = copy_names(alloc, &kind.lacks)?;
        let rigid = Rigid::new(alloc, place, names[at].clone()?, kind.class, lacks)?;
        rigids.push(rigid)?;
    }
    Ok(rigids)
}
