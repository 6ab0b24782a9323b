//! Names of the source as names of the output, and the names of the parts of objects.

ghost use Rattle.std.specs.Prelude.{◌≡◌, IfOk};
ghost use Rattle.js_tree.specs.Postorder.{name_view};
ghost use Rattle.js_emit.specs.Names.{js_name, part_name};

use elm_base::names::Name;
use elm_base::units::Units;
use elm_canon::reference::Ref;
use itoa::Buffer;
use js_tree::tree;
use std::alloc::{AllocError, Global};

/// The units of a name, once more. The error means that memory ran out.
pub fn units_of(alloc: Global, name: &Name) -> Result<Units, AllocError>
    ensures { IfOk result (λ units. units ≡ name.now) }
{
    Ok(Units::from_vec(Vec::from_slice(alloc, name.as_slice())?))
}

/// The name in the output of what a name of the source means. The error means that memory ran out.
pub fn js_name(alloc: Global, name: &Ref) -> Result<tree::Name, AllocError>
    ensures { IfOk result (λ n. name_view n ≡ js_name name.now) }
{
    match name {
        Ref::Local(name) => Ok(tree::Name::Local(units_of(alloc, name)?)),
        Ref::Top(module, name) => Ok(tree::Name::Top {
            module: units_of(alloc, module)?,
            name: units_of(alloc, name)?,
        }),
    }
}

/// The name of the part of that number, as `a0`. The error means that memory ran out.
pub fn part_name(alloc: Global, number: usize) -> Result<Units, AllocError>
    ensures { IfOk result (λ units. units ≡ part_name number) }
{
    let mut buffer = Buffer::new();
    let digits = buffer.format(number).as_bytes();
    let mut units = Vec::with_capacity(alloc, 4)?;
    units.push(97u16)?;
    for digit in digits {
        units.push(u16::from(*digit))?;
    }
    Ok(Units::from_vec(units))
}
