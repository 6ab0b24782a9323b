//! Lists of values of any type that has a format.

ghost use Rattle.std.specs.Prelude.{◌≡◌, List, [], ◌∷◌, ◌++◌, OnOk};
ghost use Rattle.interface.specs.Formats.{Format, Puts, list, times};
ghost use Rattle.interface.specs.Reading.{Gives};
ghost use Rattle.interface.specs.Text.{count_format};

use super::parts::{count_at, put_count};
use crate::error::ReadError;
use crate::input::Input;
use std::alloc::{AllocError, Global};

/// A value that stands in lists.
pub(crate) trait Entry: Sized + Drop {
    /// What it is as plain data.
    ghost Plain: { Type 0 };

    ghost view: { Self → Plain };

    /// That of each.
    ghost views: { List Self → List Plain };

    ghost format: { Format Plain };

    fn put(&self, alloc: Global, out: &mut Vec<u8>) -> Result<(), AllocError>
        ensures { OnOk result (Puts format out.old.items out.new.items (view self.now)) };

    fn read(alloc: Global, input: &mut Input) -> Result<Self, ReadError>
        ensures { Gives (λ x. (view x, input.new.rest.now)) result (format.get input.old.rest.now) };

    ghost none: { views [] ≡ [] };

    ghost more: { (xs : List Self) (x : Self) → views (xs ++ x ∷ []) ≡ views xs ++ view x ∷ [] };
}

/// Adds a list.
pub(crate) fn put_list<T: Entry>(
    alloc: Global,
    out: &mut Vec<u8>,
    items: &[T],
) -> Result<(), AllocError>
    ensures { OnOk result (Puts (list count_format T.format) out.old.items out.new.items (T.views items.now)) }
{
    put_count(out, items.len())?;
    for item in items {
        item.put(alloc, out)?;
    }
    Ok(())
}

/// So many values.
fn so_many_at<T: Entry>(alloc: Global, count: usize, input: &mut Input) -> Result<Vec<T>, ReadError>
    ensures { Gives (λ x. (T.views x.items, input.new.rest.now)) result
        (times T.format.get count input.old.rest.now) }
{
    let mut items = Vec::new(alloc);
    for _ in 0..count {
        match T::read(alloc, input) {
            Ok(item) => items.push(item)?,
            Err(error) => return Err(error),
        }
    }
    Ok(items)
}

/// A list.
pub(crate) fn list_at<T: Entry>(alloc: Global, input: &mut Input) -> Result<Vec<T>, ReadError>
    ensures { Gives (λ x. (T.views x.items, input.new.rest.now)) result
        ((list count_format T.format).get input.old.rest.now) }
{
    let count = count_at(input)?;
    so_many_at(alloc, count, input)
}
