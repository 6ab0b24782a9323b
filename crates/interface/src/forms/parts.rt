//! Numbers and names.

ghost use Rattle.std.specs.Prelude.{◌≡◌, ◌≤◌, ℕ, OnOk, IfOk, refl};
ghost use Rattle.elm_canon.specs.Names as plain;
ghost use Rattle.interface.specs.Formats.{Puts};
ghost use Rattle.interface.specs.Reading.{Gives};
ghost use Rattle.interface.specs.Text.{tag_format, unit_format, short_format, half_format, count_format, flag_format};
ghost use Rattle.interface.specs.Text.{name_format};

use super::lists::{Entry, list_at, put_list};
use crate::digits::{put_number, take_number};
use crate::error::ReadError;
use crate::input::Input;
use elm_base::names::Name;
use elm_base::units::Units;
use std::alloc::{AllocError, Global};

/// Adds the number of a form.
#[tactic(auto, unfolding(crate::specs::Text::tag_format))]
pub(crate) fn put_tag(out: &mut Vec<u8>, tag: u8) -> Result<(), AllocError>
    ensures { OnOk result (Puts tag_format out.old.items out.new.items tag) }
{
    put_number(out, u64::from(tag))
}

/// The number of a form.
#[tactic(auto, unfolding(crate::specs::Text::tag_format))]
pub(crate) fn tag_at(input: &mut Input) -> Result<u64, ReadError>
    ensures { Gives (λ x. (x, input.new.rest.now)) result (tag_format.get input.old.rest.now) }
{
    take_number(input, 255)
}

impl Entry for u16 {
    ghost Plain = { ℕ };

    ghost view = { λ unit. unit };

    ghost views = { λ units. units };

    ghost format = { unit_format };

    #[tactic(auto, unfolding(crate::specs::Text::unit_format))]
    fn put(&self, _alloc: Global, out: &mut Vec<u8>) -> Result<(), AllocError> {
        put_number(out, u64::from(*self))
    }

    #[tactic(auto, unfolding(crate::specs::Text::unit_format))]
    fn read(_alloc: Global, input: &mut Input) -> Result<u16, ReadError> {
        match take_number(input, 65535) {
            Ok(number) => Ok(number as u16),
            Err(error) => Err(error),
        }
    }

    ghost none = { refl };

    ghost more = { λ xs x. refl };
}

/// Adds the number of a variable.
#[tactic(auto, unfolding(crate::specs::Text::short_format))]
pub(crate) fn put_short(out: &mut Vec<u8>, number: u32) -> Result<(), AllocError>
    ensures { OnOk result (Puts short_format out.old.items out.new.items number) }
{
    put_number(out, u64::from(number))
}

/// The number of a variable.
#[tactic(auto, unfolding(crate::specs::Text::short_format))]
pub(crate) fn short_at(input: &mut Input) -> Result<u32, ReadError>
    ensures { Gives (λ x. (x, input.new.rest.now)) result (short_format.get input.old.rest.now) }
{
    match take_number(input, 4294967295) {
        Ok(number) => Ok(number as u32),
        Err(error) => Err(error),
    }
}

impl Entry for u32 {
    ghost Plain = { ℕ };

    ghost view = { λ number. number };

    ghost views = { λ numbers. numbers };

    ghost format = { short_format };

    fn put(&self, _alloc: Global, out: &mut Vec<u8>) -> Result<(), AllocError> {
        put_short(out, *self)
    }

    fn read(_alloc: Global, input: &mut Input) -> Result<u32, ReadError> {
        short_at(input)
    }

    ghost none = { refl };

    ghost more = { λ xs x. refl };
}

/// Adds a number of 63 bits.
#[tactic(auto, unfolding(crate::specs::Text::half_format))]
pub(crate) fn put_half(out: &mut Vec<u8>, number: u64) -> Result<(), AllocError>
    requires { number ≤ 9223372036854775807 }
    ensures { OnOk result (Puts half_format out.old.items out.new.items number) }
{
    put_number(out, number)
}

/// A number of 63 bits.
#[tactic(auto, unfolding(crate::specs::Text::half_format))]
pub(crate) fn half_at(input: &mut Input) -> Result<u64, ReadError>
    ensures half { Gives (λ x. (x, input.new.rest.now)) result (half_format.get input.old.rest.now) }
    ensures within { IfOk result (λ x. x ≤ 9223372036854775807) }
{
    take_number(input, 9223372036854775807)
}

/// Adds how many there are.
#[tactic(auto, unfolding(crate::specs::Text::count_format))]
pub(crate) fn put_count(out: &mut Vec<u8>, count: usize) -> Result<(), AllocError>
    ensures { OnOk result (Puts count_format out.old.items out.new.items count) }
{
    put_number(out, count as u64)
}

/// How many there are.
#[tactic(auto, unfolding(crate::specs::Text::count_format))]
pub(crate) fn count_at(input: &mut Input) -> Result<usize, ReadError>
    ensures { Gives (λ x. (x, input.new.rest.now)) result (count_format.get input.old.rest.now) }
{
    match take_number(input, 18446744073709551615) {
        Ok(number) => Ok(number as usize),
        Err(error) => Err(error),
    }
}

/// Adds whether something is so.
#[tactic(auto, unfolding(crate::specs::Text::flag_format, crate::specs::Text::tag_format))]
pub(crate) fn put_flag(out: &mut Vec<u8>, flag: bool) -> Result<(), AllocError>
    ensures { OnOk result (Puts flag_format out.old.items out.new.items flag) }
{
    if flag {
        put_tag(out, 1)
    } else {
        put_tag(out, 0)
    }
}

/// Whether something is so.
#[tactic(auto, unfolding(crate::specs::Text::flag_format))]
pub(crate) fn flag_at(input: &mut Input) -> Result<bool, ReadError>
    ensures { Gives (λ x. (x, input.new.rest.now)) result (flag_format.get input.old.rest.now) }
{
    match tag_at(input) {
        Ok(0) => Ok(false),
        Ok(1) => Ok(true),
        Ok(_) => Err(ReadError::Refused),
        Err(error) => Err(error),
    }
}

/// Adds a name.
#[tactic(auto, unfolding(crate::specs::Text::name_format))]
pub(crate) fn put_name(alloc: Global, out: &mut Vec<u8>, name: &Name) -> Result<(), AllocError>
    ensures { OnOk result (Puts name_format out.old.items out.new.items name.now) }
{
    put_list(alloc, out, name.as_slice())
}

/// A name.
#[tactic(auto, unfolding(crate::specs::Text::name_format))]
pub(crate) fn name_at(alloc: Global, input: &mut Input) -> Result<Name, ReadError>
    ensures { Gives (λ x. (x, input.new.rest.now)) result (name_format.get input.old.rest.now) }
{
    let units = list_at(alloc, input)?;
    Ok(Name::new(alloc, Units::from_vec(units))?)
}

impl Entry for Name {
    ghost Plain = { plain.Name };

    ghost view = { λ name. name };

    ghost views = { λ names. names };

    ghost format = { name_format };

    fn put(&self, alloc: Global, out: &mut Vec<u8>) -> Result<(), AllocError> {
        put_name(alloc, out, self)
    }

    fn read(alloc: Global, input: &mut Input) -> Result<Name, ReadError> {
        name_at(alloc, input)
    }

    ghost none = { refl };

    ghost more = { λ xs x. refl };
}
