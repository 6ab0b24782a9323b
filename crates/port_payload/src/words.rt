//! Words, by their units.

ghost use Rattle.std.specs.Prelude.{◌≡◌};
ghost use Rattle.std.specs.List.{list_all};
ghost use Rattle.elm_canon.specs.Spelled as spec;

use elm_base::names::Name;

/// Whether a unit is a letter of ASCII.
fn is_letter(unit: u16) -> bool
    ensures { result ≡ spec.is_letter unit }
{
    65 <= unit && unit <= 90 || 97 <= unit && unit <= 122
}

/// Whether a unit may stand in a word.
fn is_name_unit(unit: u16) -> bool
    ensures { result ≡ spec.is_name_unit unit }
{
    is_letter(unit) || (48 <= unit && unit <= 57 || unit == 95) || 128 <= unit
}

/// Whether all of these units may.
fn are_name_units(units: &[u16]) -> bool
    ensures { result ≡ list_all spec.is_name_unit units.now }
{
    for unit in units {
        if !is_name_unit(*unit) {
            return false;
        }
    }
    true
}

/// Whether the name is a word.
pub(crate) fn is_word(name: &Name) -> bool
    ensures { result ≡ spec.is_word name.now }
{
    match name.as_slice() {
        [] => false,
        [first, rest @ ..] => is_letter(*first) && are_name_units(rest),
    }
}
