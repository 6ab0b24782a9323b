//! When heads and constants are the same.

ghost use Rattle.std.specs.Prelude.{◌≡◌, ◌↔◌, IsTrue};

use elm_base::names::Name;
use elm_type::head::Head;
use elm_type::rigid::Rigid;

/// Whether two names are the same.
fn same_name(first: &Name, second: &Name) -> bool
    ensures { IsTrue result ↔ first.now ≡ second.now }
{
    first == second
}

/// Whether two lists have the same names.
fn same_names(first: &[Name], second: &[Name]) -> bool
    ensures { IsTrue result ↔ first.now ≡ second.now }
{
    if first.len() != second.len() {
        return false;
    }
    for (index, name) in first.iter().enumerate() {
        if !same_name(name, &second[index]) {
            return false;
        }
    }
    true
}

/// Whether two heads are the same.
pub(crate) fn same_head(first: &Head, second: &Head) -> bool
    ensures { IsTrue result ↔ first.now ≡ second.now }
{
    match first {
        Head::Named(module, name) => match second {
            Head::Named(other_module, other) => {
                same_name(module, other_module) && same_name(name, other)
            }
            Head::Function | Head::Tuple => false,
        },
        Head::Function => matches!(second, Head::Function),
        Head::Tuple => matches!(second, Head::Tuple),
    }
}

/// Whether two constants are the same.
pub(crate) fn same_rigid(first: &Rigid, second: &Rigid) -> bool
    ensures { IsTrue result ↔ first.now ≡ second.now }
{
    first.place() == second.place()
        && same_name(first.name(), second.name())
        && first.class() == second.class()
        && same_names(first.lacks(), second.lacks())
}
