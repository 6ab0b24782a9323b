//! Whether a name is in a list.

ghost use Rattle.std.specs.Prelude.{◌≡◌, map};
ghost use Rattle.std.specs.Str.{bytes_eq};
ghost use Rattle.elm_type.specs.Ground.{contains};
ghost use Rattle.type_store.specs.Store.{field_names};
ghost use Rattle.type_store.specs.View.{field_view};

use crate::slot::FieldSlot;
use elm_base::names::Name;

/// Whether two names are the same.
fn same_name(first: &Name, second: &Name) -> bool
    ensures { result ≡ bytes_eq first.now second.now }
{
    first == second
}

/// Whether the name is one of the names.
pub(crate) fn is_in(name: &Name, names: &[Name]) -> bool
    ensures { result ≡ contains name.now names.now }
{
    for other in names {
        if same_name(name, other) {
            return true;
        }
    }
    false
}

/// Whether the name is that of one of the fields.
pub(crate) fn is_field(name: &Name, fields: &[FieldSlot]) -> bool
    ensures { result ≡ contains name.now (field_names (map field_view fields.now)) }
{
    for field in fields {
        if same_name(name, &field.name) {
            return true;
        }
    }
    false
}
