//! The functions that operators name.

ghost use Rattle.std.specs.Prelude.{◌≡◌, map};
ghost use Rattle.std.specs.List.{list_any};
ghost use Rattle.elm_canon.specs.Names.{same_name};
ghost use Rattle.module_offers.specs.Offers as spec;

use elm_base::names::Name;
use elm_type::ascii::is_text;

/// Those of `Basics`.
const BASIC_FUNCTIONS: [&[u8]; 18] = [
    b"apL",
    b"apR",
    b"or",
    b"and",
    b"eq",
    b"neq",
    b"lt",
    b"gt",
    b"le",
    b"ge",
    b"append",
    b"add",
    b"sub",
    b"mul",
    b"idiv",
    b"pow",
    b"composeL",
    b"composeR",
];

/// Whether the name is one of the texts.
fn is_any(name: &Name, texts: &[&[u8]]) -> bool
    ensures { result ≡ list_any (same_name name.now) (map (λ t. t.now) texts.now) }
{
    for text in texts {
        if is_text(name, text) {
            return true;
        }
    }
    false
}

/// Whether an operator names the function `name` of the module `home`.
pub(crate) fn is_operator_function(home: &Name, name: &Name) -> bool
    ensures { result ≡ spec.is_operator_function home.now name.now }
{
    if is_text(home, b"Basics") {
        is_any(name, &BASIC_FUNCTIONS)
    } else {
        is_text(home, b"List") && is_text(name, b"cons")
    }
}
