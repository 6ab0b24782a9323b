//! Names that are known.

ghost use Rattle.std.specs.Prelude.{◌≡◌};
ghost use Rattle.std.specs.Str.{bytes_eq};

use elm_base::names::Name;

/// Whether the name `name` is the text `text`, which is in ASCII.
pub fn is_text(name: &Name, text: &[u8]) -> bool
    ensures { result ≡ bytes_eq name.now text.now }
{
    let units = name.as_slice();
    if units.len() != text.len() {
        return false;
    }
    for index in 0..text.len() {
        if units[index] != u16::from(text[index]) {
            return false;
        }
    }
    true
}
