//! Numbers and truth values.

ghost use Rattle.std.specs.Prelude.{◌≡◌, ◌++◌, OnOk};
ghost use Rattle.wire_value.specs.Text as spelled;

use itoa::Buffer;
use std::alloc::AllocError;

/// Adds a whole number.
pub fn put_int(out: &mut Vec<u8>, value: i64) -> Result<(), AllocError>
    ensures { OnOk result (out.new.items ≡ out.old.items ++ spelled.int_text value) }
{
    let mut buffer = Buffer::new();
    out.extend_from_slice(buffer.format(value).as_bytes())
}

/// The text of a truth value.
pub fn bool_bytes(value: bool) -> &'static [u8]
    ensures { result.now ≡ spelled.bool_text value }
{
    if value { b"true" } else { b"false" }
}
