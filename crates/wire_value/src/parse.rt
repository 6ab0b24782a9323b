//! The wire value that bytes spell as JSON.

ghost use Rattle.std.specs.Prelude.{◌≡◌, IfOk, option_map};
ghost use Rattle.wire_value.specs.View.{wire_view};
ghost use Rattle.wire_value.specs.FromJson.{from_bytes};

use crate::Wire;
use crate::convert::from_json;
use serde_json::Value;
use std::alloc::{AllocError, Global};

/// The wire value that bytes spell as JSON. There is none where they spell no JSON in UTF-8, or where `from_json`
/// finds none.
#[tactic(auto, using(crate::proofs::Reading::bytes_read, crate::proofs::Reading::bytes_refused))]
pub fn read(alloc: Global, bytes: &[u8]) -> Result<Option<Wire>, AllocError>
    ensures { IfOk result (λ found. option_map wire_view found ≡ from_bytes bytes.now) }
{
    match Value::from_slice(alloc, bytes) {
        Ok(value) => from_json(alloc, &value),
        Err(error) => {
            if error.is_memory() {
                return Err(AllocError);
            }
            Ok(None)
        }
    }
}
