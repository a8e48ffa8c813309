//! Bytes as a value.

ghost use Rattle.std.specs.Prelude.{◌≡◌, option_map, IfOk};
ghost use Rattle.serde_json.specs.View.{view};
ghost use Rattle.json_back.specs.Reading.{data_of};

use serde_json::Value;
use std::alloc::{AllocError, Global};

/// The value that bytes are; none, if they are no UTF-8 or no JSON.
pub fn read_json(alloc: Global, bytes: &[u8]) -> Result<Option<Value>, AllocError>
    ensures { IfOk result (λ value. option_map view value ≡ data_of bytes.now) }
{
    match Value::from_slice(alloc, bytes) {
        Ok(value) => Ok(Some(value)),
        Err(fault) => if fault.is_memory() {
            Err(AllocError)
        } else {
            Ok(None)
        },
    }
}
