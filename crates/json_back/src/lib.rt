//! Bytes of JSON as values, and the law that what was written is read back: a value of texts, flags and integers of 64 bits whose
//! objects have their keys in order is what its compact text is read as. It stands on the kit's `json` and `serde_json` alone.
//!
//! | Item | What it is |
//! |---|---|
//! | `read_json` | the value that bytes are: `data_of bytes` |
//! | `texts_read_back`, `bytes_read_back` | the law, for a text and for bytes |
//!
//! ```text
//! match read_json(alloc, b"{\"number\":7}")? {
//!     Some(value) => value.get("number").and_then(Value::as_u64),
//!     None => None,
//! }
//! ```
//!
//! What is written of a value with literal keys is canonical by `tt`, `refl` and the ranges of its numbers.
#![tactic(auto)]

mod laws;
mod reading;

pub use laws::{bytes_read_back, texts_read_back};
pub use reading::read_json;
