//! From a reply of the office to the body of its response, in the compact JSON of the kit's `serde_json` with keys in byte order.
//! What may answer an event that changes the office is short, at most 512 bytes, and is written by this crate's own code into a
//! `ShortText`, which takes no memory; lists, nodes and frames take some. The crate knows events, answers and refusals, and no HTTP.
//! Its main clauses:
//!
//! | Function | Gives |
//! |---|---|
//! | `answer_text` | `option_map object_text (short_fields event answer)` |
//! | `answer_body` | `long_body answer`: `json_text (entries_data entries)` and its like, or the bytes of a frame in the stream of its tree |
//! | `refusal_text`, `refused_text` | `object_text (refusal_fields refusal)`, `object_text (refused name)` |
//!
//! The laws `short_replies_are_json` and `refusals_are_json` say that the short ones are such JSON, too.
//!
//! ```text
//! let body = answer_text(&event, &answer);             // {"dump":"1-0"}
//! let body = answer_body(alloc, &answer)?;             // {"hosts":["pc1","pc2"]}
//! let body = refused_text(b"NoRoute");                 // {"refused":"NoRoute"}
//! ```
//!
//! One more short answer is a row of `short_fields` and an arm of `answer_text`; a longer one, of `long_data`, `takes_memory` and
//! `answer_body`.
#![tactic(auto)]

mod answers;
mod entries;
mod frames;
mod json_text;
mod laws;
mod lists;
mod members;
mod refusals;
mod texts;

pub use answers::{answer_body, answer_text};
pub use laws::{refusals_are_json, short_replies_are_json};
pub use refusals::{refusal_text, refused_text};
