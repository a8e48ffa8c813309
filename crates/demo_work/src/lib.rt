//! A job of sixty days over any `Port`: hosts are added and dumped, expired, cleaned and swept, by draws from one number, and each
//! backup that is left is read. Two servers that do as they should tell the same five lines for a number. It knows events and
//! their answers alone, and no store. The main clause is that of [`demo`], `Shows` of specs/Ends: the calls follow the script of the
//! number, `demo_script` of specs/Script, to its end or up to a refusal, and what is told is what their answers told.
//!
//! All that doesn't rest on answers is planned first, from the number alone: `plan` of specs/Plan is a list of asks, day by day. Then
//! one ask after the other becomes an event; what an answer brings on (each backup that was listed is opened, each open one is read to
//! its end and closed) is asked before what else is left.
//!
//! | Function | Gives |
//! |---|---|
//! | `demo` | `Shows`: how it ended, by the calls |
//! | `DemoEnd::text` | `text_of`: five lines, if it was done |
//!
//! ```text
//! let end = demo(alloc, &mut port, 1);
//! if let Some(text) = end.text() {
//!     write_all(&mut link, text.as_slice())?;
//! }
//! ```
#![tactic(auto)]

mod asks;
mod counts;
mod draws;
mod ends;
mod events;
mod follow_ups;
mod planning;
#[cfg(test)]
mod tests;
mod texts;
mod work;

pub use ends::{DemoEnd, Summary};
pub use work::demo;
