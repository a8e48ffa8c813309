//! The command line and its commands over a disk, a clock, a link, a folder and workers at doors: `run`, whose clauses are the headline. It knows
//! notes with their statuses, and the layers below by their public clauses alone; no bytes of a store's file.
//!
//! ```text
//! let Done { note, disk, link, workers } = run(rt, alloc, &parsed, settings, disk, namer, &mut clock, link, workers,
//!     &mut folder, &mut NoProgress);
//! ```
#![tactic(auto)]

mod asked;
mod commands;
mod demos;
mod done;
mod folder_texts;
mod folders;
mod migrations;
mod nightly;
mod note;
mod opening;
mod pipe;
mod pulls;
mod saying;
mod servers;

pub use commands::run;
pub use done::Done;
pub use note::Note;
pub use serve_workers::{DirectPort, Store, Worker};
