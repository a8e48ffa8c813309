//! The words of the command line, read by the kit's `clap`: one level of subcommands, each with the required option `--store`
//! and the optional `--settings`. The two subcommands of a folder have a host, and the folder as a word without an option; `demo` has a number as such
//! a word, and `pull` a host and an address. The crate knows words, and opens nothing. The main clause of [`parse`]: a line is what `line_of`
//! of specs/ makes of the words, and `NoParse` comes only where that is none. `line_of` reads what clap itself says of a simple
//! command: there is a line where it finds no fault in the words and its matches give a subcommand with its store. clap takes any text
//! as a host or a kind: a line's host is a host's name, and its kind is `full` or `incr`.
//!
//! | Item | What it is |
//! |---|---|
//! | `CommandLine`, `Work` | the words, understood: the store, the settings, and what is to be done |
//! | `LineFault` | why there is no line |
//! | `parse` | the line of some words |
//! | `Parsed` | words with their line, which is read once |
//! | `Push`, `read_push` | the words of `push-folder`, which names no store and is read apart (`push_of`) |
//! | `USAGE`, `complaint`, `push_complaint` | how the program is called, and what is said of words that are no line, or no push |
//!
//! ```text
//! match parse(alloc, words) {
//!     Ok(line) => run(line.store, line.work),
//!     Err(LineFault::NoParse) => eprintln!(rt; "{}", complaint(alloc, words)?)?,
//!     Err(LineFault::Memory) => return status(6),
//! }
//! ```
//!
//! One more subcommand is a variant of `Work` and of `Task`, a function of its options in `commands`, and a row of `work_in` and
//! of `task_in`.
#![tactic(auto)]

mod commands;
mod hosts;
mod line;
mod matches;
mod parsed;
mod pushes;
mod usage;

pub use line::{CommandLine, LineFault, Work, parse};
pub use parsed::Parsed;
pub use pushes::{Push, read_push};
pub use usage::{USAGE, complaint, push_complaint};
