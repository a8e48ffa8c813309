//! What tests ask of an office: rows of an event and its reply in words, and how both are made. One set of rows serves the office in
//! memory and the store.
//!
//! A call: `expect_steps(alloc, &mut TreeOffice::new(alloc, Md5Namer), &[(Ask::Host("pc1"), "done")])?` adds a host.
#![tactic(auto)]

mod asks;
mod contents;
mod rows;
mod texts;

pub use asks::{Ask, event_of};
pub use contents::{CHAIN_EXAMPLES, POOL_EXAMPLES};
pub use rows::{DUMP_EXAMPLES, RETRY_EXAMPLES, TREE_EXAMPLES};
pub use texts::{expect_step, expect_steps, text_of};
