//! The events of open dumps in a store at work: a dump is opened, anew or from a host's partial, nodes are put into its tree,
//! paths are removed, and it is dropped. The crate knows the parts of a store, and no other event.
//!
//! Each row of an open dump, and of the base that it began with, claims the content that it names, so that no cleaning takes
//! it away and no sweep drops a file that was staged for it.
//!
//! | Function | What it does |
//! |---|---|
//! | [`open_dump`] | opens a dump of a host: a full one, or an incremental, which begins with the tree of its newest backup |
//! | [`resume`] | opens a dump of a host's partial: of its kind and its start, from its tree |
//! | [`put`] | puts a node at a path of its tree |
//! | [`remove`] | takes a path and all below it out of its tree |
//! | [`abort`] | drops an open dump with its stages, and lets go its claims |
//! | [`claim_rows`], [`release_rows`] | claims of rows are taken, and let go, one for each row that names a content |
//! | [`claim_id`], [`release`] | one claim is taken, and let go |
//! | [`content_of`], [`refused_put`] | for a put of a stage: the content of what is at a path, and what a fault of a tree is |
//!
//! An opening, a put and a removal with a token are carried out once: `specs/Tokens` says which repeat an earlier one, as memory tells,
//! and [`judge_edit`] what the tokens that a dump keeps say of an edit, before any file is looked at.
//!
//! `specs/PutLaws` says what a put leaves, whatever holds the bytes; `specs/StagedLaws` what the pool's answer to them is to the office.
#![tactic(auto)]

mod aborting;
mod base;
mod claims;
mod comparing;
mod opening;
mod putting;
mod removing;
mod resuming;
mod tokens;

pub use aborting::abort;
pub use claims::{claim_id, claim_rows, release, release_rows};
pub use opening::open_dump;
pub use putting::{content_of, put, refused_put};
pub use removing::remove;
pub use resuming::resume;
pub use tokens::{EditToken, judge_edit};
