//! The events of open stages in a store at work: the bytes of a large file of a dump come piece by piece into a file of their
//! own, and then get their name in the pool and a path in the dump's tree. At most a piece of them is in memory at once.
//!
//! | Function | What it does |
//! |---|---|
//! | [`stage_open`] | opens a stage of an open dump |
//! | [`stage_piece`] | puts the next bytes into a stage |
//! | [`stage_drop`] | drops a stage |
//! | [`put_staged`] | puts the bytes of a stage at a path of its dump, and ends it; with a token, once |
//!
//! A stage ends with an answer to its put, with its drop, with its dump, and with a fault of the disk in a piece. Its file stays
//! until a sweep: the first piece of a stage makes its file anew, so what an earlier opening of the store left there never shows.
//!
//! Its main clause: each event is answered as the model says (`Runs` of `store_parts`). `specs/Losing` says what holds over any
//! disk, one whose files were changed behind the store's back, too: `Damaged` names the file of the stage, which isn't as long as
//! what was put into it.
#![tactic(auto)]

mod dropping;
mod opening;
mod pieces;
mod putting;
mod taking;

pub use dropping::stage_drop;
pub use opening::stage_open;
pub use pieces::stage_piece;
pub use putting::put_staged;
