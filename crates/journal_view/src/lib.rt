//! What a store sees of a journal: the files that are there, which of them are certain, and what an opening would find
//! after a crash. Its functions are the journal's calls with clauses in these words alone; images, Intent and Gate occur
//! in none of them, so a layer above knows commits by what an opening finds.
//!
//! The files as a store sees them are all but Intent and Gate (`seen` of `specs/Found`). An opening finds one thing at
//! most in an image (`opening_finds_one_thing`). The main clause is `Committed` of `specs/View`: whatever a crash since a
//! commit's start leaves, an opening finds something, and it is the files before or those after. A run of calls is put
//! together by `FindsOnly-then` of `specs/ViewLaws`; openings and crashes may follow each other without end
//! (`openings_and_crashes`).
//!
//! ```text
//! let mut journal = journal_view::open(alloc, disk)?;
//! journal_view::stage(&mut journal, FileId::Pool(id), content)?;
//! journal_view::commit(&mut journal, alloc, &changes)?;
//! ```
#![tactic(auto)]

mod calls;
mod crashes;
mod laws;
mod opening;

pub use calls::{append, barrier, commit, drop_data, get, list, read_at, read_data, stage};
pub use crashes::crash;
pub use laws::{
    image_comes_to_one_metadata, intent_is_of_one_list, opening_finds_one_thing,
    openings_and_crashes,
};
pub use opening::{open, reopen};
