//! What the calls of a dump and of a restore of a folder make of an office: definitions and laws alone. It knows events and trees by the
//! office's model, and a folder by what it lists; no port and no call. The main laws: in each legal history of its calls a dump of a
//! folder becomes a backup with the folder's tree (`dump_shows` of specs/ShownLaws, both kinds), and the frames of a restore are those of
//! the backup's tree (`restored_frames` of specs/RestoreLaws).
//!
//! | In specs/ | What it says |
//! |---|---|
//! | `Walks` | which rows of a tree a walk has on its stack |
//! | `Replays` | a tree without some paths, with some rows |
//! | `Compares` | which paths of a last backup leave, directory by directory |
//! | `Lists` | the same of the answers to the listings of a backup |
//! | `Calls` | the calls of a dump and of a restore that were answered |
//! | `DumpScript` | which event a dump calls next |
#![tactic(auto)]

mod known;

pub use known::Known;
