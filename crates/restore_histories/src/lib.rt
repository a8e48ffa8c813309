//! What a history of a backup server keeps for a reader from afar: laws over legal histories of the model. The crate knows events,
//! replies and whole trees; it knows no port, no bytes and no HTTP. Its main clause is `OpenedIsListed` (specs/Given): whatever others
//! do meanwhile, and however often the office halts and is reopened, the frames that a restore gives are those of the backup that was
//! listed, in order, and behind its last frame that one again.
//!
//! | Law | What it says |
//! |---|---|
//! | [`a_listed_backup_stays`] | a number names one backup for ever: its tree, times and kind stay, or it is gone |
//! | [`a_restore_gives_its_backup`] | a restore gives what leads to its backup's tree, as that was when it was opened |
//! | [`what_is_opened_is_what_was_listed`] | and as it was when the host's backups were listed before |
//! | [`frames_up_to_the_end_are_all`] | up to the first End, these are all frames |
//!
//! A call: `a_listed_backup_stays()`, whose clause a proof cites. specs/ListedLaws, specs/GivenLaws and specs/OpenedLaws have the
//! proofs, for laws above.
#![tactic(auto)]

mod laws;

pub use laws::{
    a_listed_backup_stays, a_restore_gives_its_backup, frames_up_to_the_end_are_all,
    what_is_opened_is_what_was_listed,
};
