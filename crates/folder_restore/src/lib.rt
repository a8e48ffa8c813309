//! A backup is made in an empty folder, over any `Port` and any `Folder`. It knows events and their answers, and a folder by its
//! trait; no store, no file of a real folder. The main clauses are those of [`restore_folder`]: its calls are the script of a restore,
//! whole or up to what ended it early; and a folder that tells its tree tells the tree whose frames came, so in each legal history the
//! backup's ([`restores_make_the_backup`]).
//!
//! | Item | What it is |
//! |---|---|
//! | [`restore_folder`] | makes a backup in a folder, `Restored` and `Stopped` of specs/Restores |
//! | [`RestoreRefusal`] | why it wasn't made, or not whole |
//! | [`restores_make_the_backup`] | the law of the backup's tree, `RestoresTree` of specs/ShownLaws |
//!
//! ```text
//! let entries = restore_folder(alloc, &mut port, &mut folder, &host, number, &mut NoProgress)?;
//! ```
#![tactic(auto)]

mod calls;
mod laws;
mod refusals;
mod restoring;

pub use laws::restores_make_the_backup;
pub use refusals::RestoreRefusal;
pub use restoring::restore_folder;
