//! Which backups of a host its keeping rules name: `FullKeepCnt` and its kin of BackupPC 4's documentation, with groups for
//! recent and old backups. It knows the lines of backups and the rules, and no store.
//!
//! The main clause of [`named`]: its flags are those of the backups that the rules name, by the one set of filled backups
//! that satisfies the rule of the counts (`AreNamed` of specs/), and they are `named_flags`, a function by recursion. That
//! the two say the same, that there is one such set, that the newest backup isn't named, and the counts' distance in the
//! rule's own words are laws ([`flags_are_named`] and its neighbours).
//!
//! ```text
//! let mut flags = [false; 3];
//! named(&lines, &rules, now, &mut flags);
//! ```
#![tactic(auto)]

mod gaps;
mod groups;
mod laws;
mod naming;
mod walk;

pub use laws::{
    flags_are_named, gap_fails, gap_is_least, kept_set_exists, kept_sets_agree, kept_stays,
    newest_stays,
};
pub use naming::{named, numbers_rise};
