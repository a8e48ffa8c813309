//! Frames of a restore, one after the other, are put into an open dump of a home office, over any `Port`. It knows frames, events and
//! their answers; no link, no store, no folder. The main clauses are those of [`Laying::take`]: which events a frame calls, in order,
//! with their replies, is a function of what is pending and of the frame (`frame_step` of specs/Steps).
//!
//! | Item | What it is |
//! |---|---|
//! | [`Laying`] | what is pending between two frames, and `take` |
//! | [`LayFault`] | why a frame wasn't laid |
//! | [`frames_of_a_tree_are_laid`], [`frames_are_laid_in_turn`] | laws of many frames, `Lays` and `Fits` of specs/Runs |
//!
//! A path that was lost is removed. A directory, a link and a file without bytes are put at once; a file of at most 65,536 bytes is
//! put once its piece is there; a larger one goes into a stage piece by piece, and its put is of that stage. So no more of a file is
//! held than a piece. A frame that doesn't fit calls nothing.
//!
//! ```text
//! let mut laying = Laying::Nothing;
//! let end = laying.take(alloc, &mut port, dump, frame)?;
//! ```
#![tactic(auto)]

mod calls;
mod faults;
mod files;
mod laws;
mod laying;

pub use faults::LayFault;
pub use files::{LargeFile, SmallFile};
pub use laws::{frames_are_laid_in_turn, frames_of_a_tree_are_laid};
pub use laying::Laying;
