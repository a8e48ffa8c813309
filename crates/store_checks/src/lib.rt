//! The events that check a pool at work: the contents of a part of it are listed, and a content is given piece by piece. The
//! crate knows the parts of a store, and no other event.
//!
//! A part of the pool is a byte: the contents whose digests begin with it. It is listed from the index in memory, and no file
//! is read. A piece has 65,536 bytes at most, so a content of any size is read in little memory; none is held meanwhile, and
//! a content that left the pool between two pieces is refused by [`NoContent`](office_model::BrokenRule::NoContent).
//!
//! | Function | What it answers |
//! |---|---|
//! | [`pool_list`] | the name, the size and the mark of each content of a part, in the order of their names |
//! | [`pool_piece`] | the bytes of a content from a place on |
//!
//! Its main clause: each event is answered as the model says (`Runs` of `store_parts`). Beside it stands what holds of any disk
//! that tells its files, damaged ones too: a listing is that of the index in memory (`ListsPart` of `specs/Listing`), and a piece
//! is what the content's file has there (`GivesPiece` of `specs/Giving`); `Damaged` names a file that is absent or shorter than
//! the index says. No digest is made: whoever asked for all pieces makes it, and compares it with the one in the name.
//!
//! ```text
//! let answer = pool_list(&parts, alloc, 0xa5)?;
//! let answer = pool_piece(&mut parts, alloc, id, 65_536)?;
//! ```
#![tactic(auto)]

mod giving;
mod listing;

pub use giving::pool_piece;
pub use listing::pool_list;
