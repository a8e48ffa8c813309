//! The pool of a store: each content once, under a name of its digest. The crate knows contents, their digests and the
//! journal's files, and nothing of trees, hosts or backups.
//!
//! Its main clause: an id has exactly its bytes, whatever namer gives digests. A content that a live or staged file holds
//! gets that file's name, and another one the least unused extension of its digest; equal digests are never trusted, and a
//! file that is damaged is passed over. A content comes from memory, or from the file of a stage, of which at most a piece is
//! in memory. A name is *live* where the index lists it, *staged* from the write of its file to
//! the commit that lists it, and *doomed* until a sweep takes its file away. A claim holds a staged name, and keeps a live
//! one from being removed.
//!
//! | Type | What it is |
//! |---|---|
//! | [`Pool`] | the used names, over a [`Journal`](intent_journal::Journal) that each call is given |
//! | [`IndexChange`] | what a commit is to change in the index, and the changes of its files |
//! | [`BucketItem`], [`BucketItemList`] | the contents that a cleaning looks at |
//! | [`PoolStats`] | how many contents there are, and their bytes |
//! | [`PoolFault`] | why a call gave no answer |
//! | [`Slot`] | what is known of a name |
//!
//! ```text
//! let mut pool = Pool::open(alloc, &mut journal, Md5Namer)?;
//! let id = pool.match_or_stage(alloc, &mut journal, b"hello")?;
//! let change = pool.settle(alloc, &[id])?;
//! journal.commit(alloc, change.changes())?;
//! pool.accept(change);
//! pool.release(id);
//! ```
#![tactic(auto)]

mod chain;
mod fault;
mod opening;
mod pool;
mod source;
mod stage;
mod sweep;

pub use fault::PoolFault;
pub use pool::Pool;
pub use pool_changes::{BucketItem, BucketItemList, IndexChange, PoolStats, Slot};
