//! What becomes of a content of the pool when its bucket is cleaned (BackupPC 4's nightly removal of pool files without a
//! reference, in two passes): an unprotected one gains the mark, and leaves the pool if it has it already; a protected one loses
//! the mark. It knows nothing else of the pool. The main clause is that of [`fate_of`].
//!
//! A call: `fate_of(inside, protected, marked).mark_after(marked)` is the mark afterwards, or None if the content leaves.
#![tactic(auto)]

mod fate;

pub use fate::{Fate, fate_of};
