//! What tells a request that is tried again from another one: the names of sessions, the tokens that callers give their requests,
//! the tokens that an open dump keeps, and the receipts of its host. It knows names, tokens and numbers, and neither trees nor
//! disks. The main definitions: `receipt_with` and `receipt_of` of specs/Receipts, which look a receipt up by its token and by the
//! name of its dump, and `with_newest`, the last 256.
//!
//! | Type | What it is |
//! |---|---|
//! | `SessionName` | the name of an open dump or restore |
//! | `Token` | what a caller gives a request by which a second one with it is known as the first, tried again |
//! | `TokenSet` | tokens that differ, looked up without a scan |
//! | `Receipt` | of a commit of a dump that was opened with a token |
//! | `ReceiptList` | at most 256 receipts of different tokens, the oldest first |
#![tactic(auto)]

mod receipt;
mod session;
mod token_set;

pub use receipt::{MAX_RECEIPTS, Receipt, ReceiptList};
pub use session::{SessionName, Token};
pub use token_set::TokenSet;
