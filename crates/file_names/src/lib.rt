//! Names of a store's files, from text: which file a name in a folder is, if it is one of a store's. It knows names and
//! nothing of what the files hold. Its main clause: a name is a file's exactly if it is that file's real name, as
//! `Display` of `FileId` prints it.
//!
//! ```text
//! file_named(b"table-3-0") == Some(FileId::Table(3, 0))
//! file_named(b"table-03-0") == None
//! ```
#![tactic(auto)]

mod names;
mod scan;

pub use names::file_named;
