//! The reads of a store at work: what is at a path of a backup, the bytes of a file, the names in a directory. The crate
//! knows the catalog, the tables of backups and the contents of the pool, and changes no file.
//!
//! Its main clause: each event is answered as the model says (`Runs` of `store_parts`), whether the tables of backups are
//! whole trees or only say what differs from the next newer one. Beside it stands what holds of any disk that tells its files,
//! damaged ones too (`specs/Told`): an answer is of the tree that the backup's tables tell, each of which is there and in its
//! grammar, or of its view that was kept; a content has the digest of its name; and `Damaged` names what isn't so.
//!
//! A call at a store at work: `let answer = read_file(&mut parts, alloc, &host, 5, &path)?;`
//!
//! | Function | What it answers |
//! |---|---|
//! | [`lookup`] | the node at a path, without the bytes of a file |
//! | [`list`] | what lies directly in a directory |
//! | [`read_file`] | the bytes of the file at a path |
//! | [`read_backup`], [`read_content`], [`read_piece`], [`node_of`] | for other events: the tree of a backup, a content's bytes, whole or a piece, a record's node |
//! | [`load_backup`], [`file_of`] | for other events: the view of a backup is kept, and the file that a record tells |
#![tactic(auto)]

mod content;
mod list_event;
mod load;
mod lookup_event;
mod nodes;
mod place;
mod read_file_event;
mod tree;

pub use content::{read_content, read_piece};
pub use list_event::list;
pub use load::load_backup;
pub use lookup_event::lookup;
pub use nodes::node_of;
pub use read_file_event::{file_of, read_file};
pub use tree::read_backup;
