//! A push: a folder of this machine becomes a host's next backup on another server, over HTTP. It is `folder_walk`'s dump over
//! `remote_port`'s port with the codec of `push_codec`; the crate knows folders, links and clocks by their traits, and neither a store nor
//! a real folder. The main clause is that of [`push_folder`], `Pushes` of specs/Pushes: the calls are the script of a dump of the folder's
//! tree, each is a request that was written and a response that was read, and how it ended is what came of them.
//!
//! | Item | What it is |
//! |---|---|
//! | [`push_folder`] | makes a folder the next backup of a host on the server at the other end of a link |
//! | [`PushDone`] | the link, and how it ended |
//! | [`PushEnd`] | how a push ended: its `Display` is the line that is said of it, its `status` the program's |
//! | [`pushes_are_served`] | the law: calls that were heard are the server's, if it is this program |
//!
//! ```text
//! let PushDone { end, link: _ } = push_folder(alloc, link, &mut folder, host, Kind::Full, &mut clock, &mut NoProgress);
//! eprintln!(rt; "{end}")?;
//! ```
#![tactic(auto)]

mod ends;
mod laws;
mod work;

pub use ends::PushEnd;
pub use laws::pushes_are_served;
pub use work::{PushDone, push_folder};
