//! The codec of a push: what a folder's dump on another server asks for, and what it is answered, over a port over HTTP. It makes of
//! `remote_port`'s `RemotePort` a port for the calls of a dump: OpenDump, Put, Remove, Commit, Abort, Backups and List. The crate knows the
//! texts of `push_texts` and the replies of `push_replies`, and no link. Its main laws are that each request is read by a server as its
//! event, and each response as the reply that it is of.
//!
//! | Item | What it is |
//! |---|---|
//! | `PushCodec` | the codec |
//! | `pushes_are_coded` | the laws |
//!
//! ```text
//! let mut port: RemotePort<L, PushCodec> = RemotePort::new(wire);
//! let number = dump_folder(alloc, &mut port, &mut folder, &host, Kind::Incr, &mut clock, &mut progress)?;
//! ```
//!
//! A file of up to 65,536 bytes is one call of the server, as it is here. One of up to 67,108,864 bytes is one request, which the server
//! takes by a stage. A larger one would be put by stages, which no request asks for: the opening of its stage is refused with
//! FileTooLarge, and nothing is written for it.
#![tactic(auto)]

mod codec;
mod laws;
mod ranges;

pub use codec::PushCodec;
pub use laws::pushes_are_coded;
