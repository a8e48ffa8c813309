//! What a pull wrote and read on its link, as calls of the other server: definitions and laws alone. It knows the script of a pull
//! (`pull_work`), its codec (`pull_codec`), both ends of a connection (`peer_talk`) and what a pull leaves at home (`replicas`); no port
//! and no code. If the other server is this program (`IsPeer`: the calls of the connection's talk are of a legal history of it, and
//! nobody else reads on in the restores that they open), then what the pull heard are calls of that history ([`talks_are_heard`]); and so
//! the pull makes a replica ([`talks_make_replicas`]).
//!
//! | In specs/ | What it says |
//! |---|---|
//! | `Peers` | the other server, by what was written to it and what came of it |
//! | `Faults` | what a pull asked in vain, and how it ends |
//! | `TalkLaws` | the laws |
//!
//! ```text
//! replica_talks::talks_are_heard();
//! ```
#![tactic(auto)]

mod laws;

pub use laws::{talks_are_heard, talks_make_replicas};
