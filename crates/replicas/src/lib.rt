//! What a pull leaves at home: definitions and laws alone. It knows the script of a pull, the calls that it heard of the other server,
//! events and the office's model; no port, no wire, no bytes. The main clause is `PullBrings` of specs/Replicas: if what a pull heard are
//! calls of a legal history of the other server, then, however far it came and whatever others do there meanwhile, the host's backups at
//! home are those before and a beginning of the other server's from home's next number on, each with the number, the times, the kind and
//! the tree that it has there, and no other host changed ([`a_pull_makes_a_replica`]). So they are if the server at home is stopped within
//! a call ([`a_stopped_pull_is_a_replica`]); and no frame of the other server is taken for foreign ([`no_frame_is_foreign`]).
//!
//! | In specs/ | What it says |
//! |---|---|
//! | `Replicas` | what a pull heard, what is to be brought, what a replica is, and the laws |
//! | `Courses` | how a pull stands between two turns, by its phase |
//! | `HeardLaws`, `RunLaws` | what of the other server's history was heard, and that a restore gave what leads to the backup's tree |
//! | `HomeLaws`, `AnswerLaws`, `FrameLaws`, `ListLaws` | what the calls make of the home office, one by one |
//! | `HomeTurnLaws`, `JobTurnLaws`, `DumpTurnLaws`, `EndLaws` | what a turn leaves, by the phase |
//! | `ReplicaLaws` | a pull, turn by turn |
//! | `Stops`, `Foreign` | what the disk may keep if the server at home is stopped within a pull; which pulls end with `PeerForeign` |
//! | `StopLaws`, `CutLaws`, `StoppedLaws` | a stopped pull brought what one brings that ended at that call |
//! | `ForeignLaws` | each frame that the other server gave fits |
//!
//! ```text
//! replicas::a_pull_makes_a_replica();
//! ```
#![tactic(auto)]

mod laws;

pub use laws::{a_pull_makes_a_replica, a_stopped_pull_is_a_replica, no_frame_is_foreign};
