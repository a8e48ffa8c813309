//! What the responses to the events of a push say, for who asked another server: the answer to a dump's opening, its puts and removals,
//! its commit or its end, the listing of a host's backups, what lies in a directory of one, or the refusal by its name. Its main clause says that what is read is
//! `reply_in event status body`; the law, that this is the reply whose response it was. The crate knows events, statuses and bodies, and
//! no link.
//!
//! | Item | What it is |
//! |---|---|
//! | `read_reply` | the reply that a response says to an event |
//! | `replies_read_back` | the law |
//!
//! ```text
//! let event = Event::Commit { dump, now };
//! let reply = read_reply(alloc, &event, 201, b"{\"number\":7}")?;
//! // Some(Ok(Answer::Committed(7)))
//! ```
//!
//! Of a damaged file (502) a response says the name and not what was found in it, and of want of memory (507) nothing: both are none. One more
//! event is a case in `answer_of` (specs/Replies), and one in `read_answer`.
#![tactic(auto)]

mod answers;
mod laws;
mod members;
mod refusals;
mod replies;

pub use laws::replies_read_back;
pub use replies::read_reply;
