//! Edits of an open dump's tree: a base that is shared and stays as it is, the paths that were removed, and
//! the nodes that were put. It knows paths, records and tables alone. The main clauses: the meaning of a
//! session is its tree, and each call is the edit on it, or a refusal that leaves it as it was.
#![tactic(auto)]

mod edits;
mod nodes;
mod removed;
mod session;
mod subtree;

pub use nodes::NodeKind;
pub use session::{PutFault, RemoveFault, Session};
