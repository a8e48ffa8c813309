//! The head file: the epoch of a store, and the names of its hosts.

use crate::names::NameList;

/// What the head file of a store says.
#[derive(Debug, Drop)]
pub struct HeadFile {
    /// How many times the store was opened.
    pub epoch: u64,
    /// The names of the hosts, in the order of their numbers.
    pub names: NameList,
}
