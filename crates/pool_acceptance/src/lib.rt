//! What the pool does over a journal and a disk in memory, shown by examples, and nothing else: files of the index written by
//! hand, an older store's one file taken over, contents of one digest from memory and from a stage, a chain of names that is
//! full until it is swept.
#![tactic(auto)]

#[cfg(test)]
mod tests;
