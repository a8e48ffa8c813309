//! Changes of the index.

ghost use Rattle.std.specs.Prelude.{◌≡◌, ⊤};

use disk_trait::PoolId;
use intent_journal::Changes;
use std::alloc::Global;
use std::mem;

/// A change of the index.
#[derive(Drop)]
pub struct IndexChange {
    pub(crate) added: Vec<PoolId>,
    pub(crate) marked: Vec<PoolId>,
    pub(crate) unmarked: Vec<PoolId>,
    pub(crate) removed: Vec<PoolId>,
    pub(crate) changes: Changes,
    ghost plain: { ⊤ },
}

impl IndexChange {
    /// The changes of the index's files, for a commit.
    pub fn changes(&self) -> &Changes
        ensures { result.now ≡ self.now.changes }
    {
        &self.changes
    }

    /// Takes the changes of the index's files out, to be committed with others; takes no memory.
    pub fn take_changes(&mut self, alloc: Global) -> Changes
        ensures changes { result ≡ self.old.changes }
        ensures added { self.new.added ≡ self.old.added }
        ensures marked { self.new.marked ≡ self.old.marked }
        ensures unmarked { self.new.unmarked ≡ self.old.unmarked }
        ensures removed { self.new.removed ≡ self.old.removed }
    {
        mem::replace(&mut self.changes, Changes::new(alloc))
    }
}
