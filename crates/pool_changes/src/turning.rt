//! Makes changes of the index, and carries them out.

ghost use Rattle.std.specs.Prelude.{IfOk};
ghost use Rattle.pool_changes.specs.Kept.{slots_of, IsSame};
ghost use Rattle.pool_changes.specs.Slots.{with_slot};
ghost use Rattle.pool_changes.specs.Relisted.{relisted, turned};
ghost use Rattle.pool_changes.specs.Indexed.{after, IsOf};
ghost use Rattle.pool_changes.specs.Listed.{index_of};
ghost use Rattle.pool_changes.specs.Written.{LeadsIndex};

use crate::index::IndexChange;
use crate::names::Names;
use crate::slot::Turn;
use crate::writing::write_index;
use disk_trait::PoolId;
use std::alloc::{AllocError, Global};

/// Turns the slot of a name; takes no memory.
fn turn_one(names: &mut Names, id: &PoolId, turn: Turn)
    ensures { IsSame (with_slot (slots_of names.old) id.now (turned turn (slots_of names.old id.now))) (slots_of names.new) }
{
    match names.get(*id) {
        Some(slot) => names.set(*id, slot.turned(turn)),
        None => {}
    }
}

/// Turns the slots of these names, one after the other; takes no memory.
fn turn_all(names: &mut Names, ids: &[PoolId], turn: Turn)
    ensures { IsSame (relisted turn ids.now (slots_of names.old)) (slots_of names.new) }
{
    for id in ids {
        turn_one(names, id, turn);
    }
}

impl IndexChange {
    /// The change that adds names, marks, unmarks and removes others, of an index that is in one file or in buckets.
    pub fn new(
        alloc: Global,
        names: &Names,
        in_one_file: bool,
        added: &[PoolId],
        marked: &[PoolId],
        unmarked: &[PoolId],
        removed: &[PoolId],
    ) -> Result<IndexChange, AllocError>
        ensures of { IfOk result (λ change. IsOf change added.now marked.now unmarked.now removed.now) }
        ensures leads { IfOk result (λ change. LeadsIndex in_one_file (index_of (slots_of names.now)) (index_of (after change (slots_of names.now))) change.changes) }
    {
        let changes = write_index(alloc, names, in_one_file, added, marked, unmarked, removed)?;
        let added = Vec::from_slice(alloc, added)?;
        let marked = Vec::from_slice(alloc, marked)?;
        let unmarked = Vec::from_slice(alloc, unmarked)?;
        let removed = Vec::from_slice(alloc, removed)?;
        Ok(IndexChange {
            added,
            marked,
            unmarked,
            removed,
            changes,
        })
    }

    /// Makes the change of the names; takes no memory.
    pub fn make(self, names: &mut Names)
        ensures { IsSame (after self (slots_of names.old)) (slots_of names.new) }
    {
        turn_all(names, self.added.as_slice(), Turn::Add);
        turn_all(names, self.marked.as_slice(), Turn::Mark);
        turn_all(names, self.unmarked.as_slice(), Turn::Unmark);
        turn_all(names, self.removed.as_slice(), Turn::Remove);
    }
}
