//! The two steps of taking a content in: the search for it, and the write of its file.

ghost use Rattle.std.specs.Prelude.{◌≡◌, ◌<◌, ℕ, List, Option, false, true, Some, None, IfOk, IfErr, OnOk, OnErr, IsErrOf};
ghost use Rattle.fault_counts.specs.Counts.{Counted};
ghost use Rattle.disk_trait.specs.declared.ids.FileId.TheVariants.{Pool as PoolFile};
ghost use Rattle.disk_trait.specs.Files.{Files, changed};
ghost use Rattle.disk_trait.specs.Images.{LeavesOnly};
ghost use Rattle.intent_journal.specs.Overlay.{ComesTo};
ghost use Rattle.pool_changes.specs.declared.slot.Slot.TheVariants.{Staged};
ghost use Rattle.pool_changes.specs.Kept.{slots_of, IsSet, IsSame};
ghost use Rattle.pool_changes.specs.Slots.{unlisted};
ghost use Rattle.pool_store.specs.Chains.{IsPlace, IsMet};
ghost use Rattle.pool_store.specs.Pools.{IsCertain, IsUnstaged};
ghost use Rattle.pool_store.specs.Sources.{length_of, is_in_memory, IsSource, SaysLost, OfPiece};

use crate::chain::{Met, meet};
use crate::fault::PoolFault;
use crate::source::{Source, size, write_to};
use disk_trait::{Disk, PoolId};
use intent_journal::Journal;
use pool_changes::{Names, Slot};
use std::alloc::Global;

/// Compares a content with the files of its digest.
pub(crate) fn find_place<D: Disk>(
    alloc: Global,
    journal: &mut Journal<D>,
    names: &Names,
    digest: [u8; 16],
    content: &Source,
) -> Result<Met, PoolFault>
    requires { journal.old.halted ≡ false }
    ensures place { IfOk result (IsPlace (slots_of names.now) digest) }
    ensures met { IfOk result (λ met. (bytes : List ℕ) → IsSource content.now (D.files journal.old.disk) bytes
        → IsMet (slots_of names.now) digest (D.files journal.old.disk) bytes met) }
    ensures lost { IfErr result (SaysLost content.now (D.files journal.old.disk)) }
    ensures fault { IfErr result OfPiece }
    ensures told { D.files journal.new.disk ≡ D.files journal.old.disk }
    ensures certain { IsCertain (slots_of names.now) (D.uncertain journal.old.disk) → IsCertain (slots_of names.now) (D.uncertain journal.new.disk) }
    ensures any_moment { (all : Files) → D.files journal.old.disk ≡ Some all → IsCertain (slots_of names.now) (D.uncertain journal.old.disk)
        → LeavesOnly D.moment D.left_since journal.old.disk journal.new.disk (ComesTo all (unlisted (slots_of names.now))) }
    ensures stays { journal.new.halted ≡ journal.old.halted }
    ensures counted { Counted (D.fault_count journal.old.disk) (D.fault_count journal.new.disk) (IsErrOf result PoolFault.Disk) }
{
    meet(alloc, journal, names, digest, content)
}

/// Writes the file of an unused name. Whatever the write answers, the name is used from then on.
pub(crate) fn stage_new<D: Disk>(
    alloc: Global,
    names: &mut Names,
    journal: &mut Journal<D>,
    id: PoolId,
    content: &Source,
) -> Result<(), PoolFault>
    requires ready { journal.old.halted ≡ false }
    requires unused { slots_of names.old id ≡ None }
    requires some { 0 < length_of content.now }
    ensures staged { OnOk result (IsSet (slots_of names.old) (slots_of names.new) id (Some (Staged (length_of content.now) 1))) }
    ensures told { OnOk result ((bytes : List ℕ) → IsSource content.now (D.files journal.old.disk) bytes
        → D.files journal.new.disk ≡ changed (D.files journal.old.disk) (PoolFile id) (Some bytes)) }
    ensures unstaged { OnErr result (IsUnstaged (slots_of names.old) (slots_of names.new) (D.files journal.old.disk) (D.files journal.new.disk) id) }
    ensures lost { IfErr result (SaysLost content.now (D.files journal.old.disk)) }
    ensures fault { IfErr result OfPiece }
    ensures memory { IsErrOf result PoolFault.Memory → is_in_memory content.now ≡ true → IsSame (slots_of names.old) (slots_of names.new) × (D.files journal.new.disk ≡ D.files journal.old.disk) }
    ensures certain { IsCertain (slots_of names.old) (D.uncertain journal.old.disk) → IsCertain (slots_of names.old) (D.uncertain journal.new.disk) }
    ensures any_moment { (all : Files) → D.files journal.old.disk ≡ Some all → IsCertain (slots_of names.old) (D.uncertain journal.old.disk)
        → LeavesOnly D.moment D.left_since journal.old.disk journal.new.disk (ComesTo all (unlisted (slots_of names.old))) }
    ensures stays { journal.new.halted ≡ journal.old.halted }
    ensures counted { Counted (D.fault_count journal.old.disk) (D.fault_count journal.new.disk) (IsErrOf result PoolFault.Disk) }
{
    match names.put(id, Slot::Doomed) {
        Ok(()) => {}
        Err(_) => return Err(PoolFault::Memory),
    }
    match write_to(alloc, journal, content, id) {
        Ok(()) => {
            let size = size(content);
            names.set(id, Slot::Staged { size, claims: 1 });
            Ok(())
        }
        Err(fault) => Err(fault),
    }
}
