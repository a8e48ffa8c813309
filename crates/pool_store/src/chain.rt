//! The search for a content among the files of its digest.

ghost use Rattle.std.specs.Prelude.{◌≡◌, ◌⊎◌, ◌↔◌, ◌≤◌, ◌<◌, ℕ, List, Option, false, true, Some, None, IfOk, IfErr, IfSome, OnOk, IsErrOf, IsSome, length};
ghost use Rattle.fault_counts.specs.Counts.{Counted};
ghost use Rattle.disk_trait.specs.declared.ids.PoolId.{PoolId};
ghost use Rattle.pool_changes.specs.Slots.{is_given};
ghost use Rattle.disk_trait.specs.declared.ids.FileId.TheVariants.{Pool as PoolFile};
ghost use Rattle.disk_trait.specs.Files.{Files};
ghost use Rattle.intent_journal.specs.Calls.{Reads};
ghost use Rattle.pool_changes.specs.Kept.{slots_of};
ghost use Rattle.pool_changes.specs.Slots.{id_of};
ghost use Rattle.pool_store.specs.Chains.{IsPlace, IsMet, freed};
ghost use Rattle.pool_store.specs.Sources.{IsSource, SaysLost, OfPiece};

use crate::fault::PoolFault;
use crate::source::{Source, is_same};
use disk_trait::{Bytes, Disk, FileId, PoolId};
use intent_journal::{Journal, JournalFault};
use pool_changes::{Names, Slot};
use std::alloc::Global;

/// What the files of a digest are to a content.
#[derive(Clone, Copy, Debug, PartialEq, Eq)]
pub(crate) enum Met {
    /// The file of this extension holds it.
    Same(u16),
    /// None holds it, and this is the least unused extension.
    Free(u16),
    /// None holds it, and each extension is used.
    Full,
}

/// Whether a name is live or staged.
pub(crate) fn is_given(names: &Names, id: PoolId) -> bool
    ensures { result ≡ is_given (slots_of names.now id) }
{
    match names.get(id) {
        Some(Slot::Live { .. } | Slot::Staged { .. }) => true,
        Some(Slot::Doomed) | None => false,
    }
}

/// What a fault of a journal that isn't halted is to a pool.
pub(crate) fn fault_of(fault: JournalFault) -> PoolFault
    requires { fault ≡ JournalFault.Halted → ⊥ }
    ensures kind { (result ≡ PoolFault.Disk) ⊎ (result ≡ PoolFault.Memory) }
    ensures disk { (result ≡ PoolFault.Disk) ↔ (fault ≡ JournalFault.Disk) }
{
    match fault {
        JournalFault::Disk => PoolFault::Disk,
        JournalFault::Memory => PoolFault::Memory,
        JournalFault::Halted => unreachable!(),
    }
}

/// The bytes of a file.
pub(crate) fn read_file<D: Disk>(
    alloc: Global,
    journal: &mut Journal<D>,
    file: FileId,
) -> Result<Option<Bytes>, PoolFault>
    requires { journal.old.halted ≡ false }
    ensures found { IfOk result (λ found. (all : Files) → D.files journal.old.disk ≡ Some all → found ≡ all file) }
    ensures fault { IfErr result (λ fault. (fault ≡ PoolFault.Disk) ⊎ (fault ≡ PoolFault.Memory)) }
    ensures reads { Reads journal.old journal.new }
    ensures counted { Counted (D.fault_count journal.old.disk) (D.fault_count journal.new.disk) (IsErrOf result PoolFault.Disk) }
{
    match journal.get(alloc, file) {
        Ok(found) => Ok(found),
        Err(fault) => Err(fault_of(fault)),
    }
}

/// Whether a name is live or staged and its file holds exactly what the source does. No digest is made: a file that is
/// absent, or damaged, holds something else.
pub(crate) fn holds<D: Disk>(
    alloc: Global,
    journal: &mut Journal<D>,
    names: &Names,
    id: PoolId,
    content: &Source,
) -> Result<bool, PoolFault>
    requires { journal.old.halted ≡ false }
    ensures given { IfOk result (λ same. same ≡ true → is_given (slots_of names.now id) ≡ true) }
    ensures same { IfOk result (λ same. same ≡ true → (all : Files) (bytes : List ℕ) → D.files journal.old.disk ≡ Some all
        → IsSource content.now (D.files journal.old.disk) bytes → all (PoolFile id) ≡ Some bytes) }
    ensures other { IfOk result (λ same. same ≡ false → is_given (slots_of names.now id) ≡ true → (all : Files) (bytes : List ℕ)
        → D.files journal.old.disk ≡ Some all → IsSource content.now (D.files journal.old.disk) bytes → all (PoolFile id) ≡ Some bytes → ⊥) }
    ensures lost { IfErr result (SaysLost content.now (D.files journal.old.disk)) }
    ensures fault { IfErr result OfPiece }
    ensures reads { Reads journal.old journal.new }
    ensures counted { Counted (D.fault_count journal.old.disk) (D.fault_count journal.new.disk) (IsErrOf result PoolFault.Disk) }
{
    if !is_given(names, id) {
        return Ok(false);
    }
    match is_same(alloc, journal, content, FileId::Pool(id)) {
        Ok(same) => Ok(same),
        Err(fault) => Err(fault),
    }
}

/// The least unused extension so far.
fn first_free(free: Option<u16>, at: u32, used: u16) -> Option<u16>
    requires { at < 65536 }
    ensures { result ≡ freed free at used }
{
    match free {
        Some(extension) => Some(extension),
        None => {
            if at < used as u32 {
                Some(at as u16)
            } else {
                None
            }
        }
    }
}

/// Compares a content with each live or staged file of its digest, in order of extension.
pub(crate) fn meet<D: Disk>(
    alloc: Global,
    journal: &mut Journal<D>,
    names: &Names,
    digest: [u8; 16],
    content: &Source,
) -> Result<Met, PoolFault>
    requires { journal.old.halted ≡ false }
    ensures place { IfOk result (IsPlace (slots_of names.now) digest) }
    ensures met { IfOk result (λ met. (bytes : List ℕ) → IsSource content.now (D.files journal.old.disk) bytes
        → IsMet (slots_of names.now) digest (D.files journal.old.disk) bytes met) }
    ensures lost { IfErr result (SaysLost content.now (D.files journal.old.disk)) }
    ensures fault { IfErr result OfPiece }
    ensures reads { Reads journal.old journal.new }
    ensures counted { Counted (D.fault_count journal.old.disk) (D.fault_count journal.new.disk) (IsErrOf result PoolFault.Disk) }
{
    let mut free: Option<u16> = None;
    let mut at: u32 = 0;
    while at < 65536 {
        match names.next(digest, at) {
            None => {
                return match free {
                    Some(extension) => Ok(Met::Free(extension)),
                    None => Ok(Met::Free(at as u16)),
                };
            }
            Some(used) => {
                let id = PoolId {
                    digest,
                    extension: used,
                };
                match holds(alloc, journal, names, id, content) {
                    Ok(true) => return Ok(Met::Same(used)),
                    Ok(false) => {}
                    Err(fault) => return Err(fault),
                }
                free = first_free(free, at, used);
                at = used as u32 + 1;
            }
        }
    }
    match free {
        Some(extension) => Ok(Met::Free(extension)),
        None => Ok(Met::Full),
    }
}
