//! Reads counts from the files of a journal.

ghost use Rattle.std.specs.Prelude.{◌≡◌, ◌≤◌, ℕ, List, Option, false, Some, IfOk, IfErr, IsErrOf};
ghost use Rattle.fault_counts.specs.Counts.{Counted};
ghost use Rattle.disk_trait.specs.declared.ids.FileId.TheVariants.{Counts as CountsFile};
ghost use Rattle.disk_trait.specs.Files.{Files};
ghost use Rattle.journal_view.specs.View.{told, Quiet};
ghost use Rattle.host_counts.specs.Held.{TellsCounts, AreTold, SaysNone, SaysForeignOf, SaysForeign};

use crate::fault::HostCountsFault;
use crate::held::HostCounts;
use disk_trait::{Bytes, Disk, FileId};
use intent_journal::{Journal, JournalFault};
use ref_counts::{Counts, CountsFault, read_counts};
use std::alloc::Global;

/// The counts in the bytes of a host's file.
fn decode(alloc: Global, host: u32, bytes: Bytes) -> Result<Counts, HostCountsFault>
    ensures told { IfOk result (λ counts. TellsCounts host counts (Some bytes)) }
    ensures foreign { IfErr result (SaysNone host (Some bytes)) }
    ensures no_fault { IsErrOf result HostCountsFault.Disk → ⊥ }
{
    match read_counts(alloc, host, bytes.as_slice()) {
        Ok(counts) => Ok(counts),
        Err(CountsFault::Memory) => Err(HostCountsFault::Memory),
        Err(CountsFault::BadIndex(_)) => Err(HostCountsFault::Foreign {
            file: FileId::Counts(host),
            found: Some(bytes),
        }),
    }
}

/// The counts that the file of a host holds, by its place in the order of adding. Nothing is written.
///
/// `Foreign` comes exactly where the file is absent or outside the layout of this host's counts; `Disk` only where the
/// disk's count of faults rose.
pub fn read_counts_of<D: Disk>(
    alloc: Global,
    journal: &mut Journal<D>,
    host: u32,
) -> Result<Counts, HostCountsFault>
    requires ready { journal.old.halted ≡ false }
    ensures told { IfOk result (λ counts. (all : Files) → told journal.old ≡ Some all → TellsCounts host counts (all (CountsFile host))) }
    ensures foreign { IfErr result (SaysForeignOf (told journal.old) host) }
    ensures quiet { Quiet journal.old journal.new }
    ensures counted { Counted (D.fault_count journal.old.disk) (D.fault_count journal.new.disk) (IsErrOf result HostCountsFault.Disk) }
{
    let file = FileId::Counts(host);
    let found = match journal_view::get(journal, alloc, file) {
        Ok(found) => found,
        Err(JournalFault::Disk) => return Err(HostCountsFault::Disk),
        Err(JournalFault::Memory) => return Err(HostCountsFault::Memory),
        Err(JournalFault::Halted) => unreachable!(),
    };
    match found {
        Some(bytes) => decode(alloc, host, bytes),
        None => Err(HostCountsFault::Foreign { file, found: None }),
    }
}

/// The counts of this many hosts, the first ones in the order of adding, that the files of a journal hold. Nothing is
/// written.
///
/// `Foreign` comes exactly where the file of one of these hosts is absent or outside its layout, the first of them; `Disk`
/// only where the disk's count of faults rose.
pub fn read_all<D: Disk>(
    alloc: Global,
    journal: &mut Journal<D>,
    hosts: usize,
) -> Result<HostCounts, HostCountsFault>
    requires ready { journal.old.halted ≡ false }
    requires few { hosts ≤ 1024 }
    ensures told { IfOk result (λ held. (all : Files) → told journal.old ≡ Some all → AreTold all hosts held) }
    ensures foreign { IfErr result (SaysForeign (told journal.old) hosts) }
    ensures quiet { Quiet journal.old journal.new }
    ensures counted { Counted (D.fault_count journal.old.disk) (D.fault_count journal.new.disk) (IsErrOf result HostCountsFault.Disk) }
{
    let mut held = HostCounts::new(alloc)?;
    for host in 0..hosts {
        match read_counts_of(alloc, journal, host as u32) {
            Ok(counts) => held.push(counts),
            Err(fault) => return Err(fault),
        }
    }
    Ok(held)
}
