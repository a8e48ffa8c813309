//! Reads partials from the files of a journal.

ghost use Rattle.std.specs.Prelude.{◌≡◌, ◌≤◌, ℕ, List, Option, false, Some, IfOk, IfErr, IsErrOf};
ghost use Rattle.fault_counts.specs.Counts.{Counted};
ghost use Rattle.disk_trait.specs.declared.ids.FileId.TheVariants.{Partial as PartialOf};
ghost use Rattle.disk_trait.specs.Files.{Files};
ghost use Rattle.journal_view.specs.View.{told, Quiet};
ghost use Rattle.std.specs.Option.{option_map};
ghost use Rattle.host_partials.specs.Held.{HasPartial, AreTold, SaysNone, SaysForeignOf, SaysForeign, head_of_file};

use crate::fault::HostPartialsFault;
use crate::held::{HostPartials, PartialHead};
use disk_trait::{Bytes, Disk, FileId};
use intent_journal::{Journal, JournalFault};
use partial_files::{PartialFault, PartialFile, read_partial};
use std::alloc::Global;

/// The partial in the bytes of a host's file.
fn decode(alloc: Global, host: u32, bytes: Bytes) -> Result<PartialFile, HostPartialsFault>
    ensures told { IfOk result (λ partial. HasPartial host (Some partial) (Some bytes)) }
    ensures foreign { IfErr result (SaysNone host (Some bytes)) }
    ensures no_fault { IsErrOf result HostPartialsFault.Disk → ⊥ }
{
    match read_partial(alloc, bytes.as_slice(), host) {
        Ok(partial) => Ok(partial),
        Err(PartialFault::Memory) => Err(HostPartialsFault::Memory),
        Err(PartialFault::BadPartial(_)) => Err(HostPartialsFault::Foreign {
            file: FileId::Partial(host),
            found: bytes,
        }),
    }
}

/// The partial that the file of a host holds, by its place in the order of adding; none if there is no file. Nothing is written.
///
/// `Foreign` comes exactly if the file is there and outside the layout of this host's partial; `Disk` only if the disk's count of
/// faults rose.
pub fn read_partial_of<D: Disk>(
    alloc: Global,
    journal: &mut Journal<D>,
    host: u32,
) -> Result<Option<PartialFile>, HostPartialsFault>
    requires ready { journal.old.halted ≡ false }
    ensures told { IfOk result (λ partial. (all : Files) → told journal.old ≡ Some all → HasPartial host partial (all (PartialOf host))) }
    ensures foreign { IfErr result (SaysForeignOf (told journal.old) host) }
    ensures quiet { Quiet journal.old journal.new }
    ensures counted { Counted (D.fault_count journal.old.disk) (D.fault_count journal.new.disk) (IsErrOf result HostPartialsFault.Disk) }
{
    let found = match journal_view::get(journal, alloc, FileId::Partial(host)) {
        Ok(found) => found,
        Err(JournalFault::Disk) => return Err(HostPartialsFault::Disk),
        Err(JournalFault::Memory) => return Err(HostPartialsFault::Memory),
        Err(JournalFault::Halted) => unreachable!(),
    };
    match found {
        Some(bytes) => match decode(alloc, host, bytes) {
            Ok(partial) => Ok(Some(partial)),
            Err(fault) => Err(fault),
        },
        None => Ok(None),
    }
}

/// What is known of the partial of a host.
fn head_of(partial: Option<PartialFile>) -> Option<PartialHead>
    ensures { result ≡ option_map head_of_file partial }
{
    match partial {
        Some(file) => Some(PartialHead::of_file(&file)),
        None => None,
    }
}

/// What is known of the partials of this many hosts, the first ones in the order of adding, that the files of a journal hold. Nothing is
/// written.
///
/// `Foreign` comes exactly if the file of one of these hosts is there and outside its layout, the first of them; `Disk` only if the
/// disk's count of faults rose.
pub fn read_all<D: Disk>(
    alloc: Global,
    journal: &mut Journal<D>,
    hosts: usize,
) -> Result<HostPartials, HostPartialsFault>
    requires ready { journal.old.halted ≡ false }
    requires few { hosts ≤ 1024 }
    ensures told { IfOk result (λ held. (all : Files) → told journal.old ≡ Some all → AreTold all hosts held) }
    ensures foreign { IfErr result (SaysForeign (told journal.old) hosts) }
    ensures quiet { Quiet journal.old journal.new }
    ensures counted { Counted (D.fault_count journal.old.disk) (D.fault_count journal.new.disk) (IsErrOf result HostPartialsFault.Disk) }
{
    let mut held = HostPartials::new(alloc)?;
    for host in 0..hosts {
        match read_partial_of(alloc, journal, host as u32) {
            Ok(partial) => held.push(head_of(partial)),
            Err(fault) => return Err(fault),
        }
    }
    Ok(held)
}
