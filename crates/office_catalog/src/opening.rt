//! Reading a catalog from the files of a journal.

ghost use Rattle.std.specs.Prelude.{◌≡◌, ◌⊎◌, ◌<◌, ℕ, List, Option, true, false, Some, None, length, IfOk, IfErr, OnOk, OnErr, IsErrOf};
ghost use Rattle.fault_counts.specs.Counts.{Counted};
ghost use Rattle.disk_trait.specs.Files.{Files};
ghost use Rattle.disk_trait.specs.declared.ids.FileId.{FileId as File};
ghost use Rattle.disk_trait.specs.declared.ids.FileId.TheVariants.{Head, Host};
ghost use Rattle.journal_view.specs.Found.{is_seen};
ghost use Rattle.journal_view.specs.View.{told, Quiet};
ghost use Rattle.backup_index.specs.Names.{has_name};
ghost use Rattle.office_catalog.specs.Known.{known_of, new_host, with_host, names_of, IsHost};
ghost use Rattle.office_catalog.specs.Held.{HoldsHead, HoldsCatalog, HoldsIndex};
ghost use Rattle.office_catalog.specs.Opening.{IsHeadOf, TellsHead, IsCalled, IsPushed, SaysHost, SaysForeign};

use crate::catalog::Catalog;
use crate::fault::CatalogFault;
use crate::named::NamedHost;
use crate::reading::{head_in, index_in};
use attr_records::HostName;
use backup_index::{HeadFile, HostIndex};
use disk_trait::{Bytes, Disk, FileId};
use intent_journal::{Journal, JournalFault};
use std::alloc::{AllocError, Global};

/// What a fault of a journal that isn't halted is to a catalog.
fn fault_of(fault: JournalFault) -> CatalogFault
    requires { fault ≡ JournalFault.Halted → ⊥ }
    ensures kind { (result ≡ CatalogFault.Disk) ⊎ (result ≡ CatalogFault.Memory) }
    ensures disk { result ≡ CatalogFault.Disk → fault ≡ JournalFault.Disk }
    ensures failed { fault ≡ JournalFault.Disk → result ≡ CatalogFault.Disk }
{
    match fault {
        JournalFault::Disk => CatalogFault::Disk,
        JournalFault::Memory => CatalogFault::Memory,
        JournalFault::Halted => unreachable!(),
    }
}

/// The bytes of a file.
fn read_file<D: Disk>(
    alloc: Global,
    journal: &mut Journal<D>,
    file: FileId,
) -> Result<Option<Bytes>, CatalogFault>
    requires ready { journal.old.halted ≡ false }
    requires seen { is_seen file ≡ true }
    ensures found { IfOk result (λ found. (all : Files) → told journal.old ≡ Some all → found ≡ all file) }
    ensures fault { IfErr result (λ fault. (fault ≡ CatalogFault.Disk) ⊎ (fault ≡ CatalogFault.Memory)) }
    ensures quiet { Quiet journal.old journal.new }
    ensures counted { Counted (D.fault_count journal.old.disk) (D.fault_count journal.new.disk) (IsErrOf result CatalogFault.Disk) }
{
    match journal_view::get(journal, alloc, file) {
        Ok(found) => Ok(found),
        Err(fault) => Err(fault_of(fault)),
    }
}

/// What Head says, if it is there.
fn read_head<D: Disk>(
    alloc: Global,
    journal: &mut Journal<D>,
) -> Result<Option<HeadFile>, CatalogFault>
    requires { journal.old.halted ≡ false }
    ensures head { IfOk result (λ head. (all : Files) → told journal.old ≡ Some all → IsHeadOf head (all Head)) }
    ensures foreign { IfErr result (SaysForeign (told journal.old)) }
    ensures quiet { Quiet journal.old journal.new }
    ensures counted { Counted (D.fault_count journal.old.disk) (D.fault_count journal.new.disk) (IsErrOf result CatalogFault.Disk) }
{
    let bytes = match read_file(alloc, journal, FileId::Head) {
        Ok(Some(bytes)) => bytes,
        Ok(None) => return Ok(None),
        Err(fault) => return Err(fault),
    };
    match head_in(alloc, bytes) {
        Ok(head) => Ok(Some(head)),
        Err(fault) => Err(fault),
    }
}

/// The index of a host of this number and name.
fn read_host<D: Disk>(
    alloc: Global,
    journal: &mut Journal<D>,
    host: u32,
    name: &HostName,
) -> Result<HostIndex, CatalogFault>
    requires { journal.old.halted ≡ false }
    ensures called { IfOk result (IsCalled host name.now) }
    ensures held { IfOk result (λ index. (all : Files) → told journal.old ≡ Some all → HoldsIndex index (all (Host host))) }
    ensures foreign { IfErr result (SaysHost (told journal.old) host name.now) }
    ensures quiet { Quiet journal.old journal.new }
    ensures counted { Counted (D.fault_count journal.old.disk) (D.fault_count journal.new.disk) (IsErrOf result CatalogFault.Disk) }
{
    let found = match read_file(alloc, journal, FileId::Host(host)) {
        Ok(found) => found,
        Err(fault) => return Err(fault),
    };
    match index_in(alloc, host, name, found) {
        Ok(index) => Ok(index),
        Err(fault) => Err(fault),
    }
}

/// Puts the index of a host behind the others.
fn push(
    alloc: Global,
    catalog: &mut Catalog,
    name: &HostName,
    index: HostIndex,
) -> Result<(), AllocError>
    requires room { length catalog.old.hosts < 1024 }
    requires fresh { has_name (names_of catalog.old.hosts) name.now ≡ false }
    requires called { IsCalled (length catalog.old.hosts) name.now index }
    ensures ok { OnOk result (catalog.new ≡ with_host catalog.old index) }
    ensures err { OnErr result (catalog.new ≡ catalog.old) }
{
    let _sound = index.lines();
    let number = catalog.hosts().len() as u32;
    let name = name.copy(alloc)?;
    catalog.add(NamedHost { name, number }, index);
    Ok(())
}

/// The index of the next host of a head, put behind those before it.
fn read_next<D: Disk>(
    alloc: Global,
    journal: &mut Journal<D>,
    catalog: &mut Catalog,
    name: &HostName,
) -> Result<(), CatalogFault>
    requires ready { journal.old.halted ≡ false }
    requires room { length catalog.old.hosts < 1024 }
    requires fresh { has_name (names_of catalog.old.hosts) name.now ≡ false }
    ensures pushed { OnOk result (IsPushed (told journal.old) name.now catalog.old catalog.new) }
    ensures foreign { IfErr result (SaysHost (told journal.old) (length catalog.old.hosts) name.now) }
    ensures quiet { Quiet journal.old journal.new }
    ensures counted { Counted (D.fault_count journal.old.disk) (D.fault_count journal.new.disk) (IsErrOf result CatalogFault.Disk) }
{
    let host = catalog.hosts().len() as u32;
    let index = match read_host(alloc, journal, host, name) {
        Ok(index) => index,
        Err(fault) => return Err(fault),
    };
    push(alloc, catalog, name, index)?;
    Ok(())
}

/// The catalog of a head.
fn read_hosts<D: Disk>(
    alloc: Global,
    journal: &mut Journal<D>,
    head: &HeadFile,
) -> Result<Catalog, CatalogFault>
    requires { journal.old.halted ≡ false }
    ensures opened { IfOk result (λ catalog. (all : Files) → told journal.old ≡ Some all → HoldsHead head.now (all Head) → HoldsCatalog all catalog) }
    ensures foreign { IfErr result (λ fault. TellsHead (told journal.old) head.now → SaysForeign (told journal.old) fault) }
    ensures quiet { Quiet journal.old journal.new }
    ensures counted { Counted (D.fault_count journal.old.disk) (D.fault_count journal.new.disk) (IsErrOf result CatalogFault.Disk) }
{
    let mut catalog = Catalog::with_epoch(alloc, head.epoch)?;
    for name in head.names.names() {
        match read_next(alloc, journal, &mut catalog, name) {
            Ok(()) => {}
            Err(fault) => return Err(fault),
        }
    }
    let _hosts = catalog.hosts();
    Ok(catalog)
}

/// The catalog that the files of a journal hold. Nothing is written.
///
/// An absent Head stands for no hosts and epoch 0, whatever Host files there are: that none is there but those that Head
/// calls for is judged by who lists the files. `Foreign` comes exactly where Head is outside its layout, or the file of
/// a host that it names is absent, outside its layout or of another number or name, the first of these in the order of
/// the hosts; `Disk` only where the disk's count of faults rose.
pub fn open<D: Disk>(alloc: Global, journal: &mut Journal<D>) -> Result<Catalog, CatalogFault>
    requires { journal.old.halted ≡ false }
    ensures opened { IfOk result (λ catalog. (all : Files) → told journal.old ≡ Some all → HoldsCatalog all catalog) }
    ensures foreign { IfErr result (SaysForeign (told journal.old)) }
    ensures quiet { Quiet journal.old journal.new }
    ensures counted { Counted (D.fault_count journal.old.disk) (D.fault_count journal.new.disk) (IsErrOf result CatalogFault.Disk) }
{
    match read_head(alloc, journal) {
        Ok(Some(head)) => read_hosts(alloc, journal, &head),
        Ok(None) => Ok(Catalog::with_epoch(alloc, 0)?),
        Err(fault) => Err(fault),
    }
}
