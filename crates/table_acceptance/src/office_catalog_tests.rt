ghost use Rattle.std.specs.Prelude.{◌≡◌, false, IfOk};
ghost use Rattle.intent_journal.specs.Changes.{AreChanges};
ghost use Rattle.office_catalog.specs.Changed.{IsFor};

use attr_records::HostName;
use backup_index::{Kind, Line, LineList, Rules};
use disk_trait::{Bytes, Disk, DiskRoom, FileId, MemoryDisk};
use intent_journal::Journal;
use office_catalog::{Catalog, CatalogChange, CatalogFault, open};
use receipts::{Receipt, SessionName, Token};
use std::alloc::{AllocError, Global};
use std::test::Fail;

const ROOM: DiskRoom = DiskRoom {
    changes: 200,
    bytes: 20_000,
};

const FIRST: Line = Line {
    number: 0,
    start: 1000,
    end: 1060,
    kind: Kind::Full,
    filled: true,
    keep: false,
};

const SECOND: Line = Line {
    number: 4,
    start: 2000,
    end: 2060,
    kind: Kind::Incr,
    filled: true,
    keep: false,
};

const RECEIPT: Receipt = Receipt {
    token: Token { bytes: [5; 16] },
    name: SessionName {
        epoch: 2,
        sequence: 7,
    },
    number: 4,
};

fn expect(holds: bool, text: &'static str) -> Result<(), Fail> {
    if holds { Ok(()) } else { Err(Fail::new(text)) }
}

fn journal_of(alloc: Global, disk: MemoryDisk) -> Result<Journal<MemoryDisk>, Fail>
    ensures { IfOk result (λ journal. journal.halted ≡ false) }
{
    match journal_view::open(alloc, disk) {
        Ok(journal) => Ok(journal),
        Err(_) => Err(Fail::new("no journal")),
    }
}

// Commits a change and makes it.
fn make(
    alloc: Global,
    journal: &mut Journal<MemoryDisk>,
    catalog: &mut Catalog,
    change: CatalogChange,
) -> Result<(), Fail>
    requires are { AreChanges change.changes }
    requires fits { IsFor catalog.old change }
{
    journal.commit(alloc, change.changes())?;
    catalog.accept(change);
    Ok(())
}

// Adds a host with the default rules.
fn add(
    alloc: Global,
    journal: &mut Journal<MemoryDisk>,
    catalog: &mut Catalog,
    text: &[u8],
) -> Result<(), Fail> {
    let name = HostName::read(alloc, text)?;
    if catalog.is_full() {
        return Err(Fail::new("no room"));
    }
    if catalog.has(&name) {
        return Err(Fail::new("the host is there"));
    }
    let rules = Rules::defaults(alloc)?;
    let change = catalog.propose_host(alloc, name, rules)?;
    make(alloc, journal, catalog, change)
}

// Raises the epoch.
fn raise(
    alloc: Global,
    journal: &mut Journal<MemoryDisk>,
    catalog: &mut Catalog,
) -> Result<(), Fail> {
    if catalog.epoch() >= u64::MAX {
        return Err(Fail::new("the last epoch"));
    }
    let change = catalog.propose_epoch(alloc)?;
    make(alloc, journal, catalog, change)
}

// Puts a line behind the others of a host, and keeps the receipt of its commit.
fn put(
    alloc: Global,
    journal: &mut Journal<MemoryDisk>,
    catalog: &mut Catalog,
    host: usize,
    line: Line,
    receipt: Option<Receipt>,
) -> Result<(), Fail> {
    if host >= catalog.hosts().len() || !line.filled {
        return Err(Fail::new("no host"));
    }
    if !catalog.may_follow(host, line.number) {
        return Err(Fail::new("the number is given"));
    }
    let change = catalog.propose_line(alloc, host, line, false, receipt)?;
    make(alloc, journal, catalog, change)
}

// Sets the keep flag of a backup.
fn keep(
    alloc: Global,
    journal: &mut Journal<MemoryDisk>,
    catalog: &mut Catalog,
    host: usize,
    number: u32,
) -> Result<(), Fail> {
    if host >= catalog.hosts().len() {
        return Err(Fail::new("no host"));
    }
    match catalog.line_at(host, number) {
        Some(line) => {
            let change = catalog.propose_keep(alloc, host, line, true)?;
            make(alloc, journal, catalog, change)
        }
        None => Err(Fail::new("no line")),
    }
}

// Gives a host no lines.
fn clear(
    alloc: Global,
    journal: &mut Journal<MemoryDisk>,
    catalog: &mut Catalog,
    host: usize,
) -> Result<(), Fail> {
    if host >= catalog.hosts().len() {
        return Err(Fail::new("no host"));
    }
    let lines = LineList::new(alloc);
    if !catalog.may_have(host, &lines) {
        return Err(Fail::new("the lines break a rule"));
    }
    let change = catalog.propose_lines(alloc, host, lines)?;
    make(alloc, journal, catalog, change)
}

// Gives a host other contacts, and rules that let go of old backups after a day.
fn meet(
    alloc: Global,
    journal: &mut Journal<MemoryDisk>,
    catalog: &mut Catalog,
    host: usize,
) -> Result<(), Fail> {
    if host >= catalog.hosts().len() {
        return Err(Fail::new("no host"));
    }
    let mut change = catalog.propose_contacts(alloc, host, 2, 5)?;
    let changes = change.take_changes(alloc);
    journal.commit(alloc, &changes)?;
    catalog.accept(change);
    if host >= catalog.hosts().len() {
        return Err(Fail::new("the host is gone"));
    }
    let rules = Rules::defaults(alloc)?;
    let change = catalog.propose_rules(alloc, host, rules)?;
    make(alloc, journal, catalog, change)
}

// The head of a store in its third epoch with the hosts `a` and `b-1`, and its MD5 as Python's `hashlib` computes it.
const HEAD: &[u8; 38] =
    b"RHD1\x00\x00\x00\x00\x00\x00\x00\x03\x00\x00\x00\x02\x01a\x03b-1\xf4\xae\x71\x55\x00\x08\xdf\x4c\xd3\xfa\x89\x15\x1b\x08\xe8\x7a";

// A store in its third epoch with the hosts `a` and `b-1`, of which the second has two backups, the first of them kept, and a
// receipt of the second.
fn filled(alloc: Global) -> Result<Journal<MemoryDisk>, Fail>
    ensures { IfOk result (λ journal. journal.halted ≡ false) }
{
    let mut journal = journal_of(alloc, MemoryDisk::new(alloc, Vec::new(alloc), ROOM)?)?;
    let mut catalog = open(alloc, &mut journal)?;
    expect(
        catalog.epoch() == 0 && catalog.hosts().is_empty(),
        "not empty",
    )?;
    for _ in 0..3u32 {
        raise(alloc, &mut journal, &mut catalog)?;
    }
    add(alloc, &mut journal, &mut catalog, b"a")?;
    add(alloc, &mut journal, &mut catalog, b"b-1")?;
    put(alloc, &mut journal, &mut catalog, 1, FIRST, None)?;
    put(alloc, &mut journal, &mut catalog, 1, SECOND, Some(RECEIPT))?;
    keep(alloc, &mut journal, &mut catalog, 1, 0)?;
    meet(alloc, &mut journal, &mut catalog, 0)?;
    journal_of(alloc, journal.close())
}

fn bytes_of(alloc: Global, journal: &mut Journal<MemoryDisk>, file: FileId) -> Result<Bytes, Fail> {
    match journal.get(alloc, file)? {
        Some(bytes) => Ok(bytes),
        None => Err(Fail::new("no file")),
    }
}

fn expect_host(
    alloc: Global,
    catalog: &Catalog,
    text: &[u8],
    host: Option<usize>,
) -> Result<(), Fail> {
    let name = HostName::read(alloc, text)?;
    expect(catalog.host_at(&name) == host, "another host")
}

// The receipt of the commit of a dump is found by the dump's name, and no other.
fn expect_receipt(catalog: &Catalog) -> Result<(), Fail> {
    expect(
        catalog.receipt_named(RECEIPT.name) == Some(RECEIPT),
        "another receipt",
    )?;
    let other = SessionName {
        epoch: 7,
        sequence: 2,
    };
    expect(catalog.receipt_named(other).is_none(), "a receipt")
}

// What a catalog says of the two hosts.
fn expect_filled(alloc: Global, catalog: &Catalog) -> Result<(), Fail> {
    expect(catalog.epoch() == 3, "another epoch")?;
    expect_host(alloc, catalog, b"a", Some(0))?;
    expect_host(alloc, catalog, b"b-1", Some(1))?;
    expect_host(alloc, catalog, b"b", None)?;
    let kept = Line {
        filled: false,
        keep: true,
        ..FIRST
    };
    match (catalog.index(0), catalog.index(1)) {
        (Some(a), Some(b)) => {
            expect(a.good() == 2 && a.bad() == 5, "other contacts")?;
            expect(a.next() == 0 && b.next() == 5, "other numbers")?;
            let lines = b.lines().lines();
            expect(lines == [kept, SECOND].as_slice(), "other lines")?;
            expect(
                b.receipts().with_token(RECEIPT.token) == Some(RECEIPT),
                "another receipt",
            )
        }
        _ => Err(Fail::new("no hosts")),
    }
}

#[test]
fn a_catalog_is_opened_again(rt: HostRuntime) -> Result<(), Fail> {
    let alloc = rt.alloc();
    let mut journal = filled(alloc)?;
    let mut catalog = open(alloc, &mut journal)?;
    expect_filled(alloc, &catalog)?;
    expect_receipt(&catalog)?;
    let head = bytes_of(alloc, &mut journal, FileId::Head)?;
    expect(head.as_slice() == HEAD.as_slice(), "another head")?;
    clear(alloc, &mut journal, &mut catalog, 1)?;
    let mut journal = journal_of(alloc, journal.close())?;
    let catalog = open(alloc, &mut journal)?;
    match catalog.index(1) {
        Some(b) => expect(b.lines().is_empty() && b.next() == 5, "lines are left")?,
        None => return Err(Fail::new("no host")),
    }
    expect_receipt(&catalog)
}

// A file, and what it gets or that it goes.
fn with_file(
    alloc: Global,
    journal: Journal<MemoryDisk>,
    file: FileId,
    bytes: Option<&[u8]>,
) -> Result<Journal<MemoryDisk>, Fail>
    ensures { IfOk result (λ journal. journal.halted ≡ false) }
{
    let mut disk = journal.close();
    let changed = match bytes {
        Some(bytes) => disk.write(file, bytes),
        None => disk.remove(file),
    };
    expect(changed.is_ok(), "no change")?;
    journal_of(alloc, disk)
}

// An opening of a store with one file changed finds that file, with these bytes.
fn expect_foreign(alloc: Global, file: FileId, bytes: Option<&[u8]>) -> Result<(), Fail> {
    let mut journal = with_file(alloc, filled(alloc)?, file, bytes)?;
    let (found_file, found) = match open(alloc, &mut journal) {
        Err(CatalogFault::Foreign { file, found }) => (file, found),
        _ => return Err(Fail::new("nothing foreign")),
    };
    expect(found_file.is_same(file), "another file")?;
    match (found, bytes) {
        (Some(found), Some(bytes)) => expect(found.as_slice() == bytes, "other bytes"),
        (None, None) => Ok(()),
        _ => Err(Fail::new("there or not")),
    }
}

#[test]
fn a_file_of_another_kind_is_foreign(rt: HostRuntime) -> Result<(), Fail> {
    let alloc = rt.alloc();
    let other = bytes_of(alloc, &mut filled(alloc)?, FileId::Host(0))?;
    expect_foreign(alloc, FileId::Head, Some(b"abc"))?;
    expect_foreign(alloc, FileId::Host(1), None)?;
    expect_foreign(alloc, FileId::Host(1), Some(b"abc"))?;
    expect_foreign(alloc, FileId::Host(1), Some(other.as_slice()))
}
