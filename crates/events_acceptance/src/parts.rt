//! The parts of a store, and what single events of them are answered.

ghost use Rattle.std.specs.Prelude.{◌≡◌, false, OnOk, IfOk};
ghost use Rattle.intent_journal.specs.Changes.{AreChanges};
ghost use Rattle.office_catalog.specs.Changed.{IsFor};

use attr_records::HostName;
use backup_rules::{Kind, Line, Rules};
use backup_views::Views;
use disk_trait::{DiskRoom, MemoryDisk};
use host_counts::HostCounts;
use host_partials::HostPartials;
use intent_journal::Journal;
use office_catalog::{Catalog, CatalogChange};
use office_model::{Answer, Event, Refusal};
use office_talks::{NOW, Row, event_at, is_told, moment_at};
use open_sessions::Sessions;
use pool_name::{FirstByteNamer, Md5Namer, Namer};
use pool_store::Pool;
use std::alloc::Global;
use std::test::Fail;
use store_cleaning::{clean, sweep};
use store_hosts::{add_host, backups, contact, due, hosts, keep, set_rules, stats};
use store_opening::open;
use store_parts::StoreParts;
use store_reads::{list, lookup, read_file};
use store_restores::{close_read, open_read, read_next};

/// Parts over a disk in memory.
pub type Parts<N> = StoreParts<MemoryDisk, N>;

const ROOM: DiskRoom = DiskRoom {
    changes: 1_000,
    bytes: 100_000,
};

/// The parts of a store that was opened on a disk without files.
pub fn blank_parts(alloc: Global) -> Result<Parts<Md5Namer>, Fail> {
    let disk = MemoryDisk::new(alloc, Vec::new(alloc), ROOM)?;
    match open(alloc, disk, Md5Namer) {
        Ok(parts) => Ok(parts),
        Err(_) => Err(Fail::new("not opened")),
    }
}

/// Fails where the store is halted.
pub fn expect_ready<N: Namer>(parts: &Parts<N>) -> Result<(), Fail>
    ensures store { OnOk result (parts.now.halted ≡ false) }
    ensures journal { OnOk result (parts.now.journal.halted ≡ false) }
{
    if parts.halted || parts.journal.halted() {
        return Err(Fail::new("halted"));
    }
    Ok(())
}

/// Carries out an event of the crates that are tried here.
fn carry_out<N: Namer>(
    parts: &mut Parts<N>,
    alloc: Global,
    event: &Event,
) -> Result<Answer, Refusal>
    requires ready { parts.old.halted ≡ false }
    requires journal_ready { parts.old.journal.halted ≡ false }
{
    match event {
        Event::AddHost { host, rules } => add_host(parts, alloc, host, rules),
        Event::SetRules { host, change } => set_rules(parts, alloc, host, change),
        Event::Contact { host, good } => contact(parts, alloc, host, *good),
        Event::Keep { host, number, on } => keep(parts, alloc, host, *number, *on),
        Event::Due { host, now, local } => due(parts, host, *now, local),
        Event::Backups { host } => backups(parts, alloc, host),
        Event::Hosts => hosts(parts, alloc),
        Event::Stats => stats(parts),
        Event::List {
            host,
            number,
            directory,
        } => list(parts, alloc, host, *number, directory.as_ref()),
        Event::Lookup { host, number, path } => lookup(parts, alloc, host, *number, path),
        // No request reads a file in one event, so one that opens it stands for that.
        Event::OpenFile { host, number, path } => read_file(parts, alloc, host, *number, path),
        Event::OpenRead { host, number, base } => open_read(parts, alloc, host, *number, *base),
        Event::ReadNext { restore } => read_next(parts, alloc, *restore),
        Event::CloseRead { restore } => close_read(parts, *restore),
        Event::Clean { bucket } => clean(parts, alloc, *bucket),
        Event::Sweep => sweep(parts, alloc),
        _ => Err(Refusal::Halted),
    }
}

/// The reply to what a request asks for.
pub fn reply_to<N: Namer>(
    alloc: Global,
    parts: &mut Parts<N>,
    event: &Event,
) -> Result<Result<Answer, Refusal>, Fail> {
    expect_ready(parts)?;
    Ok(carry_out(parts, alloc, event))
}

/// Asks, and fails if the answer is another one.
pub fn expect_row<N: Namer>(alloc: Global, parts: &mut Parts<N>, row: &Row) -> Result<(), Fail> {
    let event = event_at(alloc, moment_at(NOW), row.0, row.1)?;
    let reply = reply_to(alloc, parts, &event)?;
    if is_told(alloc, &event, &reply, row.2)? {
        return Ok(());
    }
    let ask = row.0;
    Err(Fail::new(format_args!("{ask}: {reply:?}")))
}

/// Asks row by row, and fails likewise.
pub fn expect_rows<N: Namer>(
    alloc: Global,
    parts: &mut Parts<N>,
    rows: &[Row],
) -> Result<(), Fail> {
    for row in rows {
        expect_row(alloc, parts, row)?;
    }
    Ok(())
}

/// Commits a change and makes it.
fn make(
    alloc: Global,
    journal: &mut Journal<MemoryDisk>,
    catalog: &mut Catalog,
    change: CatalogChange,
) -> Result<(), Fail>
    requires are { AreChanges change.changes }
    requires fits { IsFor catalog.old change }
{
    journal.commit(alloc, change.changes())?;
    catalog.accept(change);
    Ok(())
}

/// Adds the host `a`.
fn add(
    alloc: Global,
    journal: &mut Journal<MemoryDisk>,
    catalog: &mut Catalog,
) -> Result<(), Fail> {
    let name = HostName::read(alloc, b"a")?;
    if catalog.is_full() || catalog.has(&name) {
        return Err(Fail::new("no room"));
    }
    let change = catalog.propose_host(alloc, name, Rules::defaults(alloc)?)?;
    make(alloc, journal, catalog, change)
}

/// Puts the line of a backup behind the others, of which the last is no longer filled.
fn put(
    alloc: Global,
    journal: &mut Journal<MemoryDisk>,
    catalog: &mut Catalog,
    number: u32,
) -> Result<(), Fail> {
    if catalog.hosts().is_empty() {
        return Err(Fail::new("no host"));
    }
    if !catalog.may_follow(0, number) {
        return Err(Fail::new("the number is given"));
    }
    let line = Line {
        number,
        start: 0,
        end: 0,
        kind: Kind::Incr,
        filled: true,
        keep: false,
    };
    let change = catalog.propose_line(alloc, 0, line, false, None)?;
    make(alloc, journal, catalog, change)
}

fn journal_of(alloc: Global, disk: MemoryDisk) -> Result<Journal<MemoryDisk>, Fail>
    ensures { IfOk result (λ journal. journal.halted ≡ false) }
{
    match journal_view::open(alloc, disk) {
        Ok(journal) => Ok(journal),
        Err(_) => Err(Fail::new("the journal doesn't open")),
    }
}

/// The parts over a disk of tables and contents, of a host `a` with backups of these numbers.
pub fn parts_with(
    alloc: Global,
    disk: MemoryDisk,
    numbers: &[u32],
) -> Result<Parts<FirstByteNamer>, Fail> {
    let mut journal = journal_of(alloc, disk)?;
    let mut catalog = office_catalog::open(alloc, &mut journal)?;
    add(alloc, &mut journal, &mut catalog)?;
    for number in numbers {
        put(alloc, &mut journal, &mut catalog, *number)?;
    }
    if journal.halted() {
        return Err(Fail::new("the journal is halted"));
    }
    let pool = Pool::open(alloc, &mut journal, FirstByteNamer)?;
    Ok(StoreParts {
        journal,
        pool,
        catalog,
        counts: HostCounts::new(alloc)?,
        partials: HostPartials::new(alloc)?,
        sessions: Sessions::new(alloc),
        views: Views::new(),
        halted: false,
    })
}
