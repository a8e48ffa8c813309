use crate::folders::{Row, What, empty, expect, expect_rows, failing, folder, mixed};
use crate::hosts::{
    Backup, Host, dumped, expect_backups, expect_dumped, expect_restored, new_host, restore,
    restore_telling,
};
use crate::told::{expect_mixed, told_nothing};
use backup_rules::Kind;
use folder_restore::RestoreRefusal;
use folder_trait::Folder;
use office_model::{BrokenRule, Refusal};
use std::alloc::Global;
use std::test::Fail;

const SIMPLE: &[Row] = &[Row("d", What::Dir), Row("d/f", What::File("x"))];

fn simple() -> &'static [Row] {
    SIMPLE
}

/// A folder is dumped, and comes back.
fn expect_back(alloc: Global, backup: &Backup) -> Result<(), Fail> {
    let mut host = new_host(alloc, "pc1")?;
    expect_dumped(alloc, &mut host, backup)?;
    expect_restored(alloc, &mut host, backup)
}

#[test]
fn folder_comes_back_as_it_was_dumped(rt: HostRuntime) -> Result<(), Fail> {
    let alloc = rt.alloc();
    expect_back(alloc, &Backup(0, Kind::Full, &[], 0))?;
    expect_back(alloc, &Backup(0, Kind::Full, simple(), 0))?;
    expect_back(alloc, &Backup(0, Kind::Full, mixed(), 1))
}

/// A file that becomes a directory, a directory that becomes a file, and what goes, stays, changes and comes.
const BEFORE: &[Row] = &[
    Row("becomes", What::File("1")),
    Row("changes", What::File("2")),
    Row("goes", What::Dir),
    Row("goes/too", What::Link("3")),
    Row("stays", What::File("4")),
    Row("was", What::Dir),
    Row("was/in", What::File("5")),
];

const AFTER: &[Row] = &[
    Row("becomes", What::Dir),
    Row("becomes/comes", What::Grouped(2, "6")),
    Row("changes", What::File("7")),
    Row("comes", What::Grouped(2, "6")),
    Row("stays", What::File("4")),
    Row("was", What::File("8")),
];

const FULL: Backup = Backup(0, Kind::Full, BEFORE, 0);

const INCREMENTAL: Backup = Backup(1, Kind::Incr, AFTER, 1);

#[test]
fn incremental_comes_back_beside_the_one_before(rt: HostRuntime) -> Result<(), Fail> {
    let mut host = new_host(rt.alloc(), "pc1")?;
    expect_dumped(rt.alloc(), &mut host, &FULL)?;
    expect_dumped(rt.alloc(), &mut host, &INCREMENTAL)?;
    expect_restored(rt.alloc(), &mut host, &FULL)?;
    expect_restored(rt.alloc(), &mut host, &INCREMENTAL)
}

#[test]
fn restore_tells_its_entries_and_bytes(rt: HostRuntime) -> Result<(), Fail> {
    let alloc = rt.alloc();
    let mut host = dumped(alloc)?;
    let mut told = told_nothing();
    restore_telling(alloc, &mut host, &mut empty(alloc), 0, &mut told)?;
    expect_mixed(told, 0)
}

/// A restore into a folder with something in it is refused, makes nothing, and calls nothing.
fn expect_not_empty(alloc: Global, host: &mut Host) -> Result<(), Fail> {
    let mut there = folder(alloc, simple())?;
    let calls = host.port.calls;
    let refused = matches!(
        restore(alloc, host, &mut there, 0),
        Err(RestoreRefusal::NotEmpty)
    );
    expect(refused, "no refusal")?;
    expect(host.port.calls == calls, "a call")?;
    expect_rows(alloc, &there, simple())
}

#[test]
fn restore_into_a_folder_that_isnt_empty_calls_nothing(rt: HostRuntime) -> Result<(), Fail> {
    let mut host = dumped(rt.alloc())?;
    expect_not_empty(rt.alloc(), &mut host)
}

/// A restore that is refused by a rule of the office makes nothing.
fn expect_refused(
    alloc: Global,
    host: &mut Host,
    number: u32,
    rule: BrokenRule,
) -> Result<(), Fail> {
    let mut back = empty(alloc);
    match restore(alloc, host, &mut back, number) {
        Err(RestoreRefusal::Refused(Refusal::Broken(broken))) => expect(
            broken == rule,
            "another rule",
        )?,
        _ => return Err(Fail::new("no refusal")),
    }
    expect(back.tree().is_empty(), "it made something")
}

#[test]
fn restore_of_what_isnt_there_is_refused(rt: HostRuntime) -> Result<(), Fail> {
    let alloc = rt.alloc();
    expect_refused(alloc, &mut dumped(alloc)?, 1, BrokenRule::NoBackup)?;
    expect_refused(alloc, &mut new_host(alloc, "pc2")?, 0, BrokenRule::NoHost)
}

/// Whether a restore ends so if this call of the folder fails, and the folder counts one fault.
fn has_failed(alloc: Global, host: &mut Host, call: u64) -> Result<bool, Fail> {
    let mut folder = failing(alloc, call)?;
    let failed = matches!(
        restore(alloc, host, &mut folder, 0),
        Err(RestoreRefusal::Folder)
    );
    Ok(failed && folder.faults() == 1)
}

/// A restore in which this call of the folder fails ends so, and leaves the backups as they were.
fn expect_failed(alloc: Global, call: u64) -> Result<(), Fail> {
    let mut host = dumped(alloc)?;
    expect(has_failed(alloc, &mut host, call)?, "another end")?;
    expect_backups(alloc, &mut host, 1)
}

/// It looks at the folder, makes five entries and a hard link, finishes a directory, and reads a file of the group twice.
const CALLS: u64 = 10;

#[test]
fn restore_ends_at_each_call_of_the_folder_that_fails(rt: HostRuntime) -> Result<(), Fail> {
    for call in 0..CALLS {
        expect_failed(rt.alloc(), call)?;
    }
    let mut host = dumped(rt.alloc())?;
    expect(!has_failed(rt.alloc(), &mut host, CALLS)?, "a further call")
}
