use crate::folders::{MIXED_CALLS, expect, failing, fill, folder, mixed};
use crate::hosts::{
    Backup, Host, dump, dump_telling, dumped, expect_backups, expect_restored, new_host,
};
use crate::strange::{Odd, new_strange};
use crate::told::{Told, expect_mixed, told_nothing};
use attr_records::BadPath;
use backup_rules::Kind;
use folder_trait::{Folder, MemoryFolder};
use folder_walk::DumpRefusal;
use office_model::Refusal;
use std::alloc::Global;
use std::test::Fail;

/// The rule of a path that is broken.
fn path_rule(rule: BadPath) -> &'static str {
    match rule {
        BadPath::NotUtf8 => "NotUtf8",
        BadPath::Empty => "Empty",
        BadPath::TooLong => "TooLong",
        BadPath::Nul => "Nul",
        BadPath::EmptyComponent => "EmptyComponent",
        BadPath::Dot => "Dot",
        BadPath::LongComponent => "LongComponent",
        BadPath::Memory => "Memory",
    }
}

/// A refusal as text.
fn text(refusal: &DumpRefusal) -> &'static str {
    match refusal {
        DumpRefusal::Refused(Refusal::Broken(rule)) => rule.name(),
        DumpRefusal::Refused(_) => "Refused",
        DumpRefusal::BadPath(rule) => path_rule(*rule),
        DumpRefusal::BadTarget => "BadTarget",
        DumpRefusal::FileTooLarge => "FileTooLarge",
        DumpRefusal::Folder => "Folder",
        DumpRefusal::Memory => "Memory",
    }
}

/// A host, what its folder lists, and how the dump is refused.
struct Refused(&'static str, Odd, &'static str);

const LONG: &[u8] = &[b'a'; 256];

const REFUSED: &[Refused] = &[
    Refused("pc2", Odd::Nothing, "NoHost"),
    Refused("pc1", Odd::Name(b"a/b"), "NoParent"),
    Refused("pc1", Odd::Name(b"a/"), "EmptyComponent"),
    Refused("pc1", Odd::Name(b".."), "Dot"),
    Refused("pc1", Odd::Name(b""), "Empty"),
    Refused("pc1", Odd::Name(b"\0"), "Nul"),
    Refused("pc1", Odd::Name(b"\xff"), "NotUtf8"),
    Refused("pc1", Odd::Name(LONG), "LongComponent"),
    Refused("pc1", Odd::Link, "BadTarget"),
    Refused("pc1", Odd::Large(1_099_511_627_776), "FileTooLarge"),
];

/// How a dump of a folder with something odd in it is refused.
fn end_of_odd(alloc: Global, host: &mut Host, odd: Odd) -> Result<&'static str, Fail> {
    let mut folder = new_strange(folder(alloc, mixed())?, odd);
    match dump(alloc, host, &mut folder, Kind::Full) {
        Ok(_) => Ok("dumped"),
        Err(refusal) => Ok(text(&refusal)),
    }
}

/// A dump is refused so, and leaves no backup and no open dump.
fn expect_refused(alloc: Global, refused: &Refused) -> Result<(), Fail> {
    let mut host = new_host(alloc, refused.0)?;
    let end = end_of_odd(alloc, &mut host, refused.1)?;
    expect(end == refused.2, refused.2)?;
    expect_backups(alloc, &mut host, 0)
}

#[test]
fn refused_dump_leaves_the_backups_as_they_were(rt: HostRuntime) -> Result<(), Fail> {
    for refused in REFUSED {
        expect_refused(rt.alloc(), refused)?;
    }
    Ok(())
}

/// A folder of mixed entries that fails this one of the calls behind those that made it.
fn failing_mixed(alloc: Global, call: u64) -> Result<MemoryFolder, Fail> {
    let mut folder = failing(alloc, MIXED_CALLS.saturating_add(call))?;
    fill(alloc, &mut folder, mixed())?;
    Ok(folder)
}

/// Whether a dump ends so if this call of the folder fails, and the folder counts one fault.
fn has_failed(alloc: Global, host: &mut Host, kind: Kind, call: u64) -> Result<bool, Fail> {
    let mut folder = failing_mixed(alloc, call)?;
    let failed = matches!(
        dump(alloc, host, &mut folder, kind),
        Err(DumpRefusal::Folder)
    );
    Ok(failed && folder.faults() == 1)
}

/// A dump in which this call of the folder fails ends so, and leaves no backup more and no open dump.
fn expect_failed(alloc: Global, kind: Kind, call: u64) -> Result<(), Fail> {
    let mut host = dumped(alloc)?;
    expect(has_failed(alloc, &mut host, kind, call)?, "another end")?;
    expect_backups(alloc, &mut host, 1)
}

/// So does each of these calls, and there are no others.
fn expect_each_failed(alloc: Global, kind: Kind, calls: u64) -> Result<(), Fail> {
    for call in 0..calls {
        expect_failed(alloc, kind, call)?;
    }
    let mut host = dumped(alloc)?;
    expect(
        !has_failed(alloc, &mut host, kind, calls)?,
        "a further call",
    )
}

/// It lists both directories and reads four files; an incremental lists them once more.
#[test]
fn dump_ends_at_each_call_of_the_folder_that_fails(rt: HostRuntime) -> Result<(), Fail> {
    expect_each_failed(rt.alloc(), Kind::Full, 6)?;
    expect_each_failed(rt.alloc(), Kind::Incr, 8)
}

/// Dumps a folder of mixed entries and a file that has gone.
fn dump_gone(alloc: Global, host: &mut Host, gone: Odd) -> Result<Told, Fail> {
    let mut folder = new_strange(folder(alloc, mixed())?, gone);
    let mut told = told_nothing();
    dump_telling(alloc, host, &mut folder, Kind::Full, &mut told)?;
    Ok(told)
}

/// A file that has gone is passed over and told, and the others are the backup.
fn expect_passed_over(alloc: Global, gone: Odd) -> Result<(), Fail> {
    let mut host = new_host(alloc, "pc1")?;
    let told = dump_gone(alloc, &mut host, gone)?;
    expect_mixed(told, 1)?;
    expect_restored(alloc, &mut host, &Backup(0, Kind::Full, mixed(), 1))
}

#[test]
fn file_that_has_gone_is_passed_over_and_told(rt: HostRuntime) -> Result<(), Fail> {
    for gone in [Odd::Gone, Odd::Large(67_108_865)] {
        expect_passed_over(rt.alloc(), gone)?;
    }
    Ok(())
}
