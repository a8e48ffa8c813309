//! A host of an office in memory.

use crate::folders::{Row, empty, expect, expect_rows, folder, mixed};
use crate::strange::{Odd, new_strange};
use attr_records::HostName;
use backup_rules::{Kind, Rules};
use folder_restore::{RestoreRefusal, restore_folder};
use folder_trait::{Folder, NoProgress, Progress};
use folder_walk::{DumpRefusal, dump_folder};
use office_model::{Answer, Event, Port, Refusal};
use pool_name::Md5Namer;
use std::alloc::Global;
use std::test::Fail;
use stream_traits::{FixedClock, Moment};
use tree_office::TreeOffice;

/// An office in memory that counts its calls.
#[derive(Drop)]
pub(crate) struct Counting {
    office: TreeOffice<Md5Namer>,
    pub calls: u64,
}

impl Port for Counting {
    ghost moves = { λ p calls q. Unit {0} };

    fn call(&mut self, alloc: Global, event: &Event) -> Result<Answer, Refusal> {
        self.calls = self.calls.saturating_add(1);
        self.office.call(alloc, event)
    }

    ghost none = { λ p. tt };

    ghost joined = { λ p q r xs ys a b. tt };
}

/// A host of an office.
#[derive(Drop)]
pub(crate) struct Host {
    pub port: Counting,
    pub name: HostName,
}

fn host_name(alloc: Global, name: &str) -> Result<HostName, Fail> {
    Ok(HostName::read(alloc, name.as_bytes())?)
}

/// The host of a name in an office of pc1, which has no backup.
pub(crate) fn new_host(alloc: Global, name: &str) -> Result<Host, Fail> {
    let mut port = Counting {
        office: TreeOffice::new(alloc, Md5Namer),
        calls: 0,
    };
    let host = host_name(alloc, "pc1")?;
    let rules = Rules::defaults(alloc)?;
    let added = port.call(alloc, &Event::AddHost { host, rules });
    expect(added.is_ok(), "no host")?;
    let name = host_name(alloc, name)?;
    Ok(Host { port, name })
}

/// Dumps a folder, and tells how far it is.
pub(crate) fn dump_telling<F: Folder, G: Progress>(
    alloc: Global,
    host: &mut Host,
    folder: &mut F,
    kind: Kind,
    progress: &mut G,
) -> Result<u32, DumpRefusal> {
    let mut clock = FixedClock::new(Moment::first());
    dump_folder(
        alloc,
        &mut host.port,
        folder,
        &host.name,
        kind,
        &mut clock,
        progress,
    )
}

pub(crate) fn dump<F: Folder>(
    alloc: Global,
    host: &mut Host,
    folder: &mut F,
    kind: Kind,
) -> Result<u32, DumpRefusal> {
    dump_telling(alloc, host, folder, kind, &mut NoProgress)
}

/// Restores a backup, and tells how far it is.
pub(crate) fn restore_telling<F: Folder, G: Progress>(
    alloc: Global,
    host: &mut Host,
    folder: &mut F,
    number: u32,
    progress: &mut G,
) -> Result<u32, RestoreRefusal> {
    restore_folder(alloc, &mut host.port, folder, &host.name, number, progress)
}

pub(crate) fn restore<F: Folder>(
    alloc: Global,
    host: &mut Host,
    folder: &mut F,
    number: u32,
) -> Result<u32, RestoreRefusal> {
    restore_telling(alloc, host, folder, number, &mut NoProgress)
}

/// The number of a backup, its kind, its entries, and how many hard links a restore makes of them.
#[derive(Clone, Copy)]
pub(crate) struct Backup(pub u32, pub Kind, pub &'static [Row], pub u64);

/// Dumps a folder of these entries, and fails unless the backup has its number.
pub(crate) fn expect_dumped(alloc: Global, host: &mut Host, backup: &Backup) -> Result<(), Fail> {
    let mut folder = folder(alloc, backup.2)?;
    let number = dump(alloc, host, &mut folder, backup.1)?;
    expect(number == backup.0, "another number")
}

/// Restores a backup into a folder, and fails unless its entries lie there then.
pub(crate) fn expect_restored(alloc: Global, host: &mut Host, backup: &Backup) -> Result<(), Fail> {
    let mut back = new_strange(empty(alloc), Odd::Nothing);
    let entries = restore(alloc, host, &mut back, backup.0)?;
    expect(entries as usize == backup.2.len(), "other entries")?;
    expect(back.links == backup.3, "other links")?;
    expect_rows(alloc, &back.inside, backup.2)
}

/// The host pc1 with a full backup of mixed entries.
pub(crate) fn dumped(alloc: Global) -> Result<Host, Fail> {
    let mut host = new_host(alloc, "pc1")?;
    expect_dumped(alloc, &mut host, &Backup(0, Kind::Full, mixed(), 1))?;
    Ok(host)
}

/// There are so many backups and no open dump, and pc1 is dumped once more.
pub(crate) fn expect_backups(alloc: Global, host: &mut Host, count: u32) -> Result<(), Fail> {
    let stats = match host.port.call(alloc, &Event::Stats) {
        Ok(Answer::Stats(stats)) => stats,
        _ => return Err(Fail::new("no numbers")),
    };
    expect(stats.backups == count as u64, "other backups")?;
    expect(stats.dumps == 0, "an open dump")?;
    host.name = host_name(alloc, "pc1")?;
    expect_dumped(alloc, host, &Backup(count, Kind::Full, &[], 0))
}
