//! The folder commands over disks and folders that fail.

use crate::runs::{
    Case, Machine, NEVER, PIPE, Ran, SERVED, Want, expect_end, expect_run_over, new_disk, run_in,
};
use admin_cli::Note;
use attr_records::{Attr, Dir, File, Item, Link, LinkTarget, PathName};
use disk_trait::{Bytes, Disk, MemoryDisk};
use folder_trait::{Folder, MemoryFolder};
use office_model::BrokenRule;
use std::alloc::Global;
use std::test::Fail;
use stream_traits::OpenGate;

/// What stands at a path: a directory, a file by its group of hard links and its bytes, or the target of a link.
enum What {
    Dir,
    File(u32, &'static str),
    Link(&'static str),
}

/// A path with what stands there.
struct Row(&'static str, What);

/// Two directories, a file, two hard links of another one, and a link.
const BEFORE: &[Row] = &[
    Row("d", What::Dir),
    Row("d/f", What::File(0, "x")),
    Row("e", What::Dir),
    Row("g", What::File(7, "one")),
    Row("h", What::File(7, "one")),
    Row("l", What::Link("d/f")),
];

/// A file has other bytes, one has become a directory, and one and a directory have gone.
const AFTER: &[Row] = &[
    Row("d", What::Dir),
    Row("d/f", What::File(0, "other")),
    Row("g", What::Dir),
    Row("g/c", What::File(0, "one")),
    Row("l", What::Link("d/f")),
];

/// A folder command over the store that those before it left, and the backup that it is about.
struct Command {
    line: &'static str,
    /// What lies in the folder that it is given.
    given: &'static [Row],
    /// What it says.
    said: &'static str,
    /// How many calls of the disk it makes: most are of the opening, which looks for each file of the pool's index.
    disk_calls: u64,
    /// How many calls of the folder it makes.
    folder_calls: u64,
    /// The command that restores the backup.
    restore: &'static str,
    /// What the backup has.
    tree: &'static [Row],
    /// Whether the backup is there before.
    is_there: bool,
}

/// A full dump, an incremental one, and a restore of the first backup.
const COMMANDS: &[Command] = &[
    Command {
        line: "backup_server dump-folder --host pc1 --kind full --store store folder",
        given: BEFORE,
        said: "committed pc1 0\n",
        disk_calls: 290,
        folder_calls: 6,
        restore: RESTORE_FIRST,
        tree: BEFORE,
        is_there: false,
    },
    Command {
        line: "backup_server dump-folder --host pc1 --kind incr --store store folder",
        given: AFTER,
        said: "committed pc1 1\n",
        disk_calls: 290,
        folder_calls: 7,
        restore: "backup_server restore-folder --host pc1 --number 1 --store store folder",
        tree: AFTER,
        is_there: false,
    },
    Command {
        line: RESTORE_FIRST,
        given: &[],
        said: "restored pc1 0 6\n",
        disk_calls: 278,
        folder_calls: 10,
        restore: RESTORE_FIRST,
        tree: BEFORE,
        is_there: true,
    },
];

const RESTORE_FIRST: &str =
    "backup_server restore-folder --host pc1 --number 0 --store store folder";

fn commands() -> &'static [Command] {
    COMMANDS
}

/// How a run ends in which the disk fails, and one in which the folder does.
const DISK_FAILED: Want<'static> = Want {
    status: 4,
    said: "disk failed",
    output: "",
};

const FOLDER_FAILED: Want<'static> = Want {
    status: 3,
    said: "folder failed",
    output: "",
};

fn attr() -> Attr {
    Attr::new(0o640, 1, 2, 1_600_000_000, 3)
}

fn file(alloc: Global, group: u32, text: &str) -> Result<Item, Fail> {
    Ok(Item::File(File {
        attr: attr(),
        group,
        bytes: Bytes::from_slice(alloc, text.as_bytes())?,
    }))
}

fn item_of(alloc: Global, what: &What) -> Result<Item, Fail> {
    match what {
        What::Dir => Ok(Item::Dir(Dir { attr: attr() })),
        What::File(group, text) => file(alloc, *group, text),
        What::Link(target) => Ok(Item::Link(Link {
            attr: Attr::link_default(),
            target: LinkTarget::read(alloc, target.as_bytes())?,
        })),
    }
}

/// Makes an entry.
fn make(alloc: Global, folder: &mut MemoryFolder, row: &Row) -> Result<(), Fail> {
    let path = PathName::read(alloc, row.0.as_bytes())?;
    let item = item_of(alloc, &row.1)?;
    Ok(folder.make(alloc, &path, &item)?)
}

/// Gives an entry its attributes, if it is a directory.
fn finish(alloc: Global, folder: &mut MemoryFolder, row: &Row) -> Result<(), Fail> {
    if !matches!(row.1, What::Dir) {
        return Ok(());
    }
    let path = PathName::read(alloc, row.0.as_bytes())?;
    Ok(folder.finish(alloc, &path, &Dir { attr: attr() })?)
}

/// How many calls make these entries.
fn calls_of(rows: &[Row]) -> u64 {
    let mut calls = rows.len() as u64;
    for row in rows {
        if matches!(row.1, What::Dir) {
            calls = calls.saturating_add(1);
        }
    }
    calls
}

/// A folder of these entries, of which this one of the calls behind those that made it fails.
fn folder_of(alloc: Global, rows: &[Row], fails: u64) -> Result<MemoryFolder, Fail> {
    let fails = Vec::from_array(alloc, [calls_of(rows).saturating_add(fails)])?;
    let mut folder = MemoryFolder::new(alloc, fails);
    for row in rows {
        make(alloc, &mut folder, row)?;
    }
    for row in rows {
        finish(alloc, &mut folder, row)?;
    }
    Ok(folder)
}

/// A disk with the files of a store, of which this one of the calls behind those that wrote them fails.
fn disk_with(alloc: Global, store: &mut MemoryDisk, fails: u64) -> Result<MemoryDisk, Fail> {
    let files = store.list(alloc)?;
    let written = files.as_slice().len() as u64;
    let mut disk = new_disk(alloc, written.saturating_add(fails))?;
    for file in files.as_slice() {
        if let Some(bytes) = store.read(alloc, *file)? {
            disk.write(*file, bytes.as_slice())?;
        }
    }
    Ok(disk)
}

/// Runs a line over this disk and this folder.
fn run_line(
    rt: &impl Machine,
    line: &str,
    disk: MemoryDisk,
    folder: &mut MemoryFolder,
) -> Result<Ran<OpenGate>, Fail> {
    let case = Case { line, ..PIPE };
    Ok(run_in(rt, &case, disk, Vec::new(rt.alloc()), folder)?)
}

/// Runs a command over this disk and a folder that fails this call. Fails where it ends otherwise, and gives the disk back.
fn ended(
    rt: &impl Machine,
    disk: MemoryDisk,
    command: &Command,
    folder_fails: u64,
    want: &Want<'_>,
) -> Result<MemoryDisk, Fail> {
    let mut folder = folder_of(rt.alloc(), command.given, folder_fails)?;
    let done = run_line(rt, command.line, disk, &mut folder)?;
    expect_end(rt.alloc(), &done, want)?;
    Ok(done.disk)
}

/// Whether the backup of a command is there. Fails where it is restored otherwise than it is to be, or isn't refused as one that isn't
/// there.
fn is_there(
    rt: &impl Machine,
    disk: MemoryDisk,
    command: &Command,
) -> Result<(bool, MemoryDisk), Fail> {
    let mut folder = folder_of(rt.alloc(), &[], NEVER)?;
    let done = run_line(rt, command.restore, disk, &mut folder)?;
    let (note, disk) = (done.note, done.disk);
    if matches!(note, Note::Refused(BrokenRule::NoBackup)) {
        return Ok((false, disk));
    }
    let wanted = folder_of(rt.alloc(), command.tree, NEVER)?;
    if matches!(note, Note::Nothing) && folder.tree() == wanted.tree() {
        return Ok((true, disk));
    }
    Err(Fail::new(format_args!("restored: {note:?}")))
}

/// How a command ends of which no call fails.
fn want_of(command: &Command) -> Want<'_> {
    Want {
        output: command.said,
        ..SERVED
    }
}

/// Runs a command of which no call fails. Fails where its backup isn't there then, and gives the disk back.
fn expect_done(rt: &impl Machine, disk: MemoryDisk, command: &Command) -> Result<MemoryDisk, Fail> {
    let disk = ended(rt, disk, command, NEVER, &want_of(command))?;
    let (there, disk) = is_there(rt, disk, command)?;
    if there {
        return Ok(disk);
    }
    Err(Fail::new("no backup"))
}

/// Fails where the backup of a command isn't there as a fault left the files, unless it wasn't there before either and the command can
/// be done over them.
fn expect_left(rt: &impl Machine, disk: MemoryDisk, command: &Command) -> Result<bool, Fail> {
    let (there, disk) = is_there(rt, disk, command)?;
    if there {
        return Ok(true);
    }
    if command.is_there {
        return Err(Fail::new("the backup is lost"));
    }
    let _ = expect_done(rt, disk, command)?;
    Ok(false)
}

/// Fails where a call of the disk that fails doesn't end a command by its status, or leaves neither the backup nor a store that takes it.
fn expect_disk_faults(
    rt: &impl Machine,
    store: &mut MemoryDisk,
    command: &Command,
) -> Result<(), Fail> {
    for call in 0..command.disk_calls {
        let disk = disk_with(rt.alloc(), store, call)?;
        let disk = ended(rt, disk, command, NEVER, &DISK_FAILED)?;
        let _ = expect_left(rt, disk, command)?;
    }
    Ok(())
}

/// Fails where a call of the folder that fails doesn't end a command by its status, or changes whether the backup is there.
fn expect_folder_faults(
    rt: &impl Machine,
    store: &mut MemoryDisk,
    command: &Command,
) -> Result<(), Fail> {
    for call in 0..command.folder_calls {
        let disk = disk_with(rt.alloc(), store, NEVER)?;
        let disk = ended(rt, disk, command, call, &FOLDER_FAILED)?;
        if expect_left(rt, disk, command)? != command.is_there {
            return Err(Fail::new("the backup is there"));
        }
    }
    Ok(())
}

/// Fails where a command makes a further call of the disk or of the folder.
fn expect_no_more(
    rt: &impl Machine,
    store: &mut MemoryDisk,
    command: &Command,
) -> Result<(), Fail> {
    let disk = disk_with(rt.alloc(), store, command.disk_calls)?;
    let _ = ended(rt, disk, command, command.folder_calls, &want_of(command))?;
    Ok(())
}

/// Adds the host.
const ADD: &str = "PUT /hosts/pc1 HTTP/1.1\r\nHost: b\r\n\r\n";

const ADDED: &str =
    "HTTP/1.1 201 Created\r\nContent-Type: application/json\r\nContent-Length: 14\r\n\r\n{\"host\":\"pc1\"}";

/// A store with the host and no backup.
fn new_store(rt: &impl Machine) -> Result<MemoryDisk, Fail> {
    let case = Case { input: ADD, ..PIPE };
    let want = Want {
        output: ADDED,
        ..SERVED
    };
    expect_run_over(rt, &case, new_disk(rt.alloc(), NEVER)?, &want)
}

#[test]
fn a_folder_command_ends_at_each_fault_of_the_disk(rt: HostRuntime) -> Result<(), Fail> {
    let mut store = new_store(&rt)?;
    for command in commands() {
        expect_disk_faults(&rt, &mut store, command)?;
        expect_no_more(&rt, &mut store, command)?;
        store = expect_done(&rt, store, command)?;
    }
    Ok(())
}

#[test]
fn a_folder_command_ends_at_each_fault_of_the_folder(rt: HostRuntime) -> Result<(), Fail> {
    let mut store = new_store(&rt)?;
    for command in commands() {
        expect_folder_faults(&rt, &mut store, command)?;
        store = expect_done(&rt, store, command)?;
    }
    Ok(())
}
