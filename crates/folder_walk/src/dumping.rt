//! A folder becomes a host's next backup.

ghost use Rattle.std.specs.Prelude.{◌≡◌, ◌≢◌, Option, IfOk, IfErr, IsErrOf};
ghost use Rattle.fault_counts.specs.Counts.{Counted};
ghost use Rattle.attr_records.specs.Items.{Tree};
ghost use Rattle.folder_walk.specs.Causes.{IsDumpCause};
ghost use Rattle.folder_walk.specs.Bases.{RemovesAll, MakesBase};
ghost use Rattle.folder_walk.specs.Dumps.{Fills, Dumped, Stopped};

use crate::asking::{Opening, commit, last_number, open_dump, remove};
use crate::comparing::gone_paths;
use crate::putting::put_all;
use crate::refusals::DumpRefusal;
use attr_records::{HostName, PathName};
use backup_rules::Kind;
use folder_trait::{Folder, Progress};
use office_model::{Event, Port, SessionName};
use std::alloc::Global;
use stream_traits::Clock;

/// Removes these paths from a dump.
fn remove_all<P: Port>(
    alloc: Global,
    port: &mut P,
    dump: SessionName,
    gone: Vec<PathName>,
) -> Result<(), DumpRefusal>
    ensures removes { RemovesAll P.moves port.old port.new dump gone.items result }
    ensures cause { (told : Option Tree) → IfErr result (IsDumpCause told) }
    ensures unfailed { IfErr result (λ fault. fault ≢ DumpRefusal.Folder) }
{
    for path in gone {
        match remove(alloc, port, dump, path) {
            Ok(()) => {}
            Err(fault) => return Err(fault),
        }
    }
    Ok(())
}

/// Removes from an incremental dump the paths of the host's last backup that leave.
fn remove_gone<P: Port, F: Folder>(
    alloc: Global,
    port: &mut P,
    folder: &mut F,
    host: &HostName,
    dump: SessionName,
) -> Result<(), DumpRefusal>
    ensures base { MakesBase P.moves port.old port.new (F.tree folder.old) Kind.Incr host.now dump result }
    ensures cause { IfErr result (IsDumpCause (F.tree folder.old)) }
    ensures same { F.tree folder.new ≡ F.tree folder.old }
    ensures counted { Counted (F.fault_count folder.old) (F.fault_count folder.new) (IsErrOf result DumpRefusal.Folder) }
{
    let last = match last_number(alloc, port, host) {
        Ok(last) => last,
        Err(fault) => return Err(fault),
    };
    let number = match last {
        Some(number) => number,
        None => return Ok(()),
    };
    let gone = match gone_paths(alloc, port, folder, host, number) {
        Ok(gone) => gone,
        Err(fault) => return Err(fault),
    };
    match remove_all(alloc, port, dump, gone) {
        Ok(()) => Ok(()),
        Err(fault) => Err(fault),
    }
}

/// Makes the base of a dump ready: a full one's is.
fn make_base<P: Port, F: Folder>(
    alloc: Global,
    port: &mut P,
    folder: &mut F,
    host: &HostName,
    kind: Kind,
    dump: SessionName,
) -> Result<(), DumpRefusal>
    ensures base { MakesBase P.moves port.old port.new (F.tree folder.old) kind host.now dump result }
    ensures cause { IfErr result (IsDumpCause (F.tree folder.old)) }
    ensures same { F.tree folder.new ≡ F.tree folder.old }
    ensures counted { Counted (F.fault_count folder.old) (F.fault_count folder.new) (IsErrOf result DumpRefusal.Folder) }
{
    match kind {
        Kind::Full => Ok(()),
        Kind::Incr => match remove_gone(alloc, port, folder, host, dump) {
            Ok(()) => Ok(()),
            Err(fault) => Err(fault),
        },
    }
}

/// Makes an open dump's tree that of the folder, and commits it.
fn fill<P: Port, F: Folder, C: Clock, G: Progress>(
    alloc: Global,
    port: &mut P,
    folder: &mut F,
    host: &HostName,
    kind: Kind,
    dump: SessionName,
    clock: &mut C,
    progress: &mut G,
) -> Result<u32, DumpRefusal>
    ensures filled { Fills P.moves port.old port.new (F.tree folder.old) (C.moments clock.old) (C.moments clock.new) kind host.now dump result }
    ensures cause { IfErr result (IsDumpCause (F.tree folder.old)) }
    ensures same { F.tree folder.new ≡ F.tree folder.old }
    ensures counted { Counted (F.fault_count folder.old) (F.fault_count folder.new) (IsErrOf result DumpRefusal.Folder) }
{
    match make_base(alloc, port, folder, host, kind, dump) {
        Ok(()) => {}
        Err(fault) => return Err(fault),
    }
    match put_all(alloc, port, folder, dump, progress) {
        Ok(()) => {}
        Err(fault) => return Err(fault),
    }
    match commit(alloc, port, dump, clock.now()) {
        Ok(number) => Ok(number),
        Err(fault) => Err(fault),
    }
}

/// Makes a folder the host's next backup, and gives its number.
///
/// A full dump takes all of the folder. An incremental one begins with the last backup's tree; what the folder lacks of that, or has
/// as something else if one of the two is a directory, is removed. Then each entry is put, a file with its bytes, in the order of the
/// paths, and the dump is committed. The clock is read twice, as it begins and as it is committed. A file that has gone since it was
/// listed is passed over, and `progress` is told; where the folder tells its tree none has. It bears no token; an opening that is answered
/// with a backup's number nevertheless, as no office does, is all that is called, and that number is given.
///
/// If it is Ok, the host has one backup more, whose tree is the folder's where the folder tells it and the port keeps its history
/// legal. If it isn't, no commit was answered with Ok: an open dump was aborted, whatever the abort answered, and the reason is what came
/// first. After a `DiskFault` of the commit itself the store is halted, and a reopening shows whether it has the backup.
pub fn dump_folder<P: Port, F: Folder, C: Clock, G: Progress>(
    alloc: Global,
    port: &mut P,
    folder: &mut F,
    host: &HostName,
    kind: Kind,
    clock: &mut C,
    progress: &mut G,
) -> Result<u32, DumpRefusal>
    ensures ok { IfOk result (Dumped P.moves port.old port.new (F.tree folder.old) (C.moments clock.old) (C.moments clock.new) kind host.now) }
    ensures err { IfErr result (Stopped P.moves port.old port.new (F.tree folder.old) (C.moments clock.old) (C.moments clock.new) kind host.now) }
    ensures cause { IfErr result (IsDumpCause (F.tree folder.old)) }
    ensures same { F.tree folder.new ≡ F.tree folder.old }
    ensures counted { Counted (F.fault_count folder.old) (F.fault_count folder.new) (IsErrOf result DumpRefusal.Folder) }
{
    let dump = match open_dump(alloc, port, host, kind, clock.now()) {
        Ok(Opening::Dump(dump)) => dump,
        Ok(Opening::Already(number)) => return Ok(number),
        Err(fault) => return Err(fault),
    };
    match fill(alloc, port, folder, host, kind, dump, clock, progress) {
        Ok(number) => Ok(number),
        Err(fault) => {
            let _aborted = port.call(alloc, &Event::Abort { dump });
            Err(fault)
        }
    }
}
