//! A backup is made in a folder in which nothing lies.

ghost use Rattle.std.specs.Prelude.{◌≡◌, false, true, IfOk, IfErr, IsErrOf};
ghost use Rattle.std.specs.Option.{ForSome};
ghost use Rattle.fault_counts.specs.Counts.{Counted};
ghost use Rattle.folder_trait.specs.Folders.{IsEmptiness};
ghost use Rattle.folder_restore.specs.Turns.{end_of, Turned, TurnStops, MakesAll};
ghost use Rattle.folder_restore.specs.Restores.{Restored, Stopped, IsUncalled};

use crate::calls::{close_read, open_read, read_next};
use crate::refusals::{RestoreRefusal, of_fault};
use attr_records::HostName;
use folder_making::Making;
use folder_trait::{Count, Folder, Progress};
use office_model::{Frame, Port, SessionName};
use std::alloc::{AllocError, Global};

/// The number of entries, if a frame is the end; else it is told.
fn told_end<G: Progress>(frame: &Frame, count: &mut Count<'_, G>) -> Option<u32>
    ensures { result ≡ end_of frame.now }
{
    match frame {
        Frame::Deleted(_) => None,
        Frame::Entry { .. } => {
            count.add(1, 0);
            None
        }
        Frame::Piece(bytes) => {
            count.add(0, bytes.len() as u64);
            None
        }
        Frame::End(entries) => Some(*entries),
    }
}

/// Makes what the next frame says, and gives the number of entries if it is the end.
fn make_next<P: Port, F: Folder, G: Progress>(
    alloc: Global,
    port: &mut P,
    folder: &mut F,
    restore: SessionName,
    making: &mut Making,
    count: &mut Count<'_, G>,
) -> Result<Option<u32>, RestoreRefusal>
    ensures ok { IfOk result (λ end. Turned P.moves port.old port.new restore (F.tree folder.old) (F.tree folder.new) making.old making.new end) }
    ensures err { IfErr result (λ refusal. TurnStops P.moves port.old port.new restore refusal) }
    ensures counted { Counted (F.fault_count folder.old) (F.fault_count folder.new) (IsErrOf result RestoreRefusal.Folder) }
{
    let frame = match read_next(alloc, port, restore) {
        Ok(frame) => frame,
        Err(refusal) => return Err(RestoreRefusal::Refused(refusal)),
    };
    let end = told_end(&frame, count);
    match making.take(alloc, folder, frame) {
        Ok(()) => Ok(end),
        Err(fault) => Err(of_fault(fault)),
    }
}

/// Makes what each frame of a restore says, up to its end, and gives the number of its entries.
fn make_all<P: Port, F: Folder, G: Progress>(
    alloc: Global,
    port: &mut P,
    folder: &mut F,
    restore: SessionName,
    progress: &mut G,
) -> Result<u32, RestoreRefusal>
    ensures ok { IfOk result (λ count. MakesAll P.moves port.old port.new restore (F.tree folder.old) (F.tree folder.new) count) }
    ensures err { IfErr result (λ refusal. TurnStops P.moves port.old port.new restore refusal) }
    ensures counted { Counted (F.fault_count folder.old) (F.fault_count folder.new) (IsErrOf result RestoreRefusal.Folder) }
{
    let mut making = Making::new(alloc);
    let mut count = Count::new(progress);
    for _turn in 0..u64::MAX {
        match make_next(alloc, port, folder, restore, &mut making, &mut count) {
            Ok(None) => {}
            Ok(Some(entries)) => match making.finish(alloc, folder) {
                Ok(()) => return Ok(entries),
                Err(fault) => return Err(of_fault(fault)),
            },
            Err(refusal) => return Err(refusal),
        }
    }
    Err(RestoreRefusal::Memory)
}

/// Makes the backup in a folder in which nothing lies, and closes the restore.
fn restore_into<P: Port, F: Folder, G: Progress>(
    alloc: Global,
    port: &mut P,
    folder: &mut F,
    host: HostName,
    number: u32,
    progress: &mut G,
) -> Result<u32, RestoreRefusal>
    requires { ForSome (F.tree folder.old) (λ all. IsEmptiness all true) }
    ensures ok { IfOk result (λ count. Restored P.moves port.old port.new (F.tree folder.old) (F.tree folder.new) host number count) }
    ensures err { IfErr result (λ refusal. Stopped P.moves port.old port.new host number refusal) }
    ensures counted { Counted (F.fault_count folder.old) (F.fault_count folder.new) (IsErrOf result RestoreRefusal.Folder) }
    ensures begun { IsErrOf result RestoreRefusal.NotEmpty → ⊥ }
{
    let restore = match open_read(alloc, port, host, number) {
        Ok(restore) => restore,
        Err(refusal) => return Err(RestoreRefusal::Refused(refusal)),
    };
    let count = match make_all(alloc, port, folder, restore, progress) {
        Ok(count) => count,
        Err(refusal) => return Err(refusal),
    };
    match close_read(alloc, port, restore) {
        Ok(()) => Ok(count),
        Err(refusal) => Err(RestoreRefusal::Refused(refusal)),
    }
}

/// Makes a backup of a host in a folder in which nothing lies, and gives the number of its entries. They are made in the order
/// of the paths, a directory's attributes are set behind its last entry, and a file is a hard link if an earlier one of its group has
/// equal attributes and bytes.
///
/// The folder is looked at first: it is `NotEmpty` exactly if something lies in it, and then nothing is called and nothing made.
/// Otherwise the restore is opened, its frames are asked for up to the end, and it is closed. `Refused` is the first call that was
/// refused; `Folder` comes if the folder's count of faults rose, and only then. Behind these and behind `Memory` no further call is
/// made, so that the restore stays open if it was, and what was made so far lies in the folder.
pub fn restore_folder<P: Port, F: Folder, G: Progress>(
    alloc: Global,
    port: &mut P,
    folder: &mut F,
    host: &HostName,
    number: u32,
    progress: &mut G,
) -> Result<u32, RestoreRefusal>
    ensures ok { IfOk result (λ count. Restored P.moves port.old port.new (F.tree folder.old) (F.tree folder.new) host.now number count) }
    ensures err { IfErr result (λ refusal. Stopped P.moves port.old port.new host.now number refusal) }
    ensures counted { Counted (F.fault_count folder.old) (F.fault_count folder.new) (IsErrOf result RestoreRefusal.Folder) }
    ensures not_empty { IsErrOf result RestoreRefusal.NotEmpty → ForSome (F.tree folder.old) (λ all. IsEmptiness all false) × (F.tree folder.new ≡ F.tree folder.old) }
    ensures looked_at { ForSome (F.tree folder.old) (λ all. IsEmptiness all false → (port.new ≡ port.old) × IsUncalled result) }
{
    let host = match host.copy(alloc) {
        Ok(host) => host,
        Err(AllocError) => return Err(RestoreRefusal::Memory),
    };
    match folder.is_empty(alloc) {
        Ok(true) => restore_into(alloc, port, folder, host, number, progress),
        Ok(false) => Err(RestoreRefusal::NotEmpty),
        Err(fault) => Err(of_fault(fault)),
    }
}
