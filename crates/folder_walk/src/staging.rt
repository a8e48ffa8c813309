//! A large file goes into a stage piece by piece, and its put is of that stage.

ghost use Rattle.std.specs.Prelude.{◌≡◌, ◌≢◌, ◌∷◌, [], min, true, Option, Ok, IfOk, IfErr, OnOk, IsErrOf};
ghost use Rattle.std.specs.Option.{ForSome};
ghost use Rattle.fault_counts.specs.Counts.{Counted};
ghost use Rattle.attr_records.specs.Items.{Tree};
ghost use Rattle.folder_trait.specs.declared.found.FoundNode.{FoundNode};
ghost use Rattle.folder_trait.specs.declared.found.FoundNode.TheVariants as N;
ghost use Rattle.folder_trait.specs.Folders.{IsPieceRead};
ghost use Rattle.office_model.specs.declared.event.Event.TheVariants as E;
ghost use Rattle.office_model.specs.declared.answer.Answer.{Answer as AnswerValue};
ghost use Rattle.office_model.specs.declared.answer.Answer.TheVariants as A;
ghost use Rattle.folder_walk.specs.Rows.{is_large_node};
ghost use Rattle.folder_walk.specs.Causes.{IsNoRefusal, IsRowCause};
ghost use Rattle.folder_walk.specs.Puts.{IsCallFault, PutsEntry, TakesAll, found_put};

use crate::refusals::DumpRefusal;
use attr_records::PathName;
use disk_trait::Bytes;
use folder_trait::{Folder, FolderFault, FoundFile};
use office_model::{Answer, CONTENT_LIMIT, Event, Port, PutItem, SessionName, StagedFile};
use std::alloc::Global;

/// The bytes of a piece, but for the last of a file.
const PIECE_SIZE: u64 = 65_536;

/// Opens a stage of a dump.
fn open_stage<P: Port>(alloc: Global, port: &mut P, dump: SessionName) -> Result<u64, DumpRefusal>
    ensures ok { IfOk result (λ stage. P.moves port.old ((E.StageOpen dump, Ok (A.Stage stage)) ∷ []) port.new) }
    ensures err { IfErr result (IsCallFault P.moves port.old port.new (E.StageOpen dump)) }
    ensures unfailed { IfErr result (λ fault. fault ≢ DumpRefusal.Folder) }
{
    match port.call(alloc, &Event::StageOpen { dump }) {
        Ok(Answer::Stage(stage)) => Ok(stage),
        Ok(_) => unreachable!(),
        Err(refusal) => Err(DumpRefusal::Refused(refusal)),
    }
}

/// Hands a piece on to a stage.
fn send_piece<P: Port>(
    alloc: Global,
    port: &mut P,
    stage: u64,
    bytes: Bytes,
) -> Result<(), DumpRefusal>
    ensures ok { OnOk result (P.moves port.old ((E.StagePiece stage bytes, Ok A.Done) ∷ []) port.new) }
    ensures err { IfErr result (IsCallFault P.moves port.old port.new (E.StagePiece stage bytes)) }
    ensures unfailed { IfErr result (λ fault. fault ≢ DumpRefusal.Folder) }
{
    match port.call(alloc, &Event::StagePiece { stage, bytes }) {
        Ok(_) => Ok(()),
        Err(refusal) => Err(DumpRefusal::Refused(refusal)),
    }
}

/// Drops a stage.
fn drop_stage<P: Port>(alloc: Global, port: &mut P, stage: u64) -> Result<(), DumpRefusal>
    ensures ok { OnOk result (P.moves port.old ((E.StageDrop stage, Ok A.Done) ∷ []) port.new) }
    ensures err { IfErr result (IsCallFault P.moves port.old port.new (E.StageDrop stage)) }
    ensures unfailed { IfErr result (λ fault. fault ≢ DumpRefusal.Folder) }
{
    match port.call(alloc, &Event::StageDrop { stage }) {
        Ok(_) => Ok(()),
        Err(refusal) => Err(DumpRefusal::Refused(refusal)),
    }
}

/// Puts the file of a stage at a path.
fn put_staged<P: Port>(
    alloc: Global,
    port: &mut P,
    dump: SessionName,
    path: PathName,
    file: FoundFile,
    stage: u64,
) -> Result<(), DumpRefusal>
    ensures ok { OnOk result (P.moves port.old ((found_put dump path file stage, Ok A.Done) ∷ []) port.new) }
    ensures err { IfErr result (IsCallFault P.moves port.old port.new (found_put dump path file stage)) }
    ensures unfailed { IfErr result (λ fault. fault ≢ DumpRefusal.Folder) }
{
    let item = PutItem::Staged(StagedFile {
        attr: file.attr,
        group: file.group,
        stage,
    });
    match port.call(
        alloc,
        &Event::Put {
            dump,
            path,
            item,
            token: None,
        },
    ) {
        Ok(_) => Ok(()),
        Err(refusal) => Err(DumpRefusal::Refused(refusal)),
    }
}

/// Room for the next piece of a file of which so many bytes are left.
fn next_room(left: u64) -> usize
    ensures { result ≡ min 65536 left }
{
    if left < PIECE_SIZE {
        left as usize
    } else {
        PIECE_SIZE as usize
    }
}

/// A piece of the file at a path of a folder; `None` if it has gone.
fn read_piece<F: Folder>(
    alloc: Global,
    folder: &mut F,
    path: &PathName,
    from: u64,
    room: usize,
) -> Result<Option<Bytes>, DumpRefusal>
    ensures found { IfOk result (λ found. ForSome (F.tree folder.old) (λ tree. IsPieceRead tree path.now from room found)) }
    ensures same { F.tree folder.new ≡ F.tree folder.old }
    ensures unrefused { IfErr result IsNoRefusal }
    ensures cause { (told : Option Tree) (node : FoundNode) → IfErr result (IsRowCause told node) }
    ensures counted { Counted (F.fault_count folder.old) (F.fault_count folder.new) (IsErrOf result DumpRefusal.Folder) }
{
    match folder.read_at(alloc, path, from, room) {
        Ok(found) => Ok(found),
        Err(FolderFault::Failed) => Err(DumpRefusal::Folder),
        Err(FolderFault::Memory) => Err(DumpRefusal::Memory),
    }
}

/// Hands the bytes of a file on to a stage, piece by piece, up to what it had when it was listed; says whether it was there to its
/// end. One that is shorter by now ends where it does.
fn send_pieces<P: Port, F: Folder>(
    alloc: Global,
    port: &mut P,
    folder: &mut F,
    path: &PathName,
    size: u64,
    stage: u64,
) -> Result<bool, DumpRefusal>
    ensures takes { TakesAll P.moves port.old port.new (F.tree folder.old) path.now size stage result }
    ensures cause { (told : Option Tree) (node : FoundNode) → IfErr result (IsRowCause told node) }
    ensures same { F.tree folder.new ≡ F.tree folder.old }
    ensures counted { Counted (F.fault_count folder.old) (F.fault_count folder.new) (IsErrOf result DumpRefusal.Folder) }
{
    let mut from = 0;
    while from < size {
        let room = next_room(size - from);
        let found = match read_piece(alloc, folder, path, from, room) {
            Ok(found) => found,
            Err(fault) => return Err(fault),
        };
        let bytes = match found {
            Some(bytes) => bytes,
            None => return Ok(false),
        };
        if bytes.is_empty() {
            return Ok(true);
        }
        match send_piece(alloc, port, stage, bytes) {
            Ok(()) => {}
            Err(fault) => return Err(fault),
        }
        from += room as u64;
    }
    Ok(true)
}

/// Puts a large file at a path by a stage; says whether it was there to its end. Of one that may be no content no byte is read.
pub(crate) fn put_large<P: Port, F: Folder>(
    alloc: Global,
    port: &mut P,
    folder: &mut F,
    dump: SessionName,
    path: &PathName,
    file: FoundFile,
) -> Result<bool, DumpRefusal>
    requires { is_large_node (N.File file) ≡ true }
    ensures puts { PutsEntry P.moves port.old port.new (F.tree folder.old) dump path.now (N.File file) result }
    ensures cause { IfErr result (IsRowCause (F.tree folder.old) (N.File file)) }
    ensures same { F.tree folder.new ≡ F.tree folder.old }
    ensures counted { Counted (F.fault_count folder.old) (F.fault_count folder.new) (IsErrOf result DumpRefusal.Folder) }
{
    if file.size > CONTENT_LIMIT {
        return Err(DumpRefusal::FileTooLarge);
    }
    let Ok(target) = path.copy(alloc) else {
        return Err(DumpRefusal::Memory);
    };
    let stage = match open_stage(alloc, port, dump) {
        Ok(stage) => stage,
        Err(fault) => return Err(fault),
    };
    let whole = match send_pieces(alloc, port, folder, path, file.size, stage) {
        Ok(whole) => whole,
        Err(fault) => return Err(fault),
    };
    if !whole {
        match drop_stage(alloc, port, stage) {
            Ok(()) => return Ok(false),
            Err(fault) => return Err(fault),
        }
    }
    match put_staged(alloc, port, dump, target, file, stage) {
        Ok(()) => Ok(true),
        Err(fault) => Err(fault),
    }
}
