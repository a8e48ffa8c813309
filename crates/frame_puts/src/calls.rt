//! The calls that frames make, one each.

ghost use Rattle.std.specs.Prelude.{[], ◌∷◌, None, Ok, Err, IfOk, IfErr, OnOk};
ghost use Rattle.office_model.specs.declared.event.Event.TheVariants as E;
ghost use Rattle.office_model.specs.declared.event.PutItem.TheVariants.{Whole};
ghost use Rattle.office_model.specs.declared.answer.Answer.TheVariants as A;
ghost use Rattle.folder_laws.specs.Calls.{remove_call, put_call, piece_call};
ghost use Rattle.frame_puts.specs.Steps.{node_put};

use attr_records::{Item, PathName};
use disk_trait::Bytes;
use office_model::{Answer, Event, Port, PutItem, Refusal, SessionName, StagedFile};
use std::alloc::Global;
use tree_frames::FileNode;

/// Removes a path from a dump.
pub(crate) fn remove<P: Port>(
    alloc: Global,
    port: &mut P,
    dump: SessionName,
    path: PathName,
) -> Result<(), Refusal>
    ensures ok { OnOk result (P.moves port.old (remove_call dump path ∷ []) port.new) }
    ensures err { IfErr result (λ refusal. P.moves port.old ((E.Remove dump path None, Err refusal) ∷ []) port.new) }
{
    let event = Event::Remove {
        dump,
        path,
        token: None,
    };
    match port.call(alloc, &event) {
        Ok(_) => Ok(()),
        Err(refusal) => Err(refusal),
    }
}

/// Puts an item at a path, with its bytes.
pub(crate) fn put_item<P: Port>(
    alloc: Global,
    port: &mut P,
    dump: SessionName,
    path: PathName,
    item: Item,
) -> Result<(), Refusal>
    ensures ok { OnOk result (P.moves port.old (put_call dump path item ∷ []) port.new) }
    ensures err { IfErr result (λ refusal. P.moves port.old ((E.Put dump path (Whole item) None, Err refusal) ∷ []) port.new) }
{
    let item = PutItem::Whole(item);
    let event = Event::Put {
        dump,
        path,
        item,
        token: None,
    };
    match port.call(alloc, &event) {
        Ok(_) => Ok(()),
        Err(refusal) => Err(refusal),
    }
}

/// Opens a stage of a dump.
pub(crate) fn open_stage<P: Port>(
    alloc: Global,
    port: &mut P,
    dump: SessionName,
) -> Result<u64, Refusal>
    ensures ok { IfOk result (λ stage. P.moves port.old ((E.StageOpen dump, Ok (A.Stage stage)) ∷ []) port.new) }
    ensures err { IfErr result (λ refusal. P.moves port.old ((E.StageOpen dump, Err refusal) ∷ []) port.new) }
{
    match port.call(alloc, &Event::StageOpen { dump }) {
        Ok(Answer::Stage(stage)) => Ok(stage),
        Ok(_) => unreachable!(),
        Err(refusal) => Err(refusal),
    }
}

/// Hands a piece on to a stage.
pub(crate) fn send_piece<P: Port>(
    alloc: Global,
    port: &mut P,
    stage: u64,
    bytes: Bytes,
) -> Result<(), Refusal>
    ensures ok { OnOk result (P.moves port.old (piece_call stage bytes ∷ []) port.new) }
    ensures err { IfErr result (λ refusal. P.moves port.old ((E.StagePiece stage bytes, Err refusal) ∷ []) port.new) }
{
    match port.call(alloc, &Event::StagePiece { stage, bytes }) {
        Ok(_) => Ok(()),
        Err(refusal) => Err(refusal),
    }
}

/// Puts the file of a stage at a path.
pub(crate) fn put_staged<P: Port>(
    alloc: Global,
    port: &mut P,
    dump: SessionName,
    path: PathName,
    node: FileNode,
    stage: u64,
) -> Result<(), Refusal>
    ensures ok { OnOk result (P.moves port.old ((node_put dump path node stage, Ok A.Done) ∷ []) port.new) }
    ensures err { IfErr result (λ refusal. P.moves port.old ((node_put dump path node stage, Err refusal) ∷ []) port.new) }
{
    let item = PutItem::Staged(StagedFile {
        attr: node.attr,
        group: node.group,
        stage,
    });
    let event = Event::Put {
        dump,
        path,
        item,
        token: None,
    };
    match port.call(alloc, &event) {
        Ok(_) => Ok(()),
        Err(refusal) => Err(refusal),
    }
}
