//! The calls of a restore.

ghost use Rattle.std.specs.Prelude.{◌∷◌, [], None, Ok, Err, IfOk, IfErr, OnOk};
ghost use Rattle.office_model.specs.declared.event.Event.TheVariants as E;
ghost use Rattle.office_model.specs.declared.answer.Answer.TheVariants as A;

use attr_records::HostName;
use office_model::{Answer, Event, Frame, Port, Refusal, SessionName};
use std::alloc::Global;

/// Opens a restore of a backup.
pub(crate) fn open_read<P: Port>(
    alloc: Global,
    port: &mut P,
    host: HostName,
    number: u32,
) -> Result<SessionName, Refusal>
    ensures ok { IfOk result (λ restore. P.moves port.old ((E.OpenRead host number None, Ok (A.Restore restore)) ∷ []) port.new) }
    ensures err { IfErr result (λ refusal. P.moves port.old ((E.OpenRead host number None, Err refusal) ∷ []) port.new) }
{
    let event = Event::OpenRead {
        host,
        number,
        base: None,
    };
    match port.call(alloc, &event) {
        Ok(Answer::Restore(restore)) => Ok(restore),
        Ok(_) => unreachable!(),
        Err(refusal) => Err(refusal),
    }
}

/// The next frame of a restore.
pub(crate) fn read_next<P: Port>(
    alloc: Global,
    port: &mut P,
    restore: SessionName,
) -> Result<Frame, Refusal>
    ensures ok { IfOk result (λ frame. P.moves port.old ((E.ReadNext restore, Ok (A.Next frame)) ∷ []) port.new) }
    ensures err { IfErr result (λ refusal. P.moves port.old ((E.ReadNext restore, Err refusal) ∷ []) port.new) }
{
    match port.call(alloc, &Event::ReadNext { restore }) {
        Ok(Answer::Next(frame)) => Ok(frame),
        Ok(_) => unreachable!(),
        Err(refusal) => Err(refusal),
    }
}

/// Drops a restore behind its last frame.
pub(crate) fn close_read<P: Port>(
    alloc: Global,
    port: &mut P,
    restore: SessionName,
) -> Result<(), Refusal>
    ensures ok { OnOk result (P.moves port.old ((E.CloseRead restore, Ok A.Done) ∷ []) port.new) }
    ensures err { IfErr result (λ refusal. P.moves port.old ((E.CloseRead restore, Err refusal) ∷ []) port.new) }
{
    match port.call(alloc, &Event::CloseRead { restore }) {
        Ok(Answer::Done) => Ok(()),
        Ok(_) => unreachable!(),
        Err(refusal) => Err(refusal),
    }
}
