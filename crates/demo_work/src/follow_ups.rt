//! What an answer brings on.

ghost use Rattle.std.specs.Prelude.{◌≡◌, ◌++◌, map, reverse, Err, OnOk, IfOk};
ghost use Rattle.demo_work.specs.declared.asks.Ask.TheVariants as Q;
ghost use Rattle.demo_work.specs.Asks.{lines_in, first_read, read_behind, next_read, more, dump_in, is_no_path, names_no_path, is_remove, is_passed};

use crate::asks::Ask;
use backup_rules::Line;
use office_model::{Answer, BrokenRule, Event, Frame, Refusal, SessionName};
use std::alloc::{AllocError, Global};

/// The backups that an answer lists.
pub(crate) fn lines_in(answer: &Answer) -> &[Line]
    ensures { result.now ≡ lines_in answer.now }
{
    match answer {
        Answer::Backups { lines, .. } => lines.as_slice(),
        _ => &[],
    }
}

/// Adds the opening of each of these backups of a host.
fn push_reads(asks: &mut Vec<Ask>, host: u64, lines: &[Line]) -> Result<(), AllocError>
    ensures { OnOk result (asks.new.items ≡ asks.old.items ++ map (λ line. Q.OpenRead host line.number) lines.now) }
{
    for line in lines {
        let number = line.number;
        asks.push(Ask::OpenRead { host, number })?;
    }
    Ok(())
}

/// Adds the first read of a restore that was opened.
fn push_first_read(asks: &mut Vec<Ask>, answer: &Answer) -> Result<(), AllocError>
    ensures { OnOk result (asks.new.items ≡ asks.old.items ++ first_read answer.now) }
{
    if let Answer::Restore(restore) = answer {
        let restore = *restore;
        asks.push(Ask::ReadNext { restore })?;
    }
    Ok(())
}

/// What is asked behind a frame of a restore.
fn read_behind(restore: SessionName, frame: &Frame) -> Ask
    ensures { result ≡ read_behind restore frame.now }
{
    match frame {
        Frame::Deleted(_) | Frame::Entry { .. } | Frame::Piece(_) => Ask::ReadNext { restore },
        Frame::End(_) => Ask::CloseRead { restore },
    }
}

/// Adds what is asked behind a frame of a restore.
fn push_next_read(
    asks: &mut Vec<Ask>,
    restore: SessionName,
    answer: &Answer,
) -> Result<(), AllocError>
    ensures { OnOk result (asks.new.items ≡ asks.old.items ++ next_read restore answer.now) }
{
    if let Answer::Next(frame) = answer {
        asks.push(read_behind(restore, frame))?;
    }
    Ok(())
}

/// Adds what the answer to an ask brings on, in its order.
fn push_more(asks: &mut Vec<Ask>, ask: &Ask, answer: &Answer) -> Result<(), AllocError>
    ensures { OnOk result (asks.new.items ≡ asks.old.items ++ more ask.now answer.now) }
{
    match ask {
        Ask::Backups { host } => push_reads(asks, *host, lines_in(answer)),
        Ask::OpenRead { .. } => push_first_read(asks, answer),
        Ask::ReadNext { restore } => push_next_read(asks, *restore, answer),
        _ => Ok(()),
    }
}

/// What the answer to an ask brings on, in its order.
pub(crate) fn more(alloc: Global, ask: &Ask, answer: &Answer) -> Result<Vec<Ask>, AllocError>
    ensures { IfOk result (λ asks. asks.items ≡ more ask.now answer.now) }
{
    let mut asks = Vec::new(alloc);
    push_more(&mut asks, ask, answer)?;
    Ok(asks)
}

/// Puts asks on a stack, the first on top.
pub(crate) fn push_all(pending: &mut Vec<Ask>, asks: Vec<Ask>) -> Result<(), AllocError>
    ensures { OnOk result (pending.new.items ≡ pending.old.items ++ reverse asks.items) }
{
    let mut asks = asks;
    while let Some(ask) = asks.pop() {
        pending.push(ask)?;
    }
    Ok(())
}

/// The dump that is open then.
pub(crate) fn dump_in(dump: SessionName, answer: &Answer) -> SessionName
    ensures { result ≡ dump_in dump answer.now }
{
    match answer {
        Answer::Dump(name) => *name,
        _ => dump,
    }
}

/// Whether it is this rule that nothing is at the path.
fn is_no_path(rule: BrokenRule) -> bool
    ensures { result ≡ is_no_path rule }
{
    matches!(rule, BrokenRule::NoPath)
}

/// Whether it is refused since nothing is at the path.
fn names_no_path(refusal: &Refusal) -> bool
    ensures { result ≡ names_no_path refusal.now }
{
    match refusal {
        Refusal::Broken(rule) => is_no_path(*rule),
        _ => false,
    }
}

/// Whether it is a removal.
fn is_remove(event: &Event) -> bool
    ensures { result ≡ is_remove event.now }
{
    matches!(event, Event::Remove { .. })
}

/// Whether the job goes on behind a refusal: it does if there was nothing to remove.
pub(crate) fn is_passed(event: &Event, refusal: &Refusal) -> bool
    ensures { result ≡ is_passed event.now (Err refusal.now) }
{
    is_remove(event) && names_no_path(refusal)
}
