//! Files that somebody alters behind the store's back, while a stage or a reader is open. The parts of a store are asked, since the
//! journal that alters a file is one of them.

ghost use Rattle.std.specs.Prelude.{◌≡◌, true, false, OnOk};
ghost use Rattle.disk_trait.specs.Names.{is_data};

use crate::contents::content_of;
use crate::ports::{Steps, expect};
use disk_trait::{Bytes, DiskRoom, FileId, MemoryDisk, PoolId};
use office_asks::{Ask, event_of, text_of};
use office_model::{Answer, Event, PIECE_LIMIT, PutItem, Refusal};
use pool_name::{Md5Namer, Namer};
use std::alloc::Global;
use std::test::Fail;
use store_commits::commit_dump;
use store_dumps::open_dump;
use store_hosts::add_host;
use store_opening::open;
use store_parts::StoreParts;
use store_readers::{open_file, read_part};
use store_stages::{put_staged, stage_drop, stage_open, stage_piece};

pub type Parts = StoreParts<MemoryDisk, Md5Namer>;

const ROOM: DiskRoom = DiskRoom {
    changes: 200,
    bytes: 400_000,
};

/// The file of the one stage.
const STAGE: FileId = FileId::Stage(0);

const OPENED: Steps = &[
    (Ask::Host("pc1"), "done"),
    (Ask::Full("pc1"), "1-0"),
    (Ask::Stage(0), "stage 0"),
];

/// The parts of a store that was opened on a disk without files.
pub fn blank_parts(alloc: Global) -> Result<Parts, Fail> {
    let disk = MemoryDisk::new(alloc, Vec::new(alloc), ROOM)?;
    match open(alloc, disk, Md5Namer) {
        Ok(parts) => Ok(parts),
        Err(_) => Err(Fail::new("not opened")),
    }
}

/// Fails where the store is halted.
pub fn expect_ready(parts: &Parts) -> Result<(), Fail>
    ensures store { OnOk result (parts.now.halted ≡ false) }
    ensures journal { OnOk result (parts.now.journal.halted ≡ false) }
{
    if parts.halted || parts.journal.halted() {
        return Err(Fail::new("halted"));
    }
    Ok(())
}

/// Carries out an event of those that are tried here.
fn carry_out(parts: &mut Parts, alloc: Global, event: &Event) -> Result<Answer, Refusal>
    requires ready { parts.old.halted ≡ false }
    requires journal_ready { parts.old.journal.halted ≡ false }
{
    match event {
        Event::AddHost { host, rules } => add_host(parts, alloc, host, rules),
        Event::OpenDump {
            host,
            kind,
            now,
            token,
        } => open_dump(parts, alloc, host, *kind, *now, *token),
        Event::StageOpen { dump } => stage_open(parts, *dump),
        Event::StagePiece { stage, bytes } => stage_piece(parts, *stage, bytes.as_slice()),
        Event::StageDrop { stage } => stage_drop(parts, *stage),
        Event::Put {
            dump,
            path,
            item,
            token,
        } => match item {
            PutItem::Whole(_) => Err(Refusal::Halted),
            PutItem::Staged(file) => put_staged(parts, alloc, *dump, path, file, *token),
        },
        Event::Commit { dump, now } => commit_dump(parts, alloc, *dump, *now),
        Event::OpenFile { host, number, path } => open_file(parts, alloc, host, *number, path),
        Event::ReadPart { reader } => read_part(parts, alloc, *reader),
        _ => Err(Refusal::Halted),
    }
}

/// The reply to an ask.
fn reply_to(alloc: Global, parts: &mut Parts, ask: Ask) -> Result<Result<Answer, Refusal>, Fail> {
    let event = event_of(alloc, ask)?;
    expect_ready(parts)?;
    Ok(carry_out(parts, alloc, &event))
}

/// Fails where an ask has another reply.
fn expect_reply(alloc: Global, parts: &mut Parts, ask: Ask, reply: &str) -> Result<(), Fail> {
    let said = text_of(alloc, reply_to(alloc, parts, ask)?)?;
    expect(said.as_str() == reply, "another reply")
}

/// Asks for each, and fails where one has another reply.
pub fn expect_replies(alloc: Global, parts: &mut Parts, steps: Steps) -> Result<(), Fail> {
    for (ask, reply) in steps {
        expect_reply(alloc, parts, *ask, reply)?;
    }
    Ok(())
}

/// Puts the next bytes into the one stage.
fn add_piece(parts: &mut Parts, piece: &[u8]) -> Result<(), Fail> {
    expect_ready(parts)?;
    let taken = stage_piece(parts, 0, piece);
    expect(matches!(taken, Ok(Answer::Done)), "a piece is refused")
}

/// The parts of a store with an open dump, whose one stage has these bytes.
pub fn parts_with_stage(alloc: Global, bytes: &[u8]) -> Result<Parts, Fail> {
    let mut parts = blank_parts(alloc)?;
    expect_replies(alloc, &mut parts, OPENED)?;
    for piece in bytes.chunks(PIECE_LIMIT) {
        add_piece(&mut parts, piece)?;
    }
    Ok(parts)
}

/// Gives a file of the pool or of a stage other bytes, or takes it away.
pub fn alter(parts: &mut Parts, file: FileId, bytes: Option<&[u8]>) -> Result<(), Fail>
    requires { is_data file ≡ true }
{
    expect_ready(parts)?;
    match bytes {
        Some(bytes) => {
            let altered = journal_view::stage(&mut parts.journal, file, bytes);
            expect(altered.is_ok(), "not altered")
        }
        None => {
            let removed = journal_view::drop_data(&mut parts.journal, file);
            expect(removed.is_ok(), "not removed")
        }
    }
}

/// Whether a file was found with these bytes, or gone.
fn is_found(found: &Option<Bytes>, holds: Option<&[u8]>) -> bool {
    match (found, holds) {
        (Some(found), Some(holds)) => found.as_slice() == holds,
        (None, None) => true,
        _ => false,
    }
}

/// Whether a reply says that a file is damaged, with what was found of it.
pub fn is_damaged(reply: &Result<Answer, Refusal>, of: FileId, holds: Option<&[u8]>) -> bool {
    match reply {
        Err(Refusal::Damaged { file, found }) => *file == of && is_found(found, holds),
        _ => false,
    }
}

/// A stage whose file was altered is told by its put, and is open still.
fn expect_named(alloc: Global, other: Option<&[u8]>) -> Result<(), Fail> {
    let mut parts = parts_with_stage(alloc, b"hello")?;
    alter(&mut parts, STAGE, other)?;
    let reply = reply_to(alloc, &mut parts, Ask::PutStage(0, "a", 0))?;
    expect(is_damaged(&reply, STAGE, other), "the stage isn't named")?;
    expect_reply(alloc, &mut parts, Ask::StageDrop(0), "done")
}

#[test]
fn an_altered_stage_is_named(rt: HostRuntime) -> Result<(), Fail> {
    expect_named(rt.alloc(), Some(b"hell"))?;
    expect_named(rt.alloc(), None)
}

/// A backup of a file of two parts, and an open reader of it.
const READ: Steps = &[
    (Ask::PutStage(0, "a", 0), "done"),
    (Ask::Commit(0), "0"),
    (Ask::Open("pc1", 0, "a"), "reader 0 of 65541"),
];

/// The same bytes but for the last one.
fn other_at_its_end(alloc: Global, bytes: &[u8]) -> Result<Vec<u8>, Fail> {
    let mut other = Vec::from_slice(alloc, bytes)?;
    let last = other.pop().unwrap_or(0);
    other.push(last.wrapping_add(1))?;
    Ok(other)
}

/// The pool's file of a content.
pub fn pool_file(bytes: &[u8]) -> PoolId {
    PoolId {
        digest: Md5Namer.name(bytes),
        extension: 0,
    }
}

/// Whether a reply is a part of so many bytes.
fn is_part(reply: &Result<Answer, Refusal>, length: usize) -> bool {
    match reply {
        Ok(Answer::Part(part)) => part.len() == length,
        _ => false,
    }
}

/// A content that was altered is told in the place of the last part, and each time again, with the digest that was found.
#[test]
fn an_altered_content_is_told_in_the_place_of_the_last_part(rt: HostRuntime) -> Result<(), Fail> {
    let alloc = rt.alloc();
    let bytes = content_of(alloc, PIECE_LIMIT + 5)?;
    let other = other_at_its_end(alloc, bytes.as_slice())?;
    let file = FileId::Pool(pool_file(bytes.as_slice()));
    let mut parts = parts_with_stage(alloc, bytes.as_slice())?;
    expect_replies(alloc, &mut parts, READ)?;
    alter(&mut parts, file, Some(other.as_slice()))?;
    let first = reply_to(alloc, &mut parts, Ask::Part(0))?;
    expect(is_part(&first, PIECE_LIMIT), "no first part")?;
    let found = Md5Namer.name(other.as_slice());
    for _ in 0..2u8 {
        let reply = reply_to(alloc, &mut parts, Ask::Part(0))?;
        expect(
            is_damaged(&reply, file, Some(found.as_slice())),
            "the content isn't named",
        )?;
    }
    Ok(())
}
