//! Contents of more than one piece go in by a stage and come out by a reader and by a restore.

use crate::ports::{expect, open_blank};
use attr_records::{HostName, PathName};
use disk_trait::Bytes;
use office_asks::{Ask, expect_step, expect_steps};
use office_model::{Answer, Event, Frame, PIECE_LIMIT, Port, SessionName};
use std::alloc::Global;
use std::test::Fail;

/// The length of each content that is tried: around one piece, two, and more.
const LENGTHS: &[usize] = &[1, 65_535, 65_536, 65_537, 131_072, 131_073, 150_000];

/// More parts or frames than there are.
const MANY: u32 = 20;

const OPENED: &[(Ask, &str)] = &[(Ask::Host("pc1"), "done"), (Ask::Full("pc1"), "1-0")];

/// So many bytes, none of which is as the one a piece before it.
pub fn content_of(alloc: Global, length: usize) -> Result<Vec<u8>, Fail> {
    let mut bytes = Vec::new(alloc);
    for index in 0..length {
        bytes.push((index % 251) as u8)?;
    }
    Ok(bytes)
}

/// Puts a content into an open stage, piece by piece.
fn fill<P: Port>(alloc: Global, port: &mut P, stage: u64, bytes: &[u8]) -> Result<(), Fail> {
    for piece in bytes.chunks(PIECE_LIMIT) {
        let bytes = Bytes::from_slice(alloc, piece)?;
        let reply = port.call(alloc, &Event::StagePiece { stage, bytes });
        expect(matches!(reply, Ok(Answer::Done)), "a piece is refused")?;
    }
    Ok(())
}

/// The next part of a reader.
fn next_part<P: Port>(alloc: Global, port: &mut P, reader: u64) -> Result<Bytes, Fail> {
    match port.call(alloc, &Event::ReadPart { reader }) {
        Ok(Answer::Part(part)) => Ok(part),
        _ => Err(Fail::new("no part")),
    }
}

/// All that a reader gives.
fn read_all<P: Port>(alloc: Global, port: &mut P, reader: u64) -> Result<Vec<u8>, Fail> {
    let mut bytes = Vec::new(alloc);
    for _ in 0..MANY {
        let part = next_part(alloc, port, reader)?;
        if part.is_empty() {
            return Ok(bytes);
        }
        bytes.extend_from_slice(part.as_slice())?;
    }
    Err(Fail::new("parts without an end"))
}

/// The reader of the file a of the host pc1's first backup, and how many bytes it gives.
fn open_reader<P: Port>(alloc: Global, port: &mut P) -> Result<(u64, u64), Fail> {
    let event = Event::OpenFile {
        host: HostName::read(alloc, b"pc1")?,
        number: 0,
        path: PathName::read(alloc, b"a")?,
    };
    match port.call(alloc, &event) {
        Ok(Answer::Opened { reader, size }) => Ok((reader, size)),
        _ => Err(Fail::new("no reader")),
    }
}

/// The next frame of the restore of this number in the first epoch.
fn next_frame<P: Port>(alloc: Global, port: &mut P, sequence: u64) -> Result<Frame, Fail> {
    let restore = SessionName { epoch: 1, sequence };
    match port.call(alloc, &Event::ReadNext { restore }) {
        Ok(Answer::Next(frame)) => Ok(frame),
        _ => Err(Fail::new("no frame")),
    }
}

/// Adds the bytes of a frame, if it has some, and says whether it is the last one.
fn add_frame(bytes: &mut Vec<u8>, frame: &Frame) -> Result<bool, Fail> {
    match frame {
        Frame::Piece(piece) => {
            bytes.extend_from_slice(piece.as_slice())?;
            Ok(false)
        }
        Frame::Deleted(_) => Err(Fail::new("a path that was lost")),
        Frame::Entry { .. } => Ok(false),
        Frame::End(_) => Ok(true),
    }
}

/// What the pieces of a restore are, up to its end.
fn restored<P: Port>(alloc: Global, port: &mut P, sequence: u64) -> Result<Vec<u8>, Fail> {
    let mut bytes = Vec::new(alloc);
    for _ in 0..MANY {
        let frame = next_frame(alloc, port, sequence)?;
        if add_frame(&mut bytes, &frame)? {
            return Ok(bytes);
        }
    }
    Err(Fail::new("frames without an end"))
}

/// Stages a content and puts it at a path.
fn put_in_pieces<P: Port>(
    alloc: Global,
    port: &mut P,
    stage: u64,
    path: &'static str,
    bytes: &[u8],
) -> Result<(), Fail> {
    let opened = format!(in alloc; "stage {stage}")?;
    expect_step(alloc, port, Ask::Stage(0), opened.as_str())?;
    fill(alloc, port, stage, bytes)?;
    expect_step(alloc, port, Ask::PutStage(0, path, stage), "done")
}

/// Makes a backup of two files of a content, each by a stage of its own; the pool has the content once.
fn put_twice<P: Port>(alloc: Global, port: &mut P, bytes: &[u8]) -> Result<(), Fail> {
    expect_steps(alloc, port, OPENED)?;
    put_in_pieces(alloc, port, 0, "a", bytes)?;
    put_in_pieces(alloc, port, 1, "b", bytes)?;
    expect_step(alloc, port, Ask::Commit(0), "0")?;
    let stats = format!(in alloc; "1 1 0 0 1 0 {}", bytes.len())?;
    expect_step(alloc, port, Ask::Stats, stats.as_str())
}

/// Fails where a reader gives other bytes than these.
fn expect_read<P: Port>(alloc: Global, port: &mut P, bytes: &[u8]) -> Result<(), Fail> {
    let (reader, size) = open_reader(alloc, port)?;
    expect(size == bytes.len() as u64, "another size")?;
    let read = read_all(alloc, port, reader)?;
    expect(read.as_slice() == bytes, "other bytes are read")
}

/// Fails where a restore gives other bytes than these, and these once more.
fn expect_restored<P: Port>(alloc: Global, port: &mut P, bytes: &[u8]) -> Result<(), Fail> {
    expect_step(alloc, port, Ask::Restore("pc1", 0), "1-1")?;
    let found = restored(alloc, port, 1)?;
    let mut both = Vec::from_slice(alloc, bytes)?;
    both.extend_from_slice(bytes)?;
    expect(found == both, "other bytes are restored")
}

/// A content of this length goes in by stages and comes out by a reader and by a restore.
fn goes_through(alloc: Global, length: usize) -> Result<(), Fail> {
    let bytes = content_of(alloc, length)?;
    let mut port = open_blank(alloc)?;
    put_twice(alloc, &mut port, bytes.as_slice())?;
    expect_read(alloc, &mut port, bytes.as_slice())?;
    expect_restored(alloc, &mut port, bytes.as_slice())
}

#[test]
fn a_content_in_pieces_comes_back_whole(rt: HostRuntime) -> Result<(), Fail> {
    for length in LENGTHS {
        goes_through(rt.alloc(), *length)?;
    }
    Ok(())
}

/// Cleans all buckets, of which none has a content that nothing holds.
pub fn clean_all<P: Port>(alloc: Global, port: &mut P) -> Result<(), Fail> {
    for bucket in 0..16u8 {
        expect_step(alloc, port, Ask::Clean(bucket), "0 0 0")?;
    }
    Ok(())
}

/// Deletes the backup, cleans twice and sweeps.
fn delete_all<P: Port>(alloc: Global, port: &mut P) -> Result<(), Fail> {
    expect_step(alloc, port, Ask::Delete("pc1", 0), "done")?;
    clean_all(alloc, port)?;
    clean_all(alloc, port)?;
    expect_step(alloc, port, Ask::Sweep, "done")
}

/// Fails where a reader that was opened before all that gives other bytes.
fn outlives<P: Port>(alloc: Global, port: &mut P, bytes: &[u8]) -> Result<(), Fail> {
    let (reader, _) = open_reader(alloc, port)?;
    delete_all(alloc, port)?;
    let read = read_all(alloc, port, reader)?;
    expect(read.as_slice() == bytes, "other bytes are read")
}

/// A reader that was opened before a deletion, two cleanings and a sweep gives all bytes.
#[test]
fn a_reader_outlives_its_backup(rt: HostRuntime) -> Result<(), Fail> {
    let alloc = rt.alloc();
    let bytes = content_of(alloc, 70_000)?;
    let mut port = open_blank(alloc)?;
    expect_steps(alloc, &mut port, OPENED)?;
    put_in_pieces(alloc, &mut port, 0, "a", bytes.as_slice())?;
    expect_step(alloc, &mut port, Ask::Commit(0), "0")?;
    outlives(alloc, &mut port, bytes.as_slice())
}
