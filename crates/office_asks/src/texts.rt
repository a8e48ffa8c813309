use crate::asks::{Ask, event_of};
use backup_rules::Line;
use disk_trait::Bytes;
use office_model::{Answer, Frame, Node, PIECE_LIMIT, PoolItemList, Port, Refusal};
use std::alloc::Global;
use std::test::Fail;

fn kind_of(node: &Node) -> &'static str {
    match node {
        Node::File(_) => "file",
        Node::Dir(_) => "dir",
        Node::Link(_) => "link",
    }
}

fn lines_text(alloc: Global, lines: &[Line]) -> Result<String, Fail> {
    let mut text = String::new(alloc);
    for line in lines {
        let number = line.number;
        let filled = if line.filled { "filled" } else { "unfilled" };
        text.push_str(&format!(in alloc; "{number} {filled} ")?)?;
    }
    Ok(text)
}

/// The name, the size and the mark of each content.
fn pool_text(alloc: Global, list: &PoolItemList) -> Result<String, Fail> {
    let mut text = String::new(alloc);
    for item in list.as_slice() {
        let digest = hex::encode(alloc, &item.id.digest)?;
        let (extension, size) = (item.id.extension, item.size);
        let marked = if item.mark { "marked" } else { "unmarked" };
        text.push_str(&format!(in alloc; "{digest}.{extension} {size} {marked} ")?)?;
    }
    Ok(text)
}

/// Bytes as they stand, or how many they are, if they fill a piece.
fn bytes_text(alloc: Global, bytes: &Bytes) -> Result<String, Fail> {
    if bytes.len() >= PIECE_LIMIT {
        return Ok(format!(in alloc; "{} bytes", bytes.len())?);
    }
    let text = String::from_utf8_lossy(alloc, bytes.as_slice())?;
    Ok(format!(in alloc; "{text}")?)
}

fn frame_text(alloc: Global, frame: &Frame) -> Result<String, Fail> {
    match frame {
        Frame::Deleted(path) => {
            let path = String::from_utf8_lossy(alloc, path.as_slice())?;
            Ok(format!(in alloc; "lost {path}")?)
        }
        Frame::Entry { path, node } => {
            let path = String::from_utf8_lossy(alloc, path.as_slice())?;
            Ok(format!(in alloc; "{} {path}", kind_of(node))?)
        }
        Frame::Piece(bytes) => Ok(format!(in alloc; "{} bytes", bytes.len())?),
        Frame::End(count) => Ok(format!(in alloc; "end {count}")?),
    }
}

/// An answer as text.
fn answer_text(alloc: Global, answer: Answer) -> Result<String, Fail> {
    match answer {
        Answer::Dump(name) | Answer::Restore(name) => Ok(format!(in alloc; "{name}")?),
        Answer::Already(number) => Ok(format!(in alloc; "already {number}")?),
        Answer::Committed(number) | Answer::Expired(number) => Ok(format!(in alloc; "{number}")?),
        Answer::Entries(list) => {
            let mut text = String::new(alloc);
            for entry in list.as_slice() {
                let name = String::from_utf8_lossy(alloc, entry.name.as_slice())?;
                text.push_str(&format!(in alloc; "{name} ")?)?;
            }
            Ok(text)
        }
        Answer::Entry(node) => Ok(String::from_str(alloc, kind_of(&node))?),
        Answer::Stage(number) => Ok(format!(in alloc; "stage {number}")?),
        Answer::Partial {
            entries,
            kind,
            start,
        } => Ok(format!(in alloc; "{entries} {kind:?} {start}")?),
        Answer::Opened { reader, size } => Ok(format!(in alloc; "reader {reader} of {size}")?),
        Answer::Content(bytes) | Answer::Part(bytes) => bytes_text(alloc, &bytes),
        Answer::Contacts { good, bad } => Ok(format!(in alloc; "good {good} bad {bad}")?),
        Answer::Due { blackout, kind } => Ok(format!(in alloc; "{blackout} {kind:?}")?),
        Answer::Cleaned {
            marked,
            unmarked,
            removed,
        } => Ok(format!(in alloc; "{marked} {unmarked} {removed}")?),
        Answer::Stats(s) => Ok(format!(in alloc;
            "{} {} {} {} {} {} {}",
            s.hosts, s.backups, s.dumps, s.restores, s.files, s.marked, s.bytes
        )?),
        Answer::Hosts(list) => Ok(format!(in alloc; "{} hosts", list.as_slice().len())?),
        Answer::Backups { lines, next, dump } => {
            let lines = lines_text(alloc, lines.as_slice())?;
            Ok(format!(in alloc; "{lines}next {next} dump {}", dump.is_some())?)
        }
        Answer::PoolItems(list) => pool_text(alloc, &list),
        Answer::Reopened(epoch) => Ok(format!(in alloc; "epoch {epoch}")?),
        Answer::Next(frame) => frame_text(alloc, &frame),
        Answer::Done => Ok(String::from_str(alloc, "done")?),
    }
}

/// A reply as text: that of its answer, or the refusal's name.
pub fn text_of(alloc: Global, reply: Result<Answer, Refusal>) -> Result<String, Fail> {
    match reply {
        Ok(answer) => answer_text(alloc, answer),
        Err(refusal) => Ok(format!(in alloc; "{refusal}")?),
    }
}

/// Asks a port, and fails if it isn't answered so.
pub fn expect_step<P: Port>(
    alloc: Global,
    port: &mut P,
    ask: Ask,
    reply: &str,
) -> Result<(), Fail> {
    let event = event_of(alloc, ask)?;
    let got = text_of(alloc, port.call(alloc, &event))?;
    if got.as_str() == reply {
        return Ok(());
    }
    Err(Fail::new(format_args!("{event:?}: {got}")))
}

/// Asks a port row by row, and fails likewise.
pub fn expect_steps<P: Port>(
    alloc: Global,
    port: &mut P,
    steps: &[(Ask, &str)],
) -> Result<(), Fail> {
    for (ask, reply) in steps {
        expect_step(alloc, port, *ask, reply)?;
    }
    Ok(())
}
