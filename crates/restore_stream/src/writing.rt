//! Writes frames, and the stream of a tree.

ghost use Rattle.std.specs.Prelude.{◌≡◌, ◌<◌, ◌≤◌, ◌++◌, [], true, false, length, OnOk, OnErr, IfOk, IsErrOf};
ghost use Rattle.std.specs.Int.{w8, w16};
ghost use Rattle.fault_counts.specs.Counts.{Counted};
ghost use Rattle.stream_traits.specs.Told.{behind, WroteFront};
ghost use Rattle.wire_bytes.specs.Layout.{text_bytes};
ghost use Rattle.restore_stream.specs.Layouts.{attr_bytes, kind_of, node_bytes, entry_bytes, frame_bytes, frames_bytes, stream_bytes, IsFrame};
ghost use Rattle.restore_stream.specs.Trees.{IsMadeTree};
ghost use Rattle.restore_stream.specs.Writing.{WroteFrames};

use crate::frames::FrameCursor;
use crate::made::MadeList;
use attr_records::{Attr, Link, PathName};
use disk_trait::Bytes;
use std::alloc::{AllocError, Global};
use std::error::Error;
use std::fmt;
use stream_traits::{Failed, Faults, Sink, write_all};
use tree_frames::{FileNode, Frame, Node};
use wire_bytes::{put_bytes, put_i64, put_text16, put_u8, put_u32, put_u64};

/// Writes attributes: mode, uid, gid, mtime, nanos.
#[tactic(auto, unfolding(crate::specs::Layouts::attr_bytes))]
fn put_attr(out: &mut Vec<u8>, attr: &Attr) -> Result<(), AllocError>
    ensures { OnOk result (out.new.items ≡ out.old.items ++ attr_bytes attr.now) }
{
    put_u32(out, u32::from(attr.mode()))?;
    put_u32(out, attr.uid())?;
    put_u32(out, attr.gid())?;
    put_i64(out, attr.mtime())?;
    put_u32(out, attr.nanos())?;
    Ok(())
}

/// Writes what stands behind the path of a File.
fn put_file(out: &mut Vec<u8>, file: &FileNode) -> Result<(), AllocError>
    ensures { OnOk result (out.new.items ≡ out.old.items ++ node_bytes (Node.File file.now)) }
{
    put_attr(out, &file.attr)?;
    put_u32(out, file.group)?;
    put_u64(out, file.size)?;
    Ok(())
}

/// Writes what stands behind the path of a Link.
fn put_link(out: &mut Vec<u8>, link: &Link) -> Result<(), AllocError>
    ensures { OnOk result (out.new.items ≡ out.old.items ++ node_bytes (Node.Link link.now)) }
{
    put_attr(out, &link.attr)?;
    put_text16(out, link.target.as_slice())?;
    Ok(())
}

/// Writes what stands behind the path.
fn put_node(out: &mut Vec<u8>, node: &Node) -> Result<(), AllocError>
    ensures { OnOk result (out.new.items ≡ out.old.items ++ node_bytes node.now) }
{
    match node {
        Node::File(file) => put_file(out, file),
        Node::Dir(dir) => put_attr(out, &dir.attr),
        Node::Link(link) => put_link(out, link),
    }
}

/// The number of a node's kind.
fn kind_of(node: &Node) -> u8
    ensures { result ≡ kind_of node.now }
{
    match node {
        Node::File(_) => 1,
        Node::Dir(_) => 2,
        Node::Link(_) => 3,
    }
}

/// Writes a path behind its length.
fn put_path(out: &mut Vec<u8>, path: &PathName) -> Result<(), AllocError>
    ensures { OnOk result (out.new.items ≡ out.old.items ++ text_bytes w16 path.now) }
{
    put_text16(out, path.as_slice())
}

/// Writes an entry behind its first byte: kind, path, and what stands behind it.
#[tactic(auto, unfolding(crate::specs::Layouts::entry_bytes))]
fn put_entry(out: &mut Vec<u8>, path: &PathName, node: &Node) -> Result<(), AllocError>
    ensures { OnOk result (out.new.items ≡ out.old.items ++ entry_bytes (path.now, node.now)) }
{
    put_u8(out, kind_of(node))?;
    put_path(out, path)?;
    put_node(out, node)?;
    Ok(())
}

/// Writes a frame.
fn put_frame(out: &mut Vec<u8>, frame: &Frame) -> Result<(), AllocError>
    requires { IsFrame frame.now }
    ensures { OnOk result (out.new.items ≡ out.old.items ++ frame_bytes frame.now) }
{
    match frame {
        Frame::Deleted(path) => {
            put_u8(out, b'X')?;
            put_path(out, path)
        }
        Frame::Entry { path, node } => {
            put_u8(out, b'E')?;
            put_entry(out, path, node)
        }
        Frame::Piece(bytes) => {
            put_u8(out, b'D')?;
            put_u32(out, bytes.len() as u32)?;
            put_bytes(out, bytes.as_slice())
        }
        Frame::End(count) => {
            put_u8(out, b'Z')?;
            put_u32(out, *count)
        }
    }
}

/// The bytes of a frame, or want of memory.
pub fn frame_bytes(alloc: Global, frame: &Frame) -> Result<Bytes, AllocError>
    requires { IsFrame frame.now }
    ensures { IfOk result (λ bytes. bytes ≡ frame_bytes frame.now) }
{
    let mut out = Vec::new(alloc);
    put_frame(&mut out, frame)?;
    Ok(Bytes::from_vec(out))
}

/// Why a stream was not written.
#[derive(Clone, Copy, Debug, PartialEq, Eq)]
pub enum WriteStreamFault {
    /// A write failed.
    WriteFault,
    /// There was no memory for a frame.
    Memory,
}

impl fmt::Display for WriteStreamFault {
    fn fmt<W: fmt::Write>(&self, f: &mut fmt::Formatter<W>) -> fmt::Result {
        match self {
            WriteStreamFault::WriteFault => write!(f, "a write failed"),
            WriteStreamFault::Memory => write!(f, "out of memory"),
        }
    }
}

impl Error for WriteStreamFault {}

impl From<Failed> for WriteStreamFault {
    ghost use Rattle.restore_stream.specs.declared.writing.WriteStreamFault.TheVariants.{WriteFault};

    ghost from_gives = { λ _ fault. fault ≡ WriteFault };

    fn from(_failed: Failed) -> WriteStreamFault {
        WriteStreamFault::WriteFault
    }
}

impl From<AllocError> for WriteStreamFault {
    ghost use Rattle.restore_stream.specs.declared.writing.WriteStreamFault.TheVariants.{Memory};

    ghost from_gives = { λ _ fault. fault ≡ Memory };

    fn from(_error: AllocError) -> WriteStreamFault {
        WriteStreamFault::Memory
    }
}

/// Writes the next frame, if one is left, and says whether one was.
fn write_next<K: Sink>(
    alloc: Global,
    cursor: &mut FrameCursor,
    sink: &mut K,
) -> Result<bool, WriteStreamFault>
    ensures wrote { OnOk result (WroteFrames (K.written sink.old) (K.written sink.new) cursor.old cursor.new) }
    ensures more { IfOk result (λ more. more ≡ true → length cursor.new < length cursor.old) }
    ensures end { IfOk result (λ more. more ≡ false → cursor.new ≡ []) }
    ensures front { OnErr result (WroteFront (K.written sink.old) (K.written sink.new) (frames_bytes cursor.old)) }
    ensures sent { K.sent sink.new ≡ K.sent sink.old }
    ensures left { K.left sink.new ≡ K.left sink.old }
    ensures counted { Counted (K.faults sink.old) (K.faults sink.new) (IsErrOf result WriteStreamFault.WriteFault) }
{
    match cursor.next_frame(alloc)? {
        Some(frame) => {
            let bytes = frame_bytes(alloc, &frame)?;
            write_all(sink, bytes.as_slice())?;
            Ok(true)
        }
        None => Ok(false),
    }
}

/// Writes the stream of a tree, and sends nothing. If a write fails or there is no memory for a frame, a front of the stream
/// may be written. It holds a frame at a time. `read_stream` of what was written gives the same tree again.
pub fn write_stream<K: Sink>(
    alloc: Global,
    tree: &MadeList,
    sink: &mut K,
) -> Result<(), WriteStreamFault>
    ensures tree { IsMadeTree tree.now }
    ensures all { OnOk result (K.written sink.new ≡ behind (K.written sink.old) (stream_bytes tree.now)) }
    ensures front { OnErr result (WroteFront (K.written sink.old) (K.written sink.new) (stream_bytes tree.now)) }
    ensures sent { K.sent sink.new ≡ K.sent sink.old }
    ensures left { K.left sink.new ≡ K.left sink.old }
    ensures counted { Counted (K.faults sink.old) (K.faults sink.new) (IsErrOf result WriteStreamFault.WriteFault) }
{
    let mut cursor = FrameCursor::new(tree.rows());
    write_all(sink, b"RST2")?;
    while write_next(alloc, &mut cursor, sink)? {}
    Ok(())
}
