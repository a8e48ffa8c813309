//! What is pending between two frames, and what the next one calls.

ghost use Rattle.std.specs.Prelude.{◌≡◌, ◌==◌, Some, min, length, IfOk, IfErr};
ghost use Rattle.frame_puts.specs.Steps.{file_item, removal_step, whole_step, opening_step, file_step, node_step, first_step, only_step, small_step, more_step, last_step, piece_step, large_step, frame_step, end_of};
ghost use Rattle.frame_puts.specs.Laid.{Laid, Unlaid, Ends};

use crate::calls::{open_stage, put_item, put_staged, remove, send_piece};
use crate::faults::LayFault;
use crate::files::{LargeFile, SmallFile};
use attr_records::{File, Item, PathName};
use disk_trait::Bytes;
use office_model::{Port, SessionName};
use std::alloc::Global;
use std::mem;
use tree_frames::{FileNode, Frame, Node};

/// The bytes of a piece, but for the last of a file.
const PIECE: u64 = 65_536;

/// What is pending between two frames.
#[derive(Debug, Drop)]
pub enum Laying {
    /// The next path may come, or the end. So it begins.
    Nothing,
    /// A small file's piece is still to come.
    Small(SmallFile),
    /// Pieces of a large file are still to come.
    Large(LargeFile),
    /// The end came, or a frame was refused or foreign: no other frame is taken.
    Ended,
}

/// How many bytes the next piece has of a file of which so many are left.
fn next_size(left: u64) -> u64
    ensures { result ≡ min 65536 left }
{
    if left < PIECE { left } else { PIECE }
}

/// Whether a piece has so many bytes.
fn is_wanted(bytes: &Bytes, size: u64) -> bool
    ensures { result ≡ (length bytes.now == size) }
{
    bytes.len() as u64 == size
}

/// A removal from a dump.
fn lay_removal<P: Port>(
    alloc: Global,
    port: &mut P,
    dump: SessionName,
    path: PathName,
) -> Result<Laying, LayFault>
    ensures { Ends P.moves port.old port.new (λ stage. Some (removal_step dump path)) result }
{
    match remove(alloc, port, dump, path) {
        Ok(()) => Ok(Laying::Nothing),
        Err(refusal) => Err(LayFault::Refused(refusal)),
    }
}

/// A put of an item with all its bytes.
fn lay_item<P: Port>(
    alloc: Global,
    port: &mut P,
    dump: SessionName,
    path: PathName,
    item: Item,
) -> Result<Laying, LayFault>
    ensures { Ends P.moves port.old port.new (λ stage. Some (whole_step dump path item)) result }
{
    match put_item(alloc, port, dump, path, item) {
        Ok(()) => Ok(Laying::Nothing),
        Err(refusal) => Err(LayFault::Refused(refusal)),
    }
}

/// A file of more bytes than a piece: a stage is opened for them.
fn lay_large<P: Port>(
    alloc: Global,
    port: &mut P,
    dump: SessionName,
    path: PathName,
    node: FileNode,
) -> Result<Laying, LayFault>
    ensures { Ends P.moves port.old port.new (λ stage. Some (opening_step dump path node stage)) result }
{
    let left = node.size;
    match open_stage(alloc, port, dump) {
        Ok(stage) => Ok(Laying::Large(LargeFile {
            path,
            node,
            stage,
            left,
        })),
        Err(refusal) => Err(LayFault::Refused(refusal)),
    }
}

/// The entry of a file.
fn lay_file<P: Port>(
    alloc: Global,
    port: &mut P,
    dump: SessionName,
    path: PathName,
    node: FileNode,
) -> Result<Laying, LayFault>
    ensures { Ends P.moves port.old port.new (λ stage. Some (file_step dump path node stage)) result }
{
    if node.size > PIECE {
        return lay_large(alloc, port, dump, path, node);
    }
    if node.size > 0 {
        return Ok(Laying::Small(SmallFile { path, node }));
    }
    let bytes = Bytes::new(alloc);
    lay_item(alloc, port, dump, path, file_item(node, bytes))
}

/// A File of these attributes and of this group.
fn file_item(node: FileNode, bytes: Bytes) -> Item
    ensures { result ≡ file_item node bytes }
{
    Item::File(File {
        attr: node.attr,
        group: node.group,
        bytes,
    })
}

/// The entry of what stands at a path.
fn lay_node<P: Port>(
    alloc: Global,
    port: &mut P,
    dump: SessionName,
    path: PathName,
    node: Node,
) -> Result<Laying, LayFault>
    ensures { Ends P.moves port.old port.new (λ stage. Some (node_step dump path node stage)) result }
{
    match node {
        Node::File(node) => lay_file(alloc, port, dump, path, node),
        Node::Dir(dir) => lay_item(alloc, port, dump, path, Item::Dir(dir)),
        Node::Link(link) => lay_item(alloc, port, dump, path, Item::Link(link)),
    }
}

/// A frame where nothing is pending.
fn lay_first<P: Port>(
    alloc: Global,
    port: &mut P,
    dump: SessionName,
    frame: Frame,
) -> Result<Laying, LayFault>
    ensures { Ends P.moves port.old port.new (λ stage. first_step dump stage frame) result }
{
    match frame {
        Frame::Deleted(path) => lay_removal(alloc, port, dump, path),
        Frame::Entry { path, node } => lay_node(alloc, port, dump, path, node),
        Frame::Piece(_) => Err(LayFault::Foreign),
        Frame::End(_) => Ok(Laying::Ended),
    }
}

/// The one piece of a small file.
fn lay_only_piece<P: Port>(
    alloc: Global,
    port: &mut P,
    dump: SessionName,
    file: SmallFile,
    bytes: Bytes,
) -> Result<Laying, LayFault>
    ensures { Ends P.moves port.old port.new (λ stage. only_step dump file bytes) result }
{
    let SmallFile { path, node } = file;
    if !is_wanted(&bytes, node.size) {
        return Err(LayFault::Foreign);
    }
    lay_item(alloc, port, dump, path, file_item(node, bytes))
}

/// The last piece of a large file, and its put.
fn lay_last_piece<P: Port>(
    alloc: Global,
    port: &mut P,
    dump: SessionName,
    file: LargeFile,
    bytes: Bytes,
) -> Result<Laying, LayFault>
    ensures { Ends P.moves port.old port.new (λ stage. Some (last_step dump file bytes)) result }
{
    let LargeFile {
        path,
        node,
        stage,
        ..
    } = file;
    match send_piece(alloc, port, stage, bytes) {
        Ok(()) => {}
        Err(refusal) => return Err(LayFault::Refused(refusal)),
    }
    match put_staged(alloc, port, dump, path, node, stage) {
        Ok(()) => Ok(Laying::Nothing),
        Err(refusal) => Err(LayFault::Refused(refusal)),
    }
}

/// A piece of a large file behind which more come.
fn lay_more<P: Port>(
    alloc: Global,
    port: &mut P,
    file: LargeFile,
    left: u64,
    bytes: Bytes,
) -> Result<Laying, LayFault>
    ensures { Ends P.moves port.old port.new (λ stage. Some (more_step file left bytes)) result }
{
    let LargeFile {
        path,
        node,
        stage,
        ..
    } = file;
    match send_piece(alloc, port, stage, bytes) {
        Ok(()) => Ok(Laying::Large(LargeFile {
            path,
            node,
            stage,
            left,
        })),
        Err(refusal) => Err(LayFault::Refused(refusal)),
    }
}

/// A piece of a large file.
fn lay_piece<P: Port>(
    alloc: Global,
    port: &mut P,
    dump: SessionName,
    file: LargeFile,
    bytes: Bytes,
) -> Result<Laying, LayFault>
    ensures { Ends P.moves port.old port.new (λ stage. piece_step dump file bytes) result }
{
    let size = next_size(file.left);
    if !is_wanted(&bytes, size) {
        return Err(LayFault::Foreign);
    }
    if size < file.left {
        let left = file.left - size;
        return lay_more(alloc, port, file, left, bytes);
    }
    lay_last_piece(alloc, port, dump, file, bytes)
}

/// A frame where a small file is pending.
fn lay_small<P: Port>(
    alloc: Global,
    port: &mut P,
    dump: SessionName,
    file: SmallFile,
    frame: Frame,
) -> Result<Laying, LayFault>
    ensures { Ends P.moves port.old port.new (λ stage. small_step dump file frame) result }
{
    match frame {
        Frame::Piece(bytes) => lay_only_piece(alloc, port, dump, file, bytes),
        Frame::Deleted(_) => Err(LayFault::Foreign),
        Frame::Entry { .. } => Err(LayFault::Foreign),
        Frame::End(_) => Err(LayFault::Foreign),
    }
}

/// A frame where a large file is pending.
fn lay_next<P: Port>(
    alloc: Global,
    port: &mut P,
    dump: SessionName,
    file: LargeFile,
    frame: Frame,
) -> Result<Laying, LayFault>
    ensures { Ends P.moves port.old port.new (λ stage. large_step dump file frame) result }
{
    match frame {
        Frame::Piece(bytes) => lay_piece(alloc, port, dump, file, bytes),
        Frame::Deleted(_) => Err(LayFault::Foreign),
        Frame::Entry { .. } => Err(LayFault::Foreign),
        Frame::End(_) => Err(LayFault::Foreign),
    }
}

/// A frame, by what is pending.
fn lay<P: Port>(
    alloc: Global,
    port: &mut P,
    dump: SessionName,
    laying: Laying,
    frame: Frame,
) -> Result<Laying, LayFault>
    ensures { Ends P.moves port.old port.new (λ stage. frame_step dump laying stage frame) result }
{
    match laying {
        Laying::Nothing => lay_first(alloc, port, dump, frame),
        Laying::Small(file) => lay_small(alloc, port, dump, file, frame),
        Laying::Large(file) => lay_next(alloc, port, dump, file, frame),
        Laying::Ended => Err(LayFault::Foreign),
    }
}

/// The number of entries, if a frame is the end.
fn end_of(frame: &Frame) -> Option<u32>
    ensures { result ≡ end_of frame.now }
{
    match frame {
        Frame::End(count) => Some(*count),
        Frame::Deleted(_) | Frame::Entry { .. } | Frame::Piece(_) => None,
    }
}

impl Laying {
    /// Takes the next frame, and gives the number of entries if it is the end.
    ///
    /// It calls what `frame_step` says, each call is answered, and what is pending is as it says. `Foreign` if that says nothing of the
    /// frame, and then nothing was called; `Refused` if a call was refused, behind which none was made. Behind the end, a refusal and a
    /// foreign frame each frame is foreign.
    pub fn take<P: Port>(
        &mut self,
        alloc: Global,
        port: &mut P,
        dump: SessionName,
        frame: Frame,
    ) -> Result<Option<u32>, LayFault>
        ensures ok { IfOk result (λ end. Laid P.moves port.old port.new (λ stage. frame_step dump self.old stage frame) self.new) }
        ensures end { IfOk result (λ end. end ≡ end_of frame) }
        ensures err { IfErr result (Unlaid P.moves port.old port.new (λ stage. frame_step dump self.old stage frame)) }
        ensures over { IfErr result (λ fault. self.new ≡ Laying.Ended) }
    {
        let end = end_of(&frame);
        let laying = mem::replace(self, Laying::Ended);
        match lay(alloc, port, dump, laying, frame) {
            Ok(laying) => {
                *self = laying;
                Ok(end)
            }
            Err(fault) => Err(fault),
        }
    }
}
