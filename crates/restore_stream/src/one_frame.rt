//! Reads a frame by itself, whatever stands before it.

ghost use Rattle.std.specs.Prelude.{⊤, ◌≡◌, ◌≤◌, [], None, Some, IfOk, IfErr, IsErrOf, IsTrue, ◌↔◌};
ghost use Rattle.fault_counts.specs.Counts.{Counted};
ghost use Rattle.restore_stream.specs.Reading.{Reads};
ghost use Rattle.restore_stream.specs.Streams.{u8_field, u32_field, text_field16};
ghost use Rattle.restore_stream.specs.OneFrame.{IsPath, IsPieceLength, is_frame_tag, IsFrameTag, IsFrameOf, deleted_layout, entry_frame_layout, piece_frame_layout, end_frame_layout, behind_tag, frame_layout};

use crate::entries::{read_kind, read_node};
use crate::faults::ReadStreamFault;
use crate::fields::{read_bytes, read_text16, read_u8, read_u32};
use crate::frames::MAX_PIECE_BYTES;
use crate::unread::Unread;
use attr_records::{PathName, broken_path_rule};
use disk_trait::Bytes;
use std::alloc::{AllocError, Global};
use stream_traits::{Faults, Source};
use tree_frames::Frame;

/// Whether these bytes are a path.
fn is_path(text: &[u8]) -> bool
    ensures { IsTrue result ↔ IsPath text.now }
{
    broken_path_rule(text).is_none()
}

/// Reads a path.
fn read_path<S: Source>(alloc: Global, source: &mut S) -> Result<PathName, ReadStreamFault>
    requires sent { S.sent source.old ≡ S.written source.old }
    ensures read { Reads (text_field16 IsPath) 0 (λ path. path) (S.left source.old) result (S.left source.new) }
    ensures written { S.written source.new ≡ S.written source.old }
    ensures sent { S.sent source.new ≡ S.sent source.old }
    ensures counted { Counted (S.faults source.old) (S.faults source.new) (IsErrOf result ReadStreamFault.ReadFault) }
{
    let text = read_text16(alloc, source)?;
    if !is_path(text.as_slice()) {
        return Err(ReadStreamFault::BadStream(0));
    }
    match PathName::from_valid(alloc, text.as_slice()) {
        Ok(path) => Ok(path),
        Err(_) => Err(ReadStreamFault::Memory),
    }
}

/// Reads a path that was lost, behind the first byte of its frame.
fn read_deleted<S: Source>(alloc: Global, source: &mut S) -> Result<Frame, ReadStreamFault>
    requires sent { S.sent source.old ≡ S.written source.old }
    ensures read { Reads (deleted_layout) 0 (λ frame. frame) (S.left source.old) result (S.left source.new) }
    ensures written { S.written source.new ≡ S.written source.old }
    ensures sent { S.sent source.new ≡ S.sent source.old }
    ensures counted { Counted (S.faults source.old) (S.faults source.new) (IsErrOf result ReadStreamFault.ReadFault) }
{
    match read_path(alloc, source) {
        Ok(path) => Ok(Frame::Deleted(path)),
        Err(fault) => Err(fault),
    }
}

/// Reads an entry behind its first byte, whatever its path comes after.
fn read_entry<S: Source>(alloc: Global, source: &mut S) -> Result<Frame, ReadStreamFault>
    requires sent { S.sent source.old ≡ S.written source.old }
    ensures read { Reads (entry_frame_layout) 0 (λ frame. frame) (S.left source.old) result (S.left source.new) }
    ensures written { S.written source.new ≡ S.written source.old }
    ensures sent { S.sent source.new ≡ S.sent source.old }
    ensures counted { Counted (S.faults source.old) (S.faults source.new) (IsErrOf result ReadStreamFault.ReadFault) }
{
    let kind = read_kind(source, 0)?;
    let path = read_path(alloc, source)?;
    match read_node(alloc, source, 0, kind) {
        Ok(node) => Ok(Frame::Entry { path, node }),
        Err(fault) => Err(fault),
    }
}

/// Whether a piece may have so many bytes.
fn is_piece_len(count: u32) -> bool
    ensures { IsTrue result ↔ IsPieceLength count }
{
    count > 0 && count as usize <= MAX_PIECE_BYTES
}

/// Reads how many bytes a piece has.
fn read_piece_len<S: Source>(source: &mut S) -> Result<u32, ReadStreamFault>
    requires sent { S.sent source.old ≡ S.written source.old }
    ensures read { Reads (u32_field IsPieceLength) 0 (λ count. count) (S.left source.old) result (S.left source.new) }
    ensures written { S.written source.new ≡ S.written source.old }
    ensures sent { S.sent source.new ≡ S.sent source.old }
    ensures counted { Counted (S.faults source.old) (S.faults source.new) (IsErrOf result ReadStreamFault.ReadFault) }
{
    let count = read_u32(source)?;
    if !is_piece_len(count) {
        return Err(ReadStreamFault::BadStream(0));
    }
    Ok(count)
}

/// Reads a piece behind its first byte.
fn read_piece<S: Source>(alloc: Global, source: &mut S) -> Result<Frame, ReadStreamFault>
    requires sent { S.sent source.old ≡ S.written source.old }
    ensures read { Reads (piece_frame_layout) 0 (λ frame. frame) (S.left source.old) result (S.left source.new) }
    ensures written { S.written source.new ≡ S.written source.old }
    ensures sent { S.sent source.new ≡ S.sent source.old }
    ensures counted { Counted (S.faults source.old) (S.faults source.new) (IsErrOf result ReadStreamFault.ReadFault) }
{
    let count = read_piece_len(source)?;
    match read_bytes(alloc, source, count as usize) {
        Ok(bytes) => Ok(Frame::Piece(Bytes::from_vec(bytes))),
        Err(fault) => Err(fault),
    }
}

/// Reads the end behind its first byte.
fn read_end<S: Source>(source: &mut S) -> Result<Frame, ReadStreamFault>
    requires sent { S.sent source.old ≡ S.written source.old }
    ensures read { Reads (end_frame_layout) 0 (λ frame. frame) (S.left source.old) result (S.left source.new) }
    ensures written { S.written source.new ≡ S.written source.old }
    ensures sent { S.sent source.new ≡ S.sent source.old }
    ensures counted { Counted (S.faults source.old) (S.faults source.new) (IsErrOf result ReadStreamFault.ReadFault) }
{
    match read_u32(source) {
        Ok(count) => Ok(Frame::End(count)),
        Err(fault) => Err(fault),
    }
}

/// Reads what stands behind the first byte of a frame.
fn read_behind<S: Source>(alloc: Global, source: &mut S, tag: u8) -> Result<Frame, ReadStreamFault>
    requires sent { S.sent source.old ≡ S.written source.old }
    ensures read { Reads (behind_tag tag) 0 (λ frame. frame) (S.left source.old) result (S.left source.new) }
    ensures written { S.written source.new ≡ S.written source.old }
    ensures sent { S.sent source.new ≡ S.sent source.old }
    ensures counted { Counted (S.faults source.old) (S.faults source.new) (IsErrOf result ReadStreamFault.ReadFault) }
{
    if tag == b'X' {
        return read_deleted(alloc, source);
    }
    if tag == b'E' {
        return read_entry(alloc, source);
    }
    if tag == b'D' {
        return read_piece(alloc, source);
    }
    read_end(source)
}

/// Whether a frame begins with this byte.
fn is_frame_tag(tag: u8) -> bool
    ensures { result ≡ is_frame_tag tag }
{
    tag == b'X' || tag == b'E' || tag == b'D' || tag == b'Z'
}

/// Reads the first byte of a frame.
fn read_frame_tag<S: Source>(source: &mut S) -> Result<u8, ReadStreamFault>
    requires sent { S.sent source.old ≡ S.written source.old }
    ensures read { Reads (u8_field IsFrameTag) 0 (λ tag. tag) (S.left source.old) result (S.left source.new) }
    ensures written { S.written source.new ≡ S.written source.old }
    ensures sent { S.sent source.new ≡ S.sent source.old }
    ensures counted { Counted (S.faults source.old) (S.faults source.new) (IsErrOf result ReadStreamFault.ReadFault) }
{
    let tag = read_u8(source)?;
    if !is_frame_tag(tag) {
        return Err(ReadStreamFault::BadStream(0));
    }
    Ok(tag)
}

/// Reads the next frame.
fn read_next_frame<S: Source>(alloc: Global, source: &mut S) -> Result<Frame, ReadStreamFault>
    requires sent { S.sent source.old ≡ S.written source.old }
    ensures read { Reads (frame_layout) 0 (λ frame. frame) (S.left source.old) result (S.left source.new) }
    ensures written { S.written source.new ≡ S.written source.old }
    ensures sent { S.sent source.new ≡ S.sent source.old }
    ensures counted { Counted (S.faults source.old) (S.faults source.new) (IsErrOf result ReadStreamFault.ReadFault) }
{
    let tag = read_frame_tag(source)?;
    match read_behind(alloc, source, tag) {
        Ok(frame) => Ok(frame),
        Err(fault) => Err(fault),
    }
}

/// The frame whose bytes these are, all of them: of `frame_bytes`, and of a path, numbers and texts in their ranges. There is one
/// at most, and none is exactly `None`; or want of memory.
pub fn read_frame(alloc: Global, bytes: &[u8]) -> Result<Option<Frame>, AllocError>
    ensures { IfOk result (λ frame. IsFrameOf bytes.now frame) }
{
    let mut source = Unread::new(bytes);
    match read_next_frame(alloc, &mut source) {
        Ok(frame) => {
            if source.is_empty() {
                return Ok(Some(frame));
            }
            Ok(None)
        }
        Err(ReadStreamFault::BadStream(_)) => Ok(None),
        Err(ReadStreamFault::Ended) => Ok(None),
        Err(ReadStreamFault::ReadFault) => Err(AllocError),
        Err(ReadStreamFault::Memory) => Err(AllocError),
    }
}
