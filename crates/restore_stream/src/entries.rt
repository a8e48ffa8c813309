//! Reads entries and pieces.

ghost use Rattle.std.specs.Prelude.{⊤, ◌≡◌, ◌≤◌, ◌+◌, ◌↔◌, IsTrue, IfOk, IsErrOf};
ghost use Rattle.fault_counts.specs.Counts.{Counted};
ghost use Rattle.restore_stream.specs.Reading.{Reads};
ghost use Rattle.restore_stream.specs.Streams.{u8_field, u32_field, text_field16, IsKind, IsNextPath, IsTarget, attr_layout, file_layout, dir_layout, link_layout, node_layout, entry_layout, piece_layout};

use crate::faults::ReadStreamFault;
use crate::fields::{read_bytes, read_i64, read_text16, read_u8, read_u32, read_u64};
use crate::made::MadeList;
use attr_records::{
    Attr, Dir, Link, LinkTarget, MAX_MODE, MAX_NANOS, PathName, broken_path_rule, is_link_target,
};
use std::alloc::Global;
use stream_traits::{Faults, Source};
use tree_frames::{FileNode, Node};

/// Reads a number of four bytes that is at most this one, in a frame that begins at `start`.
fn read_u32_up_to<S: Source>(
    source: &mut S,
    start: usize,
    most: u32,
) -> Result<u32, ReadStreamFault>
    requires sent { S.sent source.old ≡ S.written source.old }
    ensures read { Reads (u32_field (λ n. n ≤ most)) start (λ n. n) (S.left source.old) result (S.left source.new) }
    ensures most { IfOk result (λ n. n ≤ most) }
    ensures written { S.written source.new ≡ S.written source.old }
    ensures sent { S.sent source.new ≡ S.sent source.old }
    ensures counted { Counted (S.faults source.old) (S.faults source.new) (IsErrOf result ReadStreamFault.ReadFault) }
{
    let n = read_u32(source)?;
    if n > most {
        return Err(ReadStreamFault::BadStream(start));
    }
    Ok(n)
}

/// Reads this number of four bytes and no other.
pub fn read_this_u32<S: Source>(
    source: &mut S,
    start: usize,
    expected: u32,
) -> Result<u32, ReadStreamFault>
    requires sent { S.sent source.old ≡ S.written source.old }
    ensures read { Reads (u32_field (λ n. n ≡ expected)) start (λ n. n) (S.left source.old) result (S.left source.new) }
    ensures written { S.written source.new ≡ S.written source.old }
    ensures sent { S.sent source.new ≡ S.sent source.old }
    ensures counted { Counted (S.faults source.old) (S.faults source.new) (IsErrOf result ReadStreamFault.ReadFault) }
{
    let n = read_u32(source)?;
    if n != expected {
        return Err(ReadStreamFault::BadStream(start));
    }
    Ok(n)
}

/// Reads this byte and no other.
fn read_this_u8<S: Source>(
    source: &mut S,
    start: usize,
    expected: u8,
) -> Result<u8, ReadStreamFault>
    requires sent { S.sent source.old ≡ S.written source.old }
    ensures read { Reads (u8_field (λ n. n ≡ expected)) start (λ n. n) (S.left source.old) result (S.left source.new) }
    ensures written { S.written source.new ≡ S.written source.old }
    ensures sent { S.sent source.new ≡ S.sent source.old }
    ensures counted { Counted (S.faults source.old) (S.faults source.new) (IsErrOf result ReadStreamFault.ReadFault) }
{
    let n = read_u8(source)?;
    if n != expected {
        return Err(ReadStreamFault::BadStream(start));
    }
    Ok(n)
}

/// Reads attributes: mode, uid, gid, mtime, nanos.
fn read_attr<S: Source>(source: &mut S, start: usize) -> Result<Attr, ReadStreamFault>
    requires sent { S.sent source.old ≡ S.written source.old }
    ensures read { Reads attr_layout start (λ attr. attr) (S.left source.old) result (S.left source.new) }
    ensures written { S.written source.new ≡ S.written source.old }
    ensures sent { S.sent source.new ≡ S.sent source.old }
    ensures counted { Counted (S.faults source.old) (S.faults source.new) (IsErrOf result ReadStreamFault.ReadFault) }
{
    let mode = read_u32_up_to(source, start, MAX_MODE as u32)?;
    let uid = read_u32(source)?;
    let gid = read_u32(source)?;
    let mtime = read_i64(source)?;
    let nanos = read_u32_up_to(source, start, MAX_NANOS)?;
    Ok(Attr::new(mode as u16, uid, gid, mtime, nanos))
}

/// Reads what stands behind the path of a File.
fn read_file<S: Source>(source: &mut S, start: usize) -> Result<Node, ReadStreamFault>
    requires sent { S.sent source.old ≡ S.written source.old }
    ensures read { Reads file_layout start (λ node. node) (S.left source.old) result (S.left source.new) }
    ensures written { S.written source.new ≡ S.written source.old }
    ensures sent { S.sent source.new ≡ S.sent source.old }
    ensures counted { Counted (S.faults source.old) (S.faults source.new) (IsErrOf result ReadStreamFault.ReadFault) }
{
    let attr = read_attr(source, start)?;
    let group = read_u32(source)?;
    let size = read_u64(source)?;
    Ok(Node::File(FileNode { attr, group, size }))
}

/// Reads what stands behind the path of a Dir.
fn read_dir<S: Source>(source: &mut S, start: usize) -> Result<Node, ReadStreamFault>
    requires sent { S.sent source.old ≡ S.written source.old }
    ensures read { Reads dir_layout start (λ node. node) (S.left source.old) result (S.left source.new) }
    ensures written { S.written source.new ≡ S.written source.old }
    ensures sent { S.sent source.new ≡ S.sent source.old }
    ensures counted { Counted (S.faults source.old) (S.faults source.new) (IsErrOf result ReadStreamFault.ReadFault) }
{
    let attr = read_attr(source, start)?;
    Ok(Node::Dir(Dir { attr }))
}

/// Reads the target of a link.
fn read_target<S: Source>(
    alloc: Global,
    source: &mut S,
    start: usize,
) -> Result<LinkTarget, ReadStreamFault>
    requires sent { S.sent source.old ≡ S.written source.old }
    ensures read { Reads (text_field16 IsTarget) start (λ target. target) (S.left source.old) result (S.left source.new) }
    ensures written { S.written source.new ≡ S.written source.old }
    ensures sent { S.sent source.new ≡ S.sent source.old }
    ensures counted { Counted (S.faults source.old) (S.faults source.new) (IsErrOf result ReadStreamFault.ReadFault) }
{
    let text = read_text16(alloc, source)?;
    if !is_link_target(text.as_slice()) {
        return Err(ReadStreamFault::BadStream(start));
    }
    match LinkTarget::from_valid(alloc, text.as_slice()) {
        Ok(target) => Ok(target),
        Err(_) => Err(ReadStreamFault::Memory),
    }
}

/// Reads what stands behind the path of a Link.
fn read_link<S: Source>(
    alloc: Global,
    source: &mut S,
    start: usize,
) -> Result<Node, ReadStreamFault>
    requires sent { S.sent source.old ≡ S.written source.old }
    ensures read { Reads link_layout start (λ node. node) (S.left source.old) result (S.left source.new) }
    ensures written { S.written source.new ≡ S.written source.old }
    ensures sent { S.sent source.new ≡ S.sent source.old }
    ensures counted { Counted (S.faults source.old) (S.faults source.new) (IsErrOf result ReadStreamFault.ReadFault) }
{
    let attr = read_attr(source, start)?;
    let target = read_target(alloc, source, start)?;
    Ok(Node::Link(Link { attr, target }))
}

/// Reads what stands behind the path of a node of a kind: 1 File, 2 Dir, 3 Link.
pub fn read_node<S: Source>(
    alloc: Global,
    source: &mut S,
    start: usize,
    kind: u8,
) -> Result<Node, ReadStreamFault>
    requires sent { S.sent source.old ≡ S.written source.old }
    ensures read { Reads (node_layout kind) start (λ node. node) (S.left source.old) result (S.left source.new) }
    ensures written { S.written source.new ≡ S.written source.old }
    ensures sent { S.sent source.new ≡ S.sent source.old }
    ensures counted { Counted (S.faults source.old) (S.faults source.new) (IsErrOf result ReadStreamFault.ReadFault) }
{
    if kind == 1 {
        return read_file(source, start);
    }
    if kind == 2 {
        return read_dir(source, start);
    }
    read_link(alloc, source, start)
}

/// Reads the kind of a node.
pub fn read_kind<S: Source>(source: &mut S, start: usize) -> Result<u8, ReadStreamFault>
    requires sent { S.sent source.old ≡ S.written source.old }
    ensures read { Reads (u8_field IsKind) start (λ kind. kind) (S.left source.old) result (S.left source.new) }
    ensures written { S.written source.new ≡ S.written source.old }
    ensures sent { S.sent source.new ≡ S.sent source.old }
    ensures counted { Counted (S.faults source.old) (S.faults source.new) (IsErrOf result ReadStreamFault.ReadFault) }
{
    let kind = read_u8(source)?;
    if kind == 0 {
        return Err(ReadStreamFault::BadStream(start));
    }
    if kind > 3 {
        return Err(ReadStreamFault::BadStream(start));
    }
    Ok(kind)
}

/// Whether a text is a path that may follow those of a tree.
fn is_next_path(tree: &MadeList, text: &[u8]) -> bool
    ensures { IsTrue result ↔ IsNextPath tree.now text.now }
{
    broken_path_rule(text).is_none() && tree.may_follow(text)
}

/// Reads a path that may follow those of a tree.
fn read_path<S: Source>(
    alloc: Global,
    source: &mut S,
    start: usize,
    tree: &MadeList,
) -> Result<PathName, ReadStreamFault>
    requires sent { S.sent source.old ≡ S.written source.old }
    ensures read { Reads (text_field16 (IsNextPath tree.now)) start (λ path. path) (S.left source.old) result (S.left source.new) }
    ensures written { S.written source.new ≡ S.written source.old }
    ensures sent { S.sent source.new ≡ S.sent source.old }
    ensures counted { Counted (S.faults source.old) (S.faults source.new) (IsErrOf result ReadStreamFault.ReadFault) }
{
    let text = read_text16(alloc, source)?;
    if !is_next_path(tree, text.as_slice()) {
        return Err(ReadStreamFault::BadStream(start));
    }
    match PathName::from_valid(alloc, text.as_slice()) {
        Ok(path) => Ok(path),
        Err(_) => Err(ReadStreamFault::Memory),
    }
}

/// Reads an entry behind its first byte, which may follow the paths of a tree.
pub fn read_entry<S: Source>(
    alloc: Global,
    source: &mut S,
    start: usize,
    tree: &MadeList,
) -> Result<(PathName, Node), ReadStreamFault>
    requires sent { S.sent source.old ≡ S.written source.old }
    ensures read { Reads (entry_layout tree.now) start (λ entry. entry) (S.left source.old) result (S.left source.new) }
    ensures written { S.written source.new ≡ S.written source.old }
    ensures sent { S.sent source.new ≡ S.sent source.old }
    ensures counted { Counted (S.faults source.old) (S.faults source.new) (IsErrOf result ReadStreamFault.ReadFault) }
{
    let kind = read_kind(source, start)?;
    let path = read_path(alloc, source, start, tree)?;
    match read_node(alloc, source, start, kind) {
        Ok(node) => Ok((path, node)),
        Err(fault) => Err(fault),
    }
}

/// Reads a piece of this many bytes.
pub fn read_piece<S: Source>(
    alloc: Global,
    source: &mut S,
    start: usize,
    count: usize,
) -> Result<Vec<u8>, ReadStreamFault>
    requires sent { S.sent source.old ≡ S.written source.old }
    requires few { count ≤ 65536 }
    ensures read { Reads (piece_layout count) start (λ piece. piece.items) (S.left source.old) result (S.left source.new) }
    ensures written { S.written source.new ≡ S.written source.old }
    ensures sent { S.sent source.new ≡ S.sent source.old }
    ensures counted { Counted (S.faults source.old) (S.faults source.new) (IsErrOf result ReadStreamFault.ReadFault) }
{
    read_this_u8(source, start, b'D')?;
    read_this_u32(source, start, count as u32)?;
    match read_bytes(alloc, source, count) {
        Ok(piece) => Ok(piece),
        Err(fault) => Err(fault),
    }
}
