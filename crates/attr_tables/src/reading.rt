//! Reads the rows of a table, without taking memory: what is read lends from the file.

ghost use Rattle.std.specs.Prelude.{◌≡◌, ◌≤◌, IfOk};
ghost use Rattle.std.specs.Int.{w16, w32};
ghost use Rattle.wire_bytes.specs.Kind.{Reads};
ghost use Rattle.wire_bytes.specs.Layout.{number_bytes, text_bytes};
ghost use Rattle.attr_tables.specs.RawRows.{node_of, row_of, IsNodeOf};
ghost use Rattle.attr_tables.specs.Layout.{nanos_bytes, group_bytes, attr_bytes, id_bytes, content_bytes, node_bytes, row_bytes, IsNanos, IsGroup, IsAttr, IsId, IsContent, IsPath, IsTarget, IsNode, IsRow};

use crate::layouts::TableLayout;
use crate::records::{Record, StoredFile};
use crate::rows::Row;
use attr_records::{
    Attr, Dir, Link, LinkTarget, MAX_MODE, MAX_NANOS, PathName, broken_path_rule, is_link_target,
};
use disk_trait::PoolId;
use std::alloc::{AllocError, Global};
use wire_bytes::{FieldFault, Reader};

/// Reads a mode.
fn read_mode(reader: &mut Reader) -> Result<u16, FieldFault>
    ensures { Reads (λ mode. mode) (λ mode. mode ≤ 4095) (number_bytes w32) reader.old result reader.new }
{
    let start = reader.offset();
    let mode = reader.read_u32()?;
    if mode > u32::from(MAX_MODE) {
        return Err(FieldFault::Foreign(start));
    }
    Ok(mode as u16)
}

/// Reads the nanoseconds behind an mtime.
fn read_nanos(reader: &mut Reader, layout: TableLayout) -> Result<u32, FieldFault>
    ensures { Reads (λ nanos. nanos) (IsNanos layout) (nanos_bytes layout) reader.old result reader.new }
{
    match layout {
        TableLayout::First => Ok(0),
        TableLayout::Second => {
            let start = reader.offset();
            let nanos = reader.read_u32()?;
            if nanos > MAX_NANOS {
                return Err(FieldFault::Foreign(start));
            }
            Ok(nanos)
        }
    }
}

/// Reads attributes: mode, uid, gid, mtime, nanos.
#[tactic(auto, unfolding(crate::specs::Layout::attr_bytes))]
fn read_attr(reader: &mut Reader, layout: TableLayout) -> Result<Attr, FieldFault>
    ensures { Reads (λ attr. attr) (IsAttr layout) (attr_bytes layout) reader.old result reader.new }
{
    let mode = read_mode(reader)?;
    let uid = reader.read_u32()?;
    let gid = reader.read_u32()?;
    let mtime = reader.read_i64()?;
    let nanos = read_nanos(reader, layout)?;
    Ok(Attr::new(mode, uid, gid, mtime, nanos))
}

/// Reads the group of a File.
fn read_group(reader: &mut Reader, layout: TableLayout) -> Result<u32, FieldFault>
    ensures { Reads (λ group. group) (IsGroup layout) (group_bytes layout) reader.old result reader.new }
{
    match layout {
        TableLayout::First => Ok(0),
        TableLayout::Second => {
            let group = reader.read_u32()?;
            Ok(group)
        }
    }
}

/// Reads a name in the pool: digest and extension.
fn read_id(reader: &mut Reader) -> Result<PoolId, FieldFault>
    ensures { Reads (λ id. id) IsId id_bytes reader.old result reader.new }
{
    let digest = reader.read_digest()?;
    let extension = reader.read_u16()?;
    Ok(PoolId { digest, extension })
}

/// Reads what stands for a content of a size: nothing for none, or its name in the pool.
fn read_content(reader: &mut Reader, size: u64) -> Result<Option<PoolId>, FieldFault>
    ensures { Reads (λ content. content) (IsContent size) content_bytes reader.old result reader.new }
{
    if size == 0 {
        return Ok(None);
    }
    let id = read_id(reader)?;
    Ok(Some(id))
}

/// A link, with its target as it stands in the file.
#[derive(Drop)]
pub struct RawTarget<'a> {
    attr: Attr,
    target: &'a [u8],
}

/// What stands behind the path of a row.
#[derive(Drop)]
pub enum RawNode<'a> {
    File(StoredFile),
    Dir(Dir),
    Link(RawTarget<'a>),
    Deleted,
}

/// Reads the target of a link.
#[tactic(auto, using(crate::proofs::RowLaws::counted_target))]
fn read_target<'a>(reader: &mut Reader<'a>) -> Result<&'a [u8], FieldFault>
    ensures { Reads (λ target. target.now) IsTarget (text_bytes w16) reader.old result reader.new }
{
    let start = reader.offset();
    let target = reader.read_text16()?;
    if !is_link_target(target) {
        return Err(FieldFault::Foreign(start));
    }
    Ok(target)
}

/// Reads a path.
#[tactic(auto, using(crate::proofs::RowLaws::counted_path))]
fn read_path<'a>(reader: &mut Reader<'a>) -> Result<&'a [u8], FieldFault>
    ensures { Reads (λ path. path.now) IsPath (text_bytes w16) reader.old result reader.new }
{
    let start = reader.offset();
    let path = reader.read_text16()?;
    if broken_path_rule(path).is_some() {
        return Err(FieldFault::Foreign(start));
    }
    Ok(path)
}

/// Reads what stands behind the path of a row of a kind.
fn read_node<'a>(
    reader: &mut Reader<'a>,
    layout: TableLayout,
    kind: u8,
) -> Result<RawNode<'a>, FieldFault>
    ensures { Reads node_of (IsNodeOf layout kind) (node_bytes layout) reader.old result reader.new }
{
    match kind {
        0 => Ok(RawNode::Deleted),
        1 => {
            let attr = read_attr(reader, layout)?;
            let group = read_group(reader, layout)?;
            let size = reader.read_u64()?;
            let content = read_content(reader, size)?;
            Ok(RawNode::File(StoredFile {
                attr,
                group,
                size,
                content,
            }))
        }
        2 => {
            let attr = read_attr(reader, layout)?;
            Ok(RawNode::Dir(Dir { attr }))
        }
        3 => {
            let attr = read_attr(reader, layout)?;
            let target = read_target(reader)?;
            Ok(RawNode::Link(RawTarget { attr, target }))
        }
        _ => Err(FieldFault::Foreign(reader.offset())),
    }
}

/// A row as it stands in the file.
#[derive(Drop)]
pub struct RawRow<'a> {
    path: &'a [u8],
    node: RawNode<'a>,
}

/// Reads a row: kind, path, and what stands behind it.
#[tactic(auto, using(crate::proofs::RowLaws::small_kind), unfolding(crate::specs::Layout::row_bytes))]
pub fn read_row<'a>(reader: &mut Reader<'a>, layout: TableLayout) -> Result<RawRow<'a>, FieldFault>
    ensures { Reads row_of (IsRow layout) (row_bytes layout) reader.old result reader.new }
{
    let kind = reader.read_u8()?;
    let path = read_path(reader)?;
    match read_node(reader, layout, kind) {
        Ok(node) => Ok(RawRow { path, node }),
        Err(fault) => Err(fault),
    }
}

/// The record of what stands behind a path, or want of memory.
fn own_node(alloc: Global, raw: &RawNode) -> Result<Record, AllocError>
    requires { (layout : TableLayout) × IsNode layout (node_of raw.now) }
    ensures { IfOk result (λ node. node ≡ node_of raw.now) }
{
    match raw {
        RawNode::File(file) => Ok(Record::File(*file)),
        RawNode::Dir(dir) => Ok(Record::Dir(*dir)),
        RawNode::Link(link) => Ok(Record::Link(Link {
            attr: link.attr,
            target: LinkTarget::from_valid(alloc, link.target)?,
        })),
        RawNode::Deleted => Ok(Record::Deleted),
    }
}

/// The row that stands in the file, or want of memory.
#[tactic(auto, using(crate::proofs::RowLaws::sound_node))]
pub fn own_row(alloc: Global, raw: &RawRow) -> Result<Row, AllocError>
    requires { (layout : TableLayout) × IsRow layout (row_of raw.now) }
    ensures { IfOk result (λ row. row ≡ row_of raw.now) }
{
    let path = PathName::from_valid(alloc, raw.path)?;
    let node = own_node(alloc, &raw.node)?;
    Ok(Row::new(path, node))
}
