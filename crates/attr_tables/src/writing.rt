//! Writes the file of a table, in the second layout.

ghost use Rattle.std.specs.Prelude.{◌≡◌, ◌≤◌, ◌++◌, OnOk, IfOk};
ghost use Rattle.std.specs.List.{AllByRecursion};
ghost use Rattle.attr_tables.specs.Records.{IsSound, IsContentOf};
ghost use Rattle.wire_bytes.specs.Breaks.{items_bytes};
ghost use Rattle.attr_tables.specs.Layout.{attr_bytes, id_bytes, content_bytes, kind_of, node_bytes, row_bytes, IsAttr, IsId, IsContent, IsNode, IsRow, IsTable};
ghost use Rattle.attr_tables.specs.Tables.{table_file};

use crate::layouts::TableLayout;
use crate::records::{Record, StoredFile};
use crate::rows::Row;
use crate::table::Table;
use attr_records::{Attr, Link};
use disk_trait::{Bytes, PoolId};
use std::alloc::{AllocError, Global};
use wire_bytes::{put_bytes, put_i64, put_text16, put_u8, put_u16, put_u32, put_u64, seal};

/// Writes attributes: mode, uid, gid, mtime, nanos.
#[tactic(auto, unfolding(crate::specs::Layout::attr_bytes))]
fn put_attr(out: &mut Vec<u8>, attr: &Attr) -> Result<(), AllocError>
    ensures ok { OnOk result (out.new.items ≡ out.old.items ++ attr_bytes TableLayout.Second attr.now) }
    ensures fits { OnOk result (IsAttr TableLayout.Second attr.now) }
{
    put_u32(out, u32::from(attr.mode()))?;
    put_u32(out, attr.uid())?;
    put_u32(out, attr.gid())?;
    put_i64(out, attr.mtime())?;
    put_u32(out, attr.nanos())?;
    Ok(())
}

/// Writes a name in the pool: digest and extension.
fn put_id(out: &mut Vec<u8>, id: &PoolId) -> Result<(), AllocError>
    ensures ok { OnOk result (out.new.items ≡ out.old.items ++ id_bytes id.now) }
    ensures fits { OnOk result (IsId id.now) }
{
    put_bytes(out, id.digest.as_slice())?;
    put_u16(out, id.extension)?;
    Ok(())
}

/// Writes what stands for a content: nothing, or its name in the pool.
fn put_content(out: &mut Vec<u8>, size: u64, content: &Option<PoolId>) -> Result<(), AllocError>
    requires { IsContentOf size content.now }
    ensures ok { OnOk result (out.new.items ≡ out.old.items ++ content_bytes content.now) }
    ensures fits { OnOk result (IsContent size content.now) }
{
    match content {
        None => Ok(()),
        Some(id) => {
            put_id(out, id)?;
            Ok(())
        }
    }
}

/// The number of a record's kind.
fn kind_of(node: &Record) -> u8
    ensures value { result ≡ kind_of node.now }
    ensures range { result ≤ 3 }
{
    match node {
        Record::File(_) => 1,
        Record::Dir(_) => 2,
        Record::Link(_) => 3,
        Record::Deleted => 0,
    }
}

/// Writes what stands behind the path of a File.
fn put_file(out: &mut Vec<u8>, file: &StoredFile) -> Result<(), AllocError>
    requires { IsSound (Record.File file.now) }
    ensures ok { OnOk result (out.new.items ≡ out.old.items ++ node_bytes TableLayout.Second (Record.File file.now)) }
    ensures fits { OnOk result (IsNode TableLayout.Second (Record.File file.now)) }
{
    put_attr(out, &file.attr)?;
    put_u32(out, file.group)?;
    put_u64(out, file.size)?;
    put_content(out, file.size, &file.content)?;
    Ok(())
}

/// Writes what stands behind the path of a Link.
fn put_link(out: &mut Vec<u8>, link: &Link) -> Result<(), AllocError>
    ensures ok { OnOk result (out.new.items ≡ out.old.items ++ node_bytes TableLayout.Second (Record.Link link.now)) }
    ensures fits { OnOk result (IsNode TableLayout.Second (Record.Link link.now)) }
{
    put_attr(out, &link.attr)?;
    put_text16(out, link.target.as_slice())?;
    Ok(())
}

/// Writes what stands behind the path.
fn put_node(out: &mut Vec<u8>, node: &Record) -> Result<(), AllocError>
    requires { IsSound node.now }
    ensures ok { OnOk result (out.new.items ≡ out.old.items ++ node_bytes TableLayout.Second node.now) }
    ensures fits { OnOk result (IsNode TableLayout.Second node.now) }
{
    match node {
        Record::File(file) => put_file(out, file),
        Record::Dir(dir) => put_attr(out, &dir.attr),
        Record::Link(link) => put_link(out, link),
        Record::Deleted => Ok(()),
    }
}

/// Writes a row: the kind, the path, and what stands behind it.
#[tactic(auto, unfolding(crate::specs::Layout::row_bytes))]
fn put_row(out: &mut Vec<u8>, row: &Row) -> Result<(), AllocError>
    ensures ok { OnOk result (out.new.items ≡ out.old.items ++ row_bytes TableLayout.Second row.now) }
    ensures fits { OnOk result (IsRow TableLayout.Second row.now) }
{
    let node = row.node();
    put_u8(out, kind_of(node))?;
    put_text16(out, row.path().as_slice())?;
    put_node(out, node)?;
    Ok(())
}

/// Writes rows in the second layout, one behind the other, without their number; or some of them for want of memory.
pub fn put_rows(out: &mut Vec<u8>, rows: &[Row]) -> Result<(), AllocError>
    ensures ok { OnOk result (out.new.items ≡ out.old.items ++ items_bytes (row_bytes TableLayout.Second) rows.now) }
    ensures fits { OnOk result (AllByRecursion (IsRow TableLayout.Second) rows.now) }
{
    for row in rows {
        put_row(out, row)?;
    }
    Ok(())
}

/// The file of a table in the second layout, or want of memory: so answered too for 2^32 rows and more.
#[tactic(auto, unfolding(wire_bytes::specs::Grammar::field, wire_bytes::specs::Grammar::followed_by, wire_bytes::specs::Grammar::seen_as, wire_bytes::specs::Grammar::items_of))]
pub fn write_table(alloc: Global, table: &Table) -> Result<Bytes, AllocError>
    ensures file { IfOk result (λ bytes. bytes ≡ table_file TableLayout.Second table.now) }
    ensures fits { OnOk result (IsTable TableLayout.Second table.now) }
{
    let Ok(count) = u32::try_from(table.len()) else {
        return Err(AllocError);
    };
    let mut body = Vec::new(alloc);
    put_bytes(&mut body, b"RTB2")?;
    put_u32(&mut body, count)?;
    put_rows(&mut body, table.rows())?;
    Ok(Bytes::from_vec(seal(body)?))
}
