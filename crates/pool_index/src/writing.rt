//! Writes the file of a byte.

ghost use Rattle.std.specs.Prelude.{◌≡◌, ◌++◌, ◌<◌, true, Some, length, IfOk, OnOk};
ghost use Rattle.std.specs.Int.{w64};
ghost use Rattle.std.specs.List.{AllByRecursion};
ghost use Rattle.wire_bytes.specs.Layout.{IsNumber};
ghost use Rattle.wire_bytes.specs.Breaks.{items_bytes};
ghost use Rattle.pool_index.specs.Items.{AreRising, IsId, is_under, IsInRange};
ghost use Rattle.pool_index.specs.Layout.{item_bytes, IsIndex, index_file};

use crate::item::IndexItem;
use std::alloc::{AllocError, Global};
use wire_bytes::{put_bytes, put_flag, put_u16, put_u64, seal};

/// Writes an item: digest, extension, size, mark.
#[tactic(auto, unfolding(crate::specs::Layout::item_bytes))]
fn put_item(out: &mut Vec<u8>, item: IndexItem) -> Result<(), AllocError>
    ensures ok { OnOk result (out.new.items ≡ out.old.items ++ item_bytes item) }
    ensures range { OnOk result (IsInRange item) }
{
    put_bytes(out, &item.id.digest)?;
    put_u16(out, item.id.extension)?;
    put_u64(out, item.size)?;
    put_flag(out, item.mark)?;
    Ok(())
}

/// Writes items, one behind the other.
fn put_items(out: &mut Vec<u8>, items: &[IndexItem]) -> Result<(), AllocError>
    ensures ok { OnOk result (out.new.items ≡ out.old.items ++ items_bytes item_bytes items.now) }
    ensures range { OnOk result (AllByRecursion IsInRange items.now) }
{
    for item in items {
        put_item(out, *item)?;
    }
    Ok(())
}

/// The file of a byte with these items, which are in order, begin with the byte, and are at least one; or want of
/// memory.
pub fn write_bucket(alloc: Global, byte: u8, items: &[IndexItem]) -> Result<Vec<u8>, AllocError>
    requires some { 0 < length items.now }
    requires rising { AreRising items.now }
    requires under { AllByRecursion (λ item. is_under (Some byte) item.id ≡ true) items.now }
    requires sized { AllByRecursion (λ item. 0 < item.size) items.now }
    ensures file { IfOk result (λ file. file.items ≡ index_file (Some byte) items.now) }
    ensures are { OnOk result (IsIndex (Some byte) items.now) }
{
    let mut out = Vec::new(alloc);
    put_bytes(&mut out, b"RPB1")?;
    put_bytes(&mut out, &[byte])?;
    put_u64(&mut out, items.len() as u64)?;
    put_items(&mut out, items)?;
    let file = seal(out)?;
    Ok(file)
}
