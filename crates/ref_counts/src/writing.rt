//! Writes the file of a host's counts.

ghost use Rattle.std.specs.Prelude.{◌≡◌, ◌++◌, IfOk, OnOk};
ghost use Rattle.std.specs.List.{AllByRecursion};
ghost use Rattle.wire_bytes.specs.Breaks.{items_bytes};
ghost use Rattle.ref_counts.specs.Layout.{item_bytes, IsInRange, IsCounts};
ghost use Rattle.ref_counts.specs.CountsFile.{counts_file};

use crate::counts::Counts;
use crate::item::CountItem;
use std::alloc::{AllocError, Global};
use wire_bytes::{put_bytes, put_u16, put_u32, put_u64, seal};

/// Writes an item: digest, extension, number.
#[tactic(auto, unfolding(crate::specs::Layout::item_bytes))]
fn put_item(out: &mut Vec<u8>, item: &CountItem) -> Result<(), AllocError>
    ensures ok { OnOk result (out.new.items ≡ out.old.items ++ item_bytes item.now) }
    ensures range { OnOk result (IsInRange item.now) }
{
    let id = item.id();
    let number = item.number();
    put_bytes(out, &id.digest)?;
    put_u16(out, id.extension)?;
    put_u64(out, number)?;
    Ok(())
}

/// Writes items, one behind the other.
fn put_items(out: &mut Vec<u8>, items: &[CountItem]) -> Result<(), AllocError>
    ensures ok { OnOk result (out.new.items ≡ out.old.items ++ items_bytes item_bytes items.now) }
    ensures range { OnOk result (AllByRecursion IsInRange items.now) }
{
    for item in items {
        put_item(out, item)?;
    }
    Ok(())
}

/// The file of the counts of a host, by its place in the order of adding, or want of memory.
pub fn write_counts(alloc: Global, host: u32, counts: &Counts) -> Result<Vec<u8>, AllocError>
    ensures file { IfOk result (λ file. file.items ≡ counts_file host counts.now) }
    ensures are { OnOk result (IsCounts counts.now) }
{
    let mut out = Vec::new(alloc);
    put_bytes(&mut out, b"RCT1")?;
    put_u32(&mut out, host)?;
    let all = counts.items();
    put_u64(&mut out, all.len() as u64)?;
    put_items(&mut out, all)?;
    let file = seal(out)?;
    Ok(file)
}
