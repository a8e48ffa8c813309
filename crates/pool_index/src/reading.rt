//! Reads the items of the index.

ghost use Rattle.std.specs.Prelude.{◌≡◌, ◌<◌, ℕ, Option, length, Some, None};
ghost use Rattle.std.specs.Int.{w64};
ghost use Rattle.wire_bytes.specs.Kind.{Reads};
ghost use Rattle.wire_bytes.specs.Layout.{number_bytes, IsNumber};
ghost use Rattle.wire_bytes.specs.Grammar.{field, items_of};
ghost use Rattle.wire_bytes.specs.GrammarReading.{ReadsOrBreaks};
ghost use Rattle.pool_index.specs.Items.{is_next, is_under, IsItem, IsNextItem};
ghost use Rattle.pool_index.specs.Layout.{item_bytes};
ghost use Rattle.pool_index.specs.Faults.{offset_of};

use crate::fault::IndexFault;
use crate::item::{IndexItem, is_behind};
use disk_trait::PoolId;
use std::alloc::Global;
use wire_bytes::{FieldFault, Reader};

/// Reads a size, which is at least 1.
fn read_size(reader: &mut Reader) -> Result<u64, FieldFault>
    ensures { Reads (λ size. size) (λ size. IsNumber w64 size × (0 < size)) (number_bytes w64) reader.old result reader.new }
{
    let start = reader.offset();
    match reader.read_u64() {
        Ok(size) if size > 0 => Ok(size),
        Ok(_) => Err(FieldFault::Foreign(start)),
        Err(fault) => Err(fault),
    }
}

/// Reads an item: digest, extension, size, mark.
#[tactic(auto, unfolding(crate::specs::Layout::item_bytes))]
fn read_item(reader: &mut Reader) -> Result<IndexItem, FieldFault>
    ensures { Reads (λ item. item) IsItem item_bytes reader.old result reader.new }
{
    let digest = reader.read_digest()?;
    let extension = reader.read_u16()?;
    let size = read_size(reader)?;
    let mark = reader.read_flag()?;
    let id = PoolId { digest, extension };
    Ok(IndexItem { id, size, mark })
}

/// Whether an id is one of the byte, or of any where none is asked for.
fn is_under(byte: Option<u8>, id: PoolId) -> bool
    ensures { result ≡ is_under byte id }
{
    match byte {
        Some(byte) => id.digest[0] == byte,
        None => true,
    }
}

/// Whether an id may stand behind items.
fn is_next(byte: Option<u8>, before: &[IndexItem], id: PoolId) -> bool
    ensures { result ≡ is_next byte before.now id }
{
    is_behind(before, id) && is_under(byte, id)
}

/// Reads an item that may stand behind others.
fn read_next(
    reader: &mut Reader,
    before: &[IndexItem],
    byte: Option<u8>,
) -> Result<IndexItem, IndexFault>
    ensures { ReadsOrBreaks offset_of (λ item. item) (field (IsNextItem byte before.now) item_bytes) reader.old result reader.new }
{
    let start = reader.offset();
    let item = match read_item(reader) {
        Ok(item) => item,
        Err(_) => return Err(IndexFault::BadIndex(start)),
    };
    if !is_next(byte, before, item.id) {
        return Err(IndexFault::BadIndex(start));
    }
    Ok(item)
}

/// Reads this number of items.
pub(crate) fn read_items(
    alloc: Global,
    reader: &mut Reader,
    count: u64,
    byte: Option<u8>,
) -> Result<Vec<IndexItem>, IndexFault>
    ensures { ReadsOrBreaks offset_of (λ items. items.items) (items_of (IsNextItem byte) item_bytes count) reader.old result reader.new }
{
    let mut items = Vec::new(alloc);
    for _i in 0..count {
        let item = match read_next(reader, items.as_slice(), byte) {
            Ok(item) => item,
            Err(fault) => return Err(fault),
        };
        items.push(item)?;
    }
    Ok(items)
}
