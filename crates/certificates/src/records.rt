//! Reads items, and files of the pool.

ghost use Rattle.std.specs.Prelude.{◌≡◌, ℕ, List, map};
ghost use Rattle.wire_bytes.specs.Kind.{Reads};
ghost use Rattle.wire_bytes.specs.Layout.{HasLength};
ghost use Rattle.wire_bytes.specs.Grammar.{field};
ghost use Rattle.certificates.specs.Certificate.{Item, PoolFile};
ghost use Rattle.certificates.specs.Layout.{last_key, one_id_bytes, item_bytes, IsItem, IsNextItem, items_grammar, file_bytes, IsFile, IsNextFile, pool_grammar};
ghost use Rattle.certificates.specs.Telling.{ReadsTelling};
ghost use Rattle.certificates.specs.Records.{the_item, the_file};

use crate::order::is_id_after;
use crate::tables::passed;
use wire_bytes::{FieldFault, Reader};

/// An item as it was read.
#[derive(Clone, Copy, Drop)]
struct ItemRead {
    id: [u8; 18],
    count: u64,
}

/// A file of the pool as it was read.
#[derive(Clone, Copy, Drop)]
struct FileRead {
    id: [u8; 18],
    size: u64,
    found: [u8; 16],
    mark: bool,
}

/// Reads an id.
fn read_id(reader: &mut Reader) -> Result<[u8; 18], FieldFault>
    ensures { Reads (λ id. id) (HasLength 18) one_id_bytes reader.old result reader.new }
{
    let mut id = [0u8; 18];
    id.copy_from_slice(reader.read_bytes(18)?);
    Ok(id)
}

/// Reads an item: id, count.
#[tactic(auto, unfolding(crate::specs::Layout::item_bytes))]
fn read_item(reader: &mut Reader) -> Result<ItemRead, FieldFault>
    ensures { Reads the_item IsItem item_bytes reader.old result reader.new }
{
    let id = read_id(reader)?;
    let count = reader.read_u64()?;
    Ok(ItemRead { id, count })
}

/// Reads an item that may stand behind others.
fn read_next_item(reader: &mut Reader, last: Option<[u8; 18]>) -> Result<[u8; 18], FieldFault>
    ensures { (before : List Item) → last ≡ last_key (λ item. item.id) before
        → ReadsTelling (λ item x. x ≡ item.id) (field (IsNextItem before) item_bytes) reader.old result reader.new }
{
    let start = reader.offset();
    let item = match read_item(reader) {
        Ok(item) => item,
        Err(_) => return Err(FieldFault::Foreign(start)),
    };
    if !is_id_after(last, item.id) {
        return Err(FieldFault::Foreign(start));
    }
    Ok(item.id)
}

/// Reads items, behind their number.
pub(crate) fn read_items<'a>(reader: &mut Reader<'a>) -> Result<&'a [[u8; 26]], FieldFault>
    ensures { ReadsTelling (λ items x. x.now ≡ map item_bytes items) items_grammar reader.old result reader.new }
{
    let count = match reader.read_u64() {
        Ok(count) => count,
        Err(fault) => return Err(fault),
    };
    let start = reader.copy();
    let mut last = None;
    for _i in 0..count {
        let id = match read_next_item(reader, last) {
            Ok(id) => id,
            Err(fault) => return Err(fault),
        };
        last = Some(id);
    }
    let (items, _) = passed(&start, reader).as_chunks::<26>();
    Ok(items)
}

/// Reads a file of the pool: id, size, the digest that was found, mark.
#[tactic(auto, unfolding(crate::specs::Layout::file_bytes))]
fn read_file(reader: &mut Reader) -> Result<FileRead, FieldFault>
    ensures { Reads the_file IsFile file_bytes reader.old result reader.new }
{
    let id = read_id(reader)?;
    let size = reader.read_u64()?;
    let found = reader.read_digest()?;
    let mark = reader.read_flag()?;
    Ok(FileRead {
        id,
        size,
        found,
        mark,
    })
}

/// Reads a file of the pool that may stand behind others.
fn read_next_file(reader: &mut Reader, last: Option<[u8; 18]>) -> Result<[u8; 18], FieldFault>
    ensures { (before : List PoolFile) → last ≡ last_key (λ file. file.id) before
        → ReadsTelling (λ file x. x ≡ file.id) (field (IsNextFile before) file_bytes) reader.old result reader.new }
{
    let start = reader.offset();
    let file = match read_file(reader) {
        Ok(file) => file,
        Err(_) => return Err(FieldFault::Foreign(start)),
    };
    if !is_id_after(last, file.id) {
        return Err(FieldFault::Foreign(start));
    }
    Ok(file.id)
}

/// Reads the files of the pool, behind their number.
pub(crate) fn read_pool<'a>(reader: &mut Reader<'a>) -> Result<&'a [[u8; 43]], FieldFault>
    ensures { ReadsTelling (λ files x. x.now ≡ map file_bytes files) pool_grammar reader.old result reader.new }
{
    let count = match reader.read_u64() {
        Ok(count) => count,
        Err(fault) => return Err(fault),
    };
    let start = reader.copy();
    let mut last = None;
    for _i in 0..count {
        let id = match read_next_file(reader, last) {
            Ok(id) => id,
            Err(fault) => return Err(fault),
        };
        last = Some(id);
    }
    let (files, _) = passed(&start, reader).as_chunks::<43>();
    Ok(files)
}
