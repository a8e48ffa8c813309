//! Reads the file of a host's counts.

ghost use Rattle.std.specs.Prelude.{◌≡◌, ◌<◌};
ghost use Rattle.std.specs.Int.{w32, w64};
ghost use Rattle.wire_bytes.specs.Kind.{Reads};
ghost use Rattle.wire_bytes.specs.Layout.{number_bytes, IsNumber};
ghost use Rattle.wire_bytes.specs.Grammar.{field, magic, items_of};
ghost use Rattle.wire_bytes.specs.GrammarReading.{ReadsOrBreaks, ReadsSealed};
ghost use Rattle.ref_counts.specs.Faults.{offset_of};
ghost use Rattle.ref_counts.specs.Layout.{item_bytes, IsItem, IsNext};
ghost use Rattle.ref_counts.specs.CountsFile.{counts_grammar};

use crate::counts::Counts;
use crate::fault::CountsFault;
use crate::item::{CountItem, is_after};
use disk_trait::PoolId;
use std::alloc::Global;
use wire_bytes::{FieldFault, Reader};

/// Reads a number, which is at least 1.
fn read_number(reader: &mut Reader) -> Result<u64, FieldFault>
    ensures { Reads (λ number. number) (λ number. IsNumber w64 number × (0 < number)) (number_bytes w64) reader.old result reader.new }
{
    let start = reader.offset();
    match reader.read_u64() {
        Ok(number) if number > 0 => Ok(number),
        Ok(_) => Err(FieldFault::Foreign(start)),
        Err(fault) => Err(fault),
    }
}

/// Reads an item: digest, extension, number.
#[tactic(auto, unfolding(crate::specs::Layout::item_bytes))]
fn read_item(reader: &mut Reader) -> Result<CountItem, FieldFault>
    ensures { Reads (λ item. item) IsItem item_bytes reader.old result reader.new }
{
    let digest = reader.read_digest()?;
    let extension = reader.read_u16()?;
    let number = read_number(reader)?;
    Ok(CountItem::new(PoolId { digest, extension }, number))
}

/// Reads an item that may stand behind others.
fn read_next(reader: &mut Reader, before: &[CountItem]) -> Result<CountItem, CountsFault>
    ensures { ReadsOrBreaks offset_of (λ item. item) (field (IsNext before.now) item_bytes) reader.old result reader.new }
{
    let start = reader.offset();
    let item = match read_item(reader) {
        Ok(item) => item,
        Err(_) => return Err(CountsFault::BadIndex(start)),
    };
    if !is_after(before, item.id()) {
        return Err(CountsFault::BadIndex(start));
    }
    Ok(item)
}

/// Reads this number of items.
fn read_items(alloc: Global, reader: &mut Reader, count: u64) -> Result<Vec<CountItem>, CountsFault>
    ensures { ReadsOrBreaks offset_of (λ items. items.items) (items_of IsNext item_bytes count) reader.old result reader.new }
{
    let mut items = Vec::new(alloc);
    for _i in 0..count {
        let item = read_next(reader, items.as_slice())?;
        items.push(item)?;
    }
    Ok(items)
}

/// Reads bytes that are fixed.
fn read_magic(reader: &mut Reader, bytes: &[u8]) -> Result<(), CountsFault>
    ensures { ReadsOrBreaks offset_of (λ done. done) (magic bytes.now) reader.old result reader.new }
{
    reader.read_magic(bytes)?;
    Ok(())
}

/// Reads the number of the host.
#[tactic(auto, unfolding(wire_bytes::specs::Layout::number_bytes))]
fn read_host(reader: &mut Reader, host: u32) -> Result<(), CountsFault>
    ensures { ReadsOrBreaks offset_of (λ done. done) (magic (number_bytes w32 host)) reader.old result reader.new }
{
    read_magic(reader, &host.to_be_bytes())
}

/// Reads the body of a host's file.
fn read_body(alloc: Global, reader: &mut Reader, host: u32) -> Result<Counts, CountsFault>
    ensures { ReadsOrBreaks offset_of (λ counts. counts) (counts_grammar host) reader.old result reader.new }
{
    read_magic(reader, b"RCT1")?;
    read_host(reader, host)?;
    let count = reader.read_u64()?;
    let items = read_items(alloc, reader, count)?;
    Ok(Counts::from_items(items))
}

/// The counts of a host, by its place in the order of adding, whose file the bytes are. Refused exactly if they are
/// no such file, with the first offset at which they break the layout, or for want of memory.
pub fn read_counts(alloc: Global, host: u32, bytes: &[u8]) -> Result<Counts, CountsFault>
    ensures { ReadsSealed offset_of (λ counts. counts) (counts_grammar host) bytes.now result }
{
    let mut reader = Reader::of_sealed(bytes)?;
    let counts = read_body(alloc, &mut reader, host)?;
    reader.finish()?;
    Ok(counts)
}
