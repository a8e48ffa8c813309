//! Reads a file of the index.

ghost use Rattle.std.specs.Prelude.{◌≡◌};
ghost use Rattle.std.specs.Int.{w64};
ghost use Rattle.wire_bytes.specs.Layout.{number_bytes};
ghost use Rattle.wire_bytes.specs.Grammar.{magic, number};
ghost use Rattle.wire_bytes.specs.GrammarReading.{ReadsOrBreaks, ReadsSealed};
ghost use Rattle.pool_index.specs.Faults.{offset_of};
ghost use Rattle.pool_index.specs.Layout.{index_magic, byte_bytes, is_enough, IsCount, items_grammar, index_grammar};

use crate::fault::IndexFault;
use crate::item::IndexItem;
use crate::reading::read_items;
use std::alloc::Global;
use wire_bytes::Reader;

/// Reads bytes that are fixed.
fn read_magic(reader: &mut Reader, bytes: &[u8]) -> Result<(), IndexFault>
    ensures { ReadsOrBreaks offset_of (λ done. done) (magic bytes.now) reader.old result reader.new }
{
    let start = reader.offset();
    match reader.read_magic(bytes) {
        Ok(()) => Ok(()),
        Err(_) => Err(IndexFault::BadIndex(start)),
    }
}

/// Reads the four bytes that the file begins with.
fn read_name(reader: &mut Reader, byte: Option<u8>) -> Result<(), IndexFault>
    ensures { ReadsOrBreaks offset_of (λ done. done) (magic (index_magic byte)) reader.old result reader.new }
{
    match byte {
        Some(_) => read_magic(reader, b"RPB1"),
        None => read_magic(reader, b"RPI1"),
    }
}

/// Reads the byte whose file it is, if it is that of one.
fn read_byte(reader: &mut Reader, byte: Option<u8>) -> Result<(), IndexFault>
    ensures { ReadsOrBreaks offset_of (λ done. done) (magic (byte_bytes byte)) reader.old result reader.new }
{
    match byte {
        Some(byte) => read_magic(reader, &[byte]),
        None => read_magic(reader, b""),
    }
}

/// Whether a file may have this number of items.
fn is_enough(byte: Option<u8>, count: u64) -> bool
    ensures { result ≡ is_enough byte count }
{
    byte.is_none() || count > 0
}

/// Reads the number of items, of which the file of a byte has at least one.
fn read_count(reader: &mut Reader, byte: Option<u8>) -> Result<u64, IndexFault>
    ensures { ReadsOrBreaks offset_of (λ count. count) (number w64 (IsCount byte)) reader.old result reader.new }
{
    let start = reader.offset();
    let count = match reader.read_u64() {
        Ok(count) => count,
        Err(_) => return Err(IndexFault::BadIndex(start)),
    };
    if !is_enough(byte, count) {
        return Err(IndexFault::BadIndex(start));
    }
    Ok(count)
}

/// Reads the number of items, and the items.
fn read_counted(
    alloc: Global,
    reader: &mut Reader,
    byte: Option<u8>,
) -> Result<Vec<IndexItem>, IndexFault>
    ensures { ReadsOrBreaks offset_of (λ items. items.items) (items_grammar byte) reader.old result reader.new }
{
    let count = match read_count(reader, byte) {
        Ok(count) => count,
        Err(fault) => return Err(fault),
    };
    match read_items(alloc, reader, count, byte) {
        Ok(items) => Ok(items),
        Err(fault) => Err(fault),
    }
}

/// Reads the body of a file.
fn read_body(
    alloc: Global,
    reader: &mut Reader,
    byte: Option<u8>,
) -> Result<Vec<IndexItem>, IndexFault>
    ensures { ReadsOrBreaks offset_of (λ items. items.items) (index_grammar byte) reader.old result reader.new }
{
    match read_name(reader, byte) {
        Ok(()) => {}
        Err(fault) => return Err(fault),
    }
    match read_byte(reader, byte) {
        Ok(()) => {}
        Err(fault) => return Err(fault),
    }
    match read_counted(alloc, reader, byte) {
        Ok(items) => Ok(items),
        Err(fault) => Err(fault),
    }
}

/// The items of the file of a byte, or of the one file of older stores if there is no byte. Refused exactly if the
/// bytes are no such file, with the first offset at which they break the layout, or for want of memory.
pub fn read_index(
    alloc: Global,
    byte: Option<u8>,
    file: &[u8],
) -> Result<Vec<IndexItem>, IndexFault>
    ensures { ReadsSealed offset_of (λ items. items.items) (index_grammar byte) file.now result }
{
    let mut reader = match Reader::of_sealed(file) {
        Ok(reader) => reader,
        Err(fault) => return Err(IndexFault::BadIndex(fault.0)),
    };
    let items = match read_body(alloc, &mut reader, byte) {
        Ok(items) => items,
        Err(fault) => return Err(fault),
    };
    match reader.finish() {
        Ok(()) => Ok(items),
        Err(fault) => Err(IndexFault::BadIndex(fault.0)),
    }
}
