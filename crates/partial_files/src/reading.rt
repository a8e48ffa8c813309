//! Reads the file of a partial dump.

ghost use Rattle.std.specs.Prelude.{⊤, ◌≡◌};
ghost use Rattle.std.specs.Int.{w32};
ghost use Rattle.wire_bytes.specs.Layout.{number_bytes};
ghost use Rattle.wire_bytes.specs.Grammar.{field, magic, items_of};
ghost use Rattle.wire_bytes.specs.GrammarReading.{ReadsOrBreaks, ReadsSealed};
ghost use Rattle.attr_tables.specs.Layout.{row_bytes, IsRow};
ghost use Rattle.backup_rules.specs.Layout.{kind_bytes};
ghost use Rattle.partial_files.specs.Faults.{offset_of};
ghost use Rattle.partial_files.specs.Layout.{IsKept, IsNext};
ghost use Rattle.partial_files.specs.Partials.{partial_grammar};

use crate::fault::PartialFault;
use crate::partial::PartialFile;
use attr_tables::{PushFault, Row, Table, TableLayout, next_row};
use backup_rules::{Kind, read_kind};
use std::alloc::Global;
use wire_bytes::Reader;

/// Reads bytes that are fixed.
fn read_magic(reader: &mut Reader, bytes: &[u8]) -> Result<(), PartialFault>
    ensures { ReadsOrBreaks offset_of (λ done. done) (magic bytes.now) reader.old result reader.new }
{
    reader.read_magic(bytes)?;
    Ok(())
}

/// Reads the number of the host.
#[tactic(auto, unfolding(wire_bytes::specs::Layout::number_bytes))]
fn read_host(reader: &mut Reader, host: u32) -> Result<(), PartialFault>
    ensures { ReadsOrBreaks offset_of (λ done. done) (magic (number_bytes w32 host)) reader.old result reader.new }
{
    read_magic(reader, &host.to_be_bytes())
}

/// Reads the kind of the dump.
fn read_dump_kind(reader: &mut Reader) -> Result<Kind, PartialFault>
    ensures { ReadsOrBreaks offset_of (λ kind. kind) (field (λ _. ⊤) kind_bytes) reader.old result reader.new }
{
    let start = reader.offset();
    match read_kind(reader) {
        Ok(kind) => Ok(kind),
        Err(_) => Err(PartialFault::BadPartial(start)),
    }
}

/// Reads a row that is no deletion mark, wherever its path stands in the order.
fn read_kept(alloc: Global, reader: &mut Reader) -> Result<Row, PartialFault>
    ensures { ReadsOrBreaks offset_of (λ row. row) (field IsKept (row_bytes TableLayout.Second)) reader.old result reader.new }
{
    let start = reader.offset();
    let row = next_row(alloc, reader, TableLayout::Second)?;
    if row.node().is_mark() {
        return Err(PartialFault::BadPartial(start));
    }
    Ok(row)
}

/// Reads this number of rows.
fn read_rows(alloc: Global, reader: &mut Reader, count: u32) -> Result<Table, PartialFault>
    ensures { ReadsOrBreaks offset_of (λ rows. rows) (items_of IsNext (row_bytes TableLayout.Second) count) reader.old result reader.new }
{
    let mut rows = Table::new(alloc);
    for _i in 0..count {
        let start = reader.offset();
        let row = read_kept(alloc, reader)?;
        match rows.push(row) {
            Ok(()) => {}
            Err(PushFault::NotRising) => return Err(PartialFault::BadPartial(start)),
            Err(PushFault::Memory) => return Err(PartialFault::Memory),
        }
    }
    Ok(rows)
}

/// Reads the body of the file of a host's partial dump.
fn read_body(alloc: Global, reader: &mut Reader, host: u32) -> Result<PartialFile, PartialFault>
    ensures { ReadsOrBreaks offset_of (λ file. file) (partial_grammar host) reader.old result reader.new }
{
    read_magic(reader, b"RPD1")?;
    read_host(reader, host)?;
    let kind = read_dump_kind(reader)?;
    let start = reader.read_u64()?;
    let count = reader.read_u32()?;
    let rows = read_rows(alloc, reader, count)?;
    Ok(PartialFile { kind, start, rows })
}

/// The partial dump of a host, by its place in the order of adding, whose file the bytes are. Refused exactly if they
/// are no such file, with the first offset at which they break the layout, or for want of memory.
pub fn read_partial(alloc: Global, bytes: &[u8], host: u32) -> Result<PartialFile, PartialFault>
    ensures { ReadsSealed offset_of (λ file. file) (partial_grammar host) bytes.now result }
{
    let mut reader = Reader::of_sealed(bytes)?;
    let file = read_body(alloc, &mut reader, host)?;
    reader.finish()?;
    Ok(file)
}
