//! Reads the file of a table.

ghost use Rattle.std.specs.Prelude.{⊤, ◌≡◌, Some, None};
ghost use Rattle.std.specs.Int.{w32};
ghost use Rattle.wire_bytes.specs.Layout.{IsNumber};
ghost use Rattle.wire_bytes.specs.Grammar.{field, number, items_of};
ghost use Rattle.wire_bytes.specs.GrammarReading.{ReadsOrBreaks, ReadsSealed};
ghost use Rattle.attr_tables.specs.Layout.{row_bytes, magic_of, IsRow, IsNext};
ghost use Rattle.attr_tables.specs.Tables.{table_grammar, offset_of};

use crate::layouts::TableLayout;
use crate::reading::{own_row, read_row};
use crate::rows::Row;
use crate::table::{PushFault, Table};
use std::alloc::{AllocError, Global};
use wire_bytes::{BadSeal, FieldFault, Reader, TrailingBytes};

/// Why a file is no table's, or want of memory.
#[derive(Clone, Copy, Debug, PartialEq, Eq)]
pub enum TableFault {
    /// The file breaks the layout; the offset is that of the first byte of the header's field or of the
    /// row that breaks it, of where a missing row should begin, of the first byte that is too much, or of
    /// the seal, which is judged first: the length less 16, or 0 in a shorter file.
    BadTable(usize),
    /// There was no memory for the table.
    Memory,
}

impl From<FieldFault> for TableFault {
    ghost use Rattle.wire_bytes.specs.GrammarReading.{fault_offset};
    ghost use Rattle.attr_tables.specs.Tables.{offset_of};

    ghost from_gives = { λ fault e. offset_of e ≡ fault_offset fault };

    fn from(fault: FieldFault) -> TableFault {
        match fault {
            FieldFault::Ended(offset) | FieldFault::Foreign(offset) => TableFault::BadTable(offset),
        }
    }
}

impl From<BadSeal> for TableFault {
    ghost use Rattle.attr_tables.specs.Tables.{offset_of};

    ghost from_gives = { λ fault e. offset_of e ≡ Some fault.0 };

    fn from(fault: BadSeal) -> TableFault {
        TableFault::BadTable(fault.0)
    }
}

impl From<TrailingBytes> for TableFault {
    ghost use Rattle.attr_tables.specs.Tables.{offset_of};

    ghost from_gives = { λ fault e. offset_of e ≡ Some fault.0 };

    fn from(fault: TrailingBytes) -> TableFault {
        TableFault::BadTable(fault.0)
    }
}

impl From<AllocError> for TableFault {
    ghost use Rattle.attr_tables.specs.Tables.{offset_of};

    ghost from_gives = { λ _ e. offset_of e ≡ None };

    fn from(_fault: AllocError) -> TableFault {
        TableFault::Memory
    }
}

/// A table, and the layout that it was read in.
#[derive(Debug, Drop)]
pub struct TableFile {
    pub layout: TableLayout,
    pub table: Table,
}

/// Reads the four bytes that tell the layout.
fn read_layout(reader: &mut Reader) -> Result<TableLayout, TableFault>
    ensures { ReadsOrBreaks offset_of (λ layout. layout) (field (λ _. ⊤) magic_of) reader.old result reader.new }
{
    match reader.read_magic(b"RTB2") {
        Ok(()) => Ok(TableLayout::Second),
        Err(_) => {
            reader.read_magic(b"RTB1")?;
            Ok(TableLayout::First)
        }
    }
}

/// The row that stands next, wherever its path stands in the order: its kind, its path, and what stands behind it. Refused
/// exactly where none stands there, as `BadTable` at its first byte, or for want of memory; the reader may then stand behind
/// what was read of it.
pub fn next_row(alloc: Global, reader: &mut Reader, layout: TableLayout) -> Result<Row, TableFault>
    ensures { ReadsOrBreaks offset_of (λ row. row) (field (IsRow layout) (row_bytes layout)) reader.old result reader.new }
{
    let start = reader.offset();
    let raw = match read_row(reader, layout) {
        Ok(raw) => raw,
        Err(_) => return Err(TableFault::BadTable(start)),
    };
    let row = own_row(alloc, &raw)?;
    Ok(row)
}

/// Reads this number of rows.
fn read_rows(
    alloc: Global,
    reader: &mut Reader,
    layout: TableLayout,
    count: u32,
) -> Result<Table, TableFault>
    ensures { ReadsOrBreaks offset_of (λ table. table) (items_of (IsNext layout) (row_bytes layout) count) reader.old result reader.new }
{
    let mut table = Table::new(alloc);
    for _i in 0..count {
        let start = reader.offset();
        let row = next_row(alloc, reader, layout)?;
        match table.push(row) {
            Ok(()) => {}
            Err(PushFault::NotRising) => return Err(TableFault::BadTable(start)),
            Err(PushFault::Memory) => return Err(TableFault::Memory),
        }
    }
    Ok(table)
}

/// Reads the body of a table's file.
fn read_body(alloc: Global, reader: &mut Reader) -> Result<TableFile, TableFault>
    ensures { ReadsOrBreaks offset_of (λ file. file) table_grammar reader.old result reader.new }
{
    let layout = read_layout(reader)?;
    let count = reader.read_u32()?;
    let table = read_rows(alloc, reader, layout, count)?;
    Ok(TableFile { layout, table })
}

/// The table whose file the bytes are, in either layout; refused exactly where they are no table's file, with the
/// first offset at which they break the layout, or for want of memory.
pub fn read_table(alloc: Global, bytes: &[u8]) -> Result<TableFile, TableFault>
    ensures { ReadsSealed offset_of (λ file. file) table_grammar bytes.now result }
{
    let mut reader = Reader::of_sealed(bytes)?;
    let file = read_body(alloc, &mut reader)?;
    reader.finish()?;
    Ok(file)
}
