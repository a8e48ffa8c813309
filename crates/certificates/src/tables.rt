//! Reads ids and tables.

ghost use Rattle.std.specs.Prelude.{◌≡◌, ℕ, List};
ghost use Rattle.wire_bytes.specs.Reading.{Passes};
ghost use Rattle.wire_bytes.specs.Grammar.{field};
ghost use Rattle.certificates.specs.Certificate.{Table};
ghost use Rattle.certificates.specs.Layout.{last_key, AreIds, ids_bytes, table_grammar, IsNextTable, tables_grammar};
ghost use Rattle.certificates.specs.Telling.{ReadsTelling, AreIn, IsTable};

use crate::bytes::{Run, TableBytes};
use crate::order::is_number_after;
use wire_bytes::{FieldFault, Reader};

/// The bytes that a reader went past.
pub(crate) fn passed<'a>(start: &Reader<'a>, end: &Reader<'a>) -> &'a [u8]
    ensures { (bytes : List ℕ) → Passes start.now end.now bytes → result.now ≡ bytes }
{
    let left = start.left();
    let count = end.offset().saturating_sub(start.offset());
    match left.get(..count) {
        Some(bytes) => bytes,
        None => left,
    }
}

/// Reads the ids of a list, behind their number.
pub fn read_ids<'a>(reader: &mut Reader<'a>) -> Result<&'a [[u8; 18]], FieldFault>
    ensures { ReadsTelling (λ ids x. x.now ≡ ids) (field AreIds ids_bytes) reader.old result reader.new }
{
    let start = reader.offset();
    let count = match reader.read_u32() {
        Ok(count) => count as usize,
        Err(_) => return Err(FieldFault::Foreign(start)),
    };
    match reader.read_bytes(count * 18) {
        Ok(bytes) => {
            let (ids, _) = bytes.as_chunks::<18>();
            Ok(ids)
        }
        Err(_) => Err(FieldFault::Foreign(start)),
    }
}

/// Reads a table.
pub fn read_table<'a>(reader: &mut Reader<'a>) -> Result<TableBytes<'a>, FieldFault>
    ensures { ReadsTelling IsTable table_grammar reader.old result reader.new }
{
    let number = match reader.read_u32() {
        Ok(number) => number,
        Err(fault) => return Err(fault),
    };
    match read_ids(reader) {
        Ok(ids) => Ok(TableBytes { number, ids }),
        Err(fault) => Err(fault),
    }
}

/// Reads a table that may stand behind others.
fn read_next_table<'a>(
    reader: &mut Reader<'a>,
    last: Option<u32>,
) -> Result<TableBytes<'a>, FieldFault>
    ensures { (before : List Table) → last ≡ last_key (λ t. t.number) before
        → ReadsTelling IsTable (field (IsNextTable before) table_grammar.print) reader.old result reader.new }
{
    let start = reader.offset();
    let table = match read_table(reader) {
        Ok(table) => table,
        Err(_) => return Err(FieldFault::Foreign(start)),
    };
    if !is_number_after(last, table.number) {
        return Err(FieldFault::Foreign(start));
    }
    Ok(table)
}

/// Reads tables, behind their number.
pub(crate) fn read_tables<'a>(reader: &mut Reader<'a>) -> Result<Run<'a>, FieldFault>
    ensures { ReadsTelling (AreIn table_grammar.print) tables_grammar reader.old result reader.new }
{
    let count = match reader.read_u64() {
        Ok(count) => count,
        Err(fault) => return Err(fault),
    };
    let start = reader.copy();
    let mut last = None;
    for _i in 0..count {
        let table = match read_next_table(reader, last) {
            Ok(table) => table,
            Err(fault) => return Err(fault),
        };
        last = Some(table.number);
    }
    let bytes = passed(&start, reader);
    Ok(Run { count, bytes })
}
