//! Notes the fields that don't hold.

ghost use Rattle.std.specs.Prelude.{◌≡◌, ◌+◌, ◌*◌, ◌≤◌, ◌<◌, ◌^◌, ℕ, List, ◌++◌, ◌||◌, length, map};
ghost use Rattle.std.specs.List.{AllByRecursion};
ghost use Rattle.wire_bytes.specs.Reading.{left};
ghost use Rattle.certificates.specs.Certificate.{Id, Table, Item, PoolFile};
ghost use Rattle.certificates.specs.Layout.{table_grammar, item_bytes, IsItem, file_bytes, IsFile};
ghost use Rattle.certificates.specs.Telling.{AreIn};
ghost use Rattle.certificate_judge.specs.Faults.{is_miscounted, is_misfound, wrong, tables_faults};
ghost use Rattle.certificate_judge.specs.Judging.{IsTally, AreKnown, is_unknown_in, AreNumbers, ids_in};

use crate::finding::{find_file, find_item};
use crate::tally::Tally;
use certificates::{Run, read_table};
use wire_bytes::Reader;

/// What ids are known: those of a host's items, and those of the pool.
#[derive(Clone, Copy, Drop)]
pub(crate) struct Known<'a> {
    pub(crate) items: &'a [[u8; 26]],
    pub(crate) pool: &'a [[u8; 43]],
}

/// Whether one of two things holds.
fn either(one: bool, other: bool) -> bool
    ensures { result ≡ (one || other) }
{
    one || other
}

/// Whether an id has no item, or no file.
fn is_unknown(known: &Known, id: &[u8; 18]) -> bool
    ensures { AreKnown known.now → result ≡ is_unknown_in known.now id.now }
{
    let no_item = find_item(known.items, id).is_none();
    let no_file = find_file(known.pool, id).is_none();
    either(no_item, no_file)
}

/// Notes the ids of a list that aren't known.
pub(crate) fn note_ids(ids: &[[u8; 18]], at: usize, known: &Known, tally: Tally) -> Tally
    ensures { (offsets : List ℕ) → AreKnown known.now → at + 18 * length ids.now < 2 ^ 64 → IsTally offsets tally
        → IsTally (offsets ++ wrong (is_unknown_in known.now) 18 at ids.now) result }
{
    let mut now = tally;
    let mut here = at;
    for id in ids {
        now = now.and_if(is_unknown(known, id), here);
        here = here.saturating_add(18);
    }
    now
}

/// Reads a table, of tables that stand at an offset, and notes its ids that aren't known.
fn note_next(reader: &mut Reader, at: usize, known: &Known, tally: Tally) -> Tally
    ensures { (offsets : List ℕ) (table : Table) (rest : List ℕ) → AreKnown known.now → table_grammar.Fits table
        → left reader.old ≡ table_grammar.print table ++ rest → at + reader.old.offset + length (table_grammar.print table) < 2 ^ 64
        → IsTally offsets tally
        → (left reader.new ≡ rest) × (reader.new.offset ≡ reader.old.offset + length (table_grammar.print table))
        × IsTally (offsets ++ wrong (is_unknown_in known.now) 18 (at + reader.old.offset + 8) table.ids) result }
{
    let ids_at = at.saturating_add(reader.offset()).saturating_add(8);
    match read_table(reader) {
        Ok(table) => note_ids(table.ids, ids_at, known, tally),
        Err(_) => tally,
    }
}

/// Notes the ids of tables that aren't known.
pub(crate) fn note_tables(tables: &Run, at: usize, known: &Known, tally: Tally) -> Tally
    ensures { (offsets : List ℕ) (ts : List Table) → AreKnown known.now → AreIn table_grammar.print ts tables.now
        → AllByRecursion table_grammar.Fits ts → at + length tables.now.bytes.now < 2 ^ 64 → IsTally offsets tally
        → IsTally (offsets ++ tables_faults (is_unknown_in known.now) at ts) result }
{
    let mut reader = Reader::new(tables.bytes);
    let mut now = tally;
    for _i in 0..tables.count {
        now = note_next(&mut reader, at, known, now);
    }
    now
}

/// The count of an item.
fn count_of(item: &[u8; 26]) -> u64
    ensures { (it : Item) → IsItem it → item.now ≡ item_bytes it → result ≡ it.count }
{
    let mut bytes = [0u8; 8];
    bytes.copy_from_slice(&item[18..]);
    u64::from_be_bytes(bytes)
}

/// Notes the items of a block whose counts aren't what counters hold.
pub(crate) fn note_items(block: &[[u8; 26]], at: usize, counters: &[u64], tally: Tally) -> Tally
    requires { length block.now ≤ length counters.now }
    ensures { (offsets : List ℕ) (items : List Item) (numbers : Id → ℕ) → block.now ≡ map item_bytes items → AllByRecursion IsItem items
        → AreNumbers numbers (ids_in block.now) counters.now → ((id : Id) → numbers id < 2 ^ 64) → at + 26 * length items < 2 ^ 64
        → IsTally offsets tally → IsTally (offsets ++ wrong (is_miscounted numbers) 26 at items) result }
{
    let mut now = tally;
    let mut here = at;
    for i in 0..block.len() {
        now = now.and_if(count_of(&block[i]) != counters[i], here);
        here = here.saturating_add(26);
    }
    now
}

/// Whether another digest was found in a file than it is named by.
fn is_misfound(file: &[u8; 43]) -> bool
    ensures { (it : PoolFile) → IsFile it → file.now ≡ file_bytes it → result ≡ is_misfound it }
{
    file[..16] != file[26..42]
}

/// Notes the files of the pool, which stand at an offset, in which another digest was found than they are named by.
pub(crate) fn note_files(files: &[[u8; 43]], at: usize, tally: Tally) -> Tally
    ensures { (offsets : List ℕ) (its : List PoolFile) → files.now ≡ map file_bytes its → AllByRecursion IsFile its → at + 43 * length its < 2 ^ 64
        → IsTally offsets tally → IsTally (offsets ++ wrong is_misfound 43 (at + 26) its) result }
{
    let mut now = tally;
    let mut here = at;
    for file in files {
        now = now.and_if(is_misfound(file), here.saturating_add(26));
        here = here.saturating_add(43);
    }
    now
}
