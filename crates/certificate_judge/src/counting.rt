//! Counts how often lists name the ids of items.

ghost use Rattle.std.specs.Prelude.{◌≡◌, ◌+◌, ◌≤◌, ◌<◌, ℕ, List, ◌++◌, length, IfSome};
ghost use Rattle.std.specs.List.{AllByRecursion};
ghost use Rattle.wire_bytes.specs.Reading.{left};
ghost use Rattle.certificates.specs.Certificate.{Id, Table, HostPart};
ghost use Rattle.certificates.specs.Layout.{table_grammar, host_grammar};
ghost use Rattle.certificates.specs.Telling.{AreIn, IsHost};
ghost use Rattle.certificate_judge.specs.Faults.{number_of, number_in, occurrences};
ghost use Rattle.certificates.specs.PrintLaws.{AreRising};
ghost use Rattle.certificate_judge.specs.Judging.{AreNumbers, bumped, ids_in};

use crate::finding::find_item;
use certificates::{HostBytes, Run, read_table};
use wire_bytes::Reader;

/// Adds 1 to the counter at a place, if there is one.
fn bump(place: Option<usize>, counters: &mut [u64])
    requires { IfSome place (λ index. index < length counters.old) }
    ensures { counters.new ≡ bumped place counters.old }
{
    if let Some(index) = place {
        counters[index] = counters[index].saturating_add(1);
    }
}

/// Adds how often ids have those of a block among them.
fn count_ids(ids: &[[u8; 18]], block: &[[u8; 26]], counters: &mut [u64])
    requires { length block.now ≤ length counters.old }
    ensures len { length counters.new ≡ length counters.old }
    ensures counted { (numbers : Id → ℕ) → AreRising (ids_in block.now) → AreNumbers numbers (ids_in block.now) counters.old
        → AreNumbers (λ id. numbers id + number_of id ids.now) (ids_in block.now) counters.new }
{
    for id in ids {
        bump(find_item(block, id), counters);
    }
}

/// Reads a table, and adds how often it names the ids of a block.
fn count_next(reader: &mut Reader, block: &[[u8; 26]], counters: &mut [u64])
    requires { length block.now ≤ length counters.old }
    ensures len { length counters.new ≡ length counters.old }
    ensures counted { (numbers : Id → ℕ) (table : Table) (rest : List ℕ) → table_grammar.Fits table → left reader.old ≡ table_grammar.print table ++ rest
        → AreRising (ids_in block.now) → AreNumbers numbers (ids_in block.now) counters.old
        → (left reader.new ≡ rest) × AreNumbers (λ id. numbers id + number_of id table.ids) (ids_in block.now) counters.new }
{
    match read_table(reader) {
        Ok(table) => count_ids(table.ids, block, counters),
        Err(_) => {}
    }
}

/// Adds how often tables name the ids of a block.
fn count_tables(tables: &Run, block: &[[u8; 26]], counters: &mut [u64])
    requires { length block.now ≤ length counters.old }
    ensures len { length counters.new ≡ length counters.old }
    ensures counted { (numbers : Id → ℕ) (ts : List Table) → AreIn table_grammar.print ts tables.now → AllByRecursion table_grammar.Fits ts
        → AreRising (ids_in block.now) → AreNumbers numbers (ids_in block.now) counters.old
        → AreNumbers (λ id. numbers id + number_in id ts) (ids_in block.now) counters.new }
{
    let mut reader = Reader::new(tables.bytes);
    for _i in 0..tables.count {
        count_next(&mut reader, block, counters);
    }
}

/// Counts how often the lists of a host name the ids of a block.
pub(crate) fn count_host(host: &HostBytes, block: &[[u8; 26]], counters: &mut [u64])
    requires { length block.now ≤ length counters.old }
    ensures len { length counters.new ≡ length counters.old }
    ensures counted { (part : HostPart) → IsHost part host.now → host_grammar.Fits part → AreRising (ids_in block.now)
        → AreNumbers (occurrences part) (ids_in block.now) counters.new }
{
    counters.fill(0);
    count_tables(&host.tables, block, counters);
    count_ids(host.partial, block, counters);
}
