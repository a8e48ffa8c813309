//! Counts the ids that tables name.

ghost use Rattle.std.specs.Prelude.{◌≡◌, ◌+◌, ◌-◌, ◌<◌, ◌↔◌, [], ℕ, List, IfOk, OnOk, if◌then◌else◌};
ghost use Rattle.disk_trait.specs.declared.ids.PoolId.{PoolId};
ghost use Rattle.ordered_lists.specs.Order.{IsInOrder};
ghost use Rattle.pool_index.specs.Items.{id_cmp};
ghost use Rattle.attr_tables.specs.Records.{is_same_id};
ghost use Rattle.stored_trees.specs.Occurrences.{names, occurrences};
ghost use Rattle.ref_counts.specs.Numbers.{AreSome, number, total, capped};
ghost use Rattle.ref_counts.specs.Stored.{StoredHost, counted, AreWhole, IsNamedIn};

use crate::counts::{Counts, add, take};
use crate::item::CountItem;
use attr_tables::{Record, Row, Table};
use disk_trait::PoolId;
use std::alloc::{AllocError, Global};
use std::collections::BTreeMap;
use std::marker::Model;

/// One more of an id, or want of memory.
fn count_id(numbers: &mut BTreeMap<PoolId, u64>, id: PoolId) -> Result<(), AllocError>
    ensures number { OnOk result ((other : PoolId) (n : ℕ) → number numbers.old.entries other ≡ capped n
        → number numbers.new.entries other ≡ capped (n + (if is_same_id id other then 1 else 0))) }
    ensures some { AreSome numbers.old.entries → AreSome numbers.new.entries }
{
    let before = numbers.get(&id).copied().unwrap_or(0);
    numbers.insert(id, before.saturating_add(1))?;
    Ok(())
}

/// One more of the id that a record names, if it names one, or want of memory.
fn count_record(numbers: &mut BTreeMap<PoolId, u64>, node: &Record) -> Result<(), AllocError>
    ensures number { OnOk result ((id : PoolId) (n : ℕ) → number numbers.old.entries id ≡ capped n
        → number numbers.new.entries id ≡ capped (n + (if names id node.now then 1 else 0))) }
    ensures some { AreSome numbers.old.entries → AreSome numbers.new.entries }
{
    match node {
        Record::File(file) => match file.content {
            Some(id) => count_id(numbers, id),
            None => Ok(()),
        },
        _ => Ok(()),
    }
}

/// One more for each row of the id that it names, or want of memory.
fn count_rows(numbers: &mut BTreeMap<PoolId, u64>, rows: &[Row]) -> Result<(), AllocError>
    ensures number { OnOk result ((id : PoolId) (n : ℕ) → number numbers.old.entries id ≡ capped n
        → number numbers.new.entries id ≡ capped (n + occurrences id rows.now)) }
    ensures some { AreSome numbers.old.entries → AreSome numbers.new.entries }
{
    for row in rows {
        count_record(numbers, row.node())?;
    }
    Ok(())
}

/// The entries of a map in a list, or want of memory.
fn listed(alloc: Global, numbers: &BTreeMap<PoolId, u64>) -> Result<Vec<CountItem>, AllocError>
    ensures items { IfOk result (λ items. items.items ≡ numbers.now.entries) }
    ensures in_order { OnOk result (IsInOrder id_cmp numbers.now.entries) }
{
    let mut items = Vec::new(alloc);
    for (id, number) in numbers.iter() {
        items.push(CountItem::new(*id, *number))?;
    }
    Ok(items)
}

/// How often the tables that were counted name each id.
#[derive(Drop)]
pub struct Tally {
    numbers: BTreeMap<PoolId, u64>,
}

impl Model for Tally {
    ghost use Rattle.std.specs.Prelude.{List, ℕ};
    ghost use Rattle.disk_trait.specs.declared.ids.PoolId.{PoolId};
    ghost use Rattle.ref_counts.specs.Numbers.{AreSome};

    ghost Value = { List (PoolId × ℕ) };

    ghost view = { λ t. t.numbers.entries };

    ghost invariant = { λ t. AreSome t.numbers.entries };
}

impl Tally {
    /// Nothing is counted yet; takes no memory.
    pub fn new(alloc: Global) -> Tally
        ensures { result ≡ [] }
    {
        Tally {
            numbers: BTreeMap::new(alloc),
        }
    }

    /// Counts a table too, or says that memory is wanting; a number that would pass 2^64 - 1 stays at it.
    pub fn count(&mut self, table: &Table) -> Result<(), AllocError>
        ensures { OnOk result ((id : PoolId) (n : ℕ) → number self.old id ≡ capped n → number self.new id ≡ capped (n + occurrences id table.now)) }
    {
        count_rows(&mut self.numbers, table.rows())
    }

    /// The counts of all that was counted, or want of memory.
    pub fn counts(&self, alloc: Global) -> Result<Counts, AllocError>
        ensures { IfOk result (λ counts. counts ≡ self.now) }
    {
        let items = listed(alloc, &self.numbers)?;
        Ok(Counts::from_items(items))
    }
}

/// How often tables name each id, or want of memory; a number that would pass 2^64 - 1 stays at it. One pass over
/// them.
pub fn count_tables(alloc: Global, tables: &[Table]) -> Result<Counts, AllocError>
    ensures { IfOk result (λ counts. (id : PoolId) → number counts id ≡ capped (total id tables.now)) }
{
    let mut tally = Tally::new(alloc);
    for table in tables {
        tally.count(table)?;
    }
    let counts = tally.counts(alloc)?;
    Ok(counts)
}

/// How often a table names each id, or want of memory; a number that would pass 2^64 - 1 stays at it.
fn count_table(alloc: Global, table: &Table) -> Result<Counts, AllocError>
    ensures { IfOk result (λ counts. (id : PoolId) → number counts id ≡ capped (occurrences id table.now)) }
{
    let mut tally = Tally::new(alloc);
    tally.count(table)?;
    let counts = tally.counts(alloc)?;
    Ok(counts)
}

/// The counts with those of a further table, or want of memory. A number that would pass 2^64 - 1 stays at it.
pub fn add_table(alloc: Global, counts: &Counts, table: &Table) -> Result<Counts, AllocError>
    ensures { IfOk result (λ sum. (id : PoolId) → number sum id ≡ capped (number counts.now id + capped (occurrences id table.now))) }
{
    let more = count_table(alloc, table)?;
    let sum = add(alloc, counts, &more)?;
    Ok(sum)
}

/// The counts without those of a table, or want of memory. Of a number that is smaller than what is taken, nothing is left.
pub fn take_table(alloc: Global, counts: &Counts, table: &Table) -> Result<Counts, AllocError>
    ensures { IfOk result (λ rest. (id : PoolId) → number rest id ≡ number counts.now id - capped (occurrences id table.now)) }
{
    let less = count_table(alloc, table)?;
    let rest = take(alloc, counts, &less)?;
    Ok(rest)
}

/// The counts of a host whose tables these are, or want of memory. If they are what is counted of a host, an id has
/// a number above 0 exactly if the tree of a backup or of the partial names it.
pub fn recount(alloc: Global, tables: &[Table]) -> Result<Counts, AllocError>
    ensures number { IfOk result (λ counts. (id : PoolId) → number counts id ≡ capped (total id tables.now)) }
    ensures bridge { IfOk result (λ counts. (host : StoredHost) → AreWhole host.backups → tables.now ≡ counted host
        → (id : PoolId) → (0 < number counts id) ↔ IsNamedIn id host) }
{
    let counts = count_tables(alloc, tables)?;
    Ok(counts)
}
