//! What a dump begins with.

ghost use Rattle.std.specs.Prelude.{◌≡◌, ◌<◌, Some, false, length, slice_get, IfOk, IfErr, Err};
ghost use Rattle.fault_counts.specs.Counts.{Counted};
ghost use Rattle.backup_index.specs.Index.{Index};
ghost use Rattle.journal_view.specs.View.{told};
ghost use Rattle.store_parts.specs.Refusals.{IsReadFault};
ghost use Rattle.store_parts.specs.Runs.{Reads};
ghost use Rattle.store_dumps.specs.Base.{has_base, BeginsWith, TellsBase, IsBaseFault, IsFaultOf};

use attr_tables::Table;
use backup_rules::{Kind, Line};
use backup_views::read_tree;
use disk_trait::Disk;
use office_model::Refusal;
use pool_name::Namer;
use shared_tables::SharedTable;
use std::alloc::Global;
use store_parts::{StoreParts, refusal_of_view};

/// What a dump begins with.
#[derive(Drop)]
pub(crate) struct Begun {
    /// The rows of its tree.
    pub(crate) rows: Table,
    /// What its puts are compared with first, beside those rows.
    pub(crate) hint: Option<SharedTable>,
}

/// Whether a host whose backups have these lines has what a dump of this kind begins with.
pub(crate) fn has_base(kind: Kind, lines: &[Line]) -> bool
    ensures { result ≡ has_base kind lines.now }
{
    match kind {
        Kind::Full => true,
        Kind::Incr => lines.last().is_some(),
    }
}

/// The tree of a host's newest backup, which is filled: its table. The empty tree if the host has none. A refusal changes
/// nothing: `Damaged` names that table, which is absent or in no table's grammar, with what was found of it.
fn newest_tree<D: Disk, N: Namer>(
    parts: &mut StoreParts<D, N>,
    alloc: Global,
    host: usize,
) -> Result<Table, Refusal>
    requires ready { parts.old.journal.halted ≡ false }
    requires host { host < length parts.old.catalog.hosts }
    ensures reads { Reads parts.old parts.new }
    ensures base { IfOk result (λ rows. BeginsWith parts.new host Kind.Incr rows) }
    ensures tells { IfOk result (λ rows. (index : Index) → slice_get parts.old.catalog.hosts host ≡ Some index
        → TellsBase (told parts.old.journal) host Kind.Incr index.lines rows) }
    ensures damaged { IfErr result (IsBaseFault parts.old host) }
    ensures fault { IfErr result (IsReadFault parts.old) }
    ensures counted { Counted (D.fault_count parts.old.journal.disk) (D.fault_count parts.new.journal.disk)
        (result ≡ Err Refusal.DiskFault) }
{
    let newest = match parts.catalog.hosts()[host].lines().lines().last() {
        Some(line) => *line,
        None => return Ok(Table::new(alloc)),
    };
    match read_tree(alloc, &mut parts.journal, host as u32, &[newest]) {
        Ok(rows) => Ok(rows),
        Err(fault) => Err(refusal_of_view(fault)),
    }
}

/// Whether the view that is kept is that of a host's newest backup.
fn is_newest_kept<D: Disk, N: Namer>(parts: &StoreParts<D, N>, host: usize) -> bool
    requires { host < length parts.now.catalog.hosts }
{
    match parts.catalog.hosts()[host].lines().lines().last() {
        Some(line) => parts.views.has(host as u32, line.number),
        None => false,
    }
}

/// What the puts of a full dump are compared with first: the rows of the host's newest backup, shared with the view that is
/// kept if that is its view, else read once for the whole dump. There are none if its table is damaged, or if memory is
/// wanting; only a fault of the disk refuses. It changes nothing.
fn hint_of<D: Disk, N: Namer>(
    parts: &mut StoreParts<D, N>,
    alloc: Global,
    host: usize,
) -> Result<Option<SharedTable>, Refusal>
    requires ready { parts.old.journal.halted ≡ false }
    requires host { host < length parts.old.catalog.hosts }
    ensures reads { Reads parts.old parts.new }
    ensures damaged { IfErr result (IsFaultOf parts.old host Kind.Full) }
    ensures fault { IfErr result (IsReadFault parts.old) }
    ensures counted { Counted (D.fault_count parts.old.journal.disk) (D.fault_count parts.new.journal.disk)
        (result ≡ Err Refusal.DiskFault) }
{
    if is_newest_kept(parts, host) {
        return Ok(parts.views.share());
    }
    match newest_tree(parts, alloc, host) {
        Ok(rows) => Ok(SharedTable::new(alloc, rows).ok()),
        Err(Refusal::DiskFault) => Err(Refusal::DiskFault),
        Err(Refusal::Broken(_)) => Ok(None),
        Err(Refusal::Damaged { .. }) => Ok(None),
        Err(Refusal::Halted) => Ok(None),
        Err(Refusal::Memory) => Ok(None),
    }
}

/// What a full dump begins with: no rows, and a hint.
fn full_base<D: Disk, N: Namer>(
    parts: &mut StoreParts<D, N>,
    alloc: Global,
    host: usize,
) -> Result<Begun, Refusal>
    requires ready { parts.old.journal.halted ≡ false }
    requires host { host < length parts.old.catalog.hosts }
    ensures reads { Reads parts.old parts.new }
    ensures base { IfOk result (λ begun. BeginsWith parts.new host Kind.Full begun.rows) }
    ensures tells { IfOk result (λ begun. (index : Index) → slice_get parts.old.catalog.hosts host ≡ Some index
        → TellsBase (told parts.old.journal) host Kind.Full index.lines begun.rows) }
    ensures damaged { IfErr result (IsFaultOf parts.old host Kind.Full) }
    ensures fault { IfErr result (IsReadFault parts.old) }
    ensures counted { Counted (D.fault_count parts.old.journal.disk) (D.fault_count parts.new.journal.disk)
        (result ≡ Err Refusal.DiskFault) }
{
    match hint_of(parts, alloc, host) {
        Ok(hint) => Ok(Begun {
            rows: Table::new(alloc),
            hint,
        }),
        Err(refusal) => Err(refusal),
    }
}

/// What an incremental begins with: the rows of the host's newest backup.
fn incr_base<D: Disk, N: Namer>(
    parts: &mut StoreParts<D, N>,
    alloc: Global,
    host: usize,
) -> Result<Begun, Refusal>
    requires ready { parts.old.journal.halted ≡ false }
    requires host { host < length parts.old.catalog.hosts }
    ensures reads { Reads parts.old parts.new }
    ensures base { IfOk result (λ begun. BeginsWith parts.new host Kind.Incr begun.rows) }
    ensures tells { IfOk result (λ begun. (index : Index) → slice_get parts.old.catalog.hosts host ≡ Some index
        → TellsBase (told parts.old.journal) host Kind.Incr index.lines begun.rows) }
    ensures damaged { IfErr result (IsFaultOf parts.old host Kind.Incr) }
    ensures fault { IfErr result (IsReadFault parts.old) }
    ensures counted { Counted (D.fault_count parts.old.journal.disk) (D.fault_count parts.new.journal.disk)
        (result ≡ Err Refusal.DiskFault) }
{
    match newest_tree(parts, alloc, host) {
        Ok(rows) => Ok(Begun { rows, hint: None }),
        Err(refusal) => Err(refusal),
    }
}

/// What a dump of a host begins with. A refusal changes nothing.
pub(crate) fn base_of<D: Disk, N: Namer>(
    parts: &mut StoreParts<D, N>,
    alloc: Global,
    host: usize,
    kind: Kind,
) -> Result<Begun, Refusal>
    requires ready { parts.old.journal.halted ≡ false }
    requires host { host < length parts.old.catalog.hosts }
    ensures reads { Reads parts.old parts.new }
    ensures base { IfOk result (λ begun. BeginsWith parts.new host kind begun.rows) }
    ensures tells { IfOk result (λ begun. (index : Index) → slice_get parts.old.catalog.hosts host ≡ Some index
        → TellsBase (told parts.old.journal) host kind index.lines begun.rows) }
    ensures damaged { IfErr result (IsFaultOf parts.old host kind) }
    ensures fault { IfErr result (IsReadFault parts.old) }
    ensures counted { Counted (D.fault_count parts.old.journal.disk) (D.fault_count parts.new.journal.disk)
        (result ≡ Err Refusal.DiskFault) }
{
    match kind {
        Kind::Full => full_base(parts, alloc, host),
        Kind::Incr => incr_base(parts, alloc, host),
    }
}
