//! The former newest backup of a host.

ghost use Rattle.std.specs.Prelude.{◌≡◌, false, IfOk, IfErr, IsErrOf};
ghost use Rattle.fault_counts.specs.Counts.{Counted};
ghost use Rattle.journal_view.specs.View.{told, Quiet};
ghost use Rattle.disk_trait.specs.declared.ids.FileId.TheVariants.{Table as TableFile};
ghost use Rattle.backup_rules.specs.declared.lines.Line.{Line as LineValue};
ghost use Rattle.store_commits.specs.Former.{dropped_of, IsFolded, IsFoldedLine, IsFoldFault, IsFoldFaultOf};

use attr_tables::Table;
use backup_index::HostIndex;
use backup_rules::{Line, fill_rule};
use backup_views::read_entries;
use disk_trait::Disk;
use intent_journal::Journal;
use merge_view::reverse;
use office_model::Refusal;
use std::alloc::Global;
use store_parts::refusal_of_view;

/// The rows of a backup that isn't filled any more, and the entries that are stored in their place.
#[derive(Debug, Drop)]
pub struct Folding {
    pub number: u32,
    pub rows: Table,
    pub entries: Table,
}

/// The line of the newest backup, if it doesn't stay filled behind a newer one.
pub(crate) fn dropped_line(index: &HostIndex) -> Option<Line>
    ensures { result ≡ dropped_of index.now.rules index.now.lines }
{
    let lines = index.lines().lines();
    if lines.is_empty() {
        return None;
    }
    let line = lines[lines.len() - 1];
    if fill_rule(&line, index.rules()) {
        None
    } else {
        Some(line)
    }
}

/// The rows of a backup that isn't filled any more, out of its table, and the entries that differ from a newer tree. After Ok the
/// table was there in its grammar, whatever else the disk has; `Damaged` names it if it wasn't, with what was found of it. A
/// refusal changes nothing.
fn fold<D: Disk>(
    alloc: Global,
    journal: &mut Journal<D>,
    host: u32,
    number: u32,
    newer: &Table,
) -> Result<Folding, Refusal>
    requires { journal.old.halted ≡ false }
    ensures folded { IfOk result (λ folding. (line : LineValue) → line.number ≡ number → IsFoldedLine (told journal.old) host line newer.now folding) }
    ensures kind { IfErr result (IsFoldFault (told journal.old) (TableFile host number)) }
    ensures quiet { Quiet journal.old journal.new }
    ensures counted { Counted (D.fault_count journal.old.disk) (D.fault_count journal.new.disk) (IsErrOf result Refusal.DiskFault) }
{
    let rows = match read_entries(alloc, journal, host, number) {
        Ok(rows) => rows,
        Err(fault) => return Err(refusal_of_view(fault)),
    };
    let entries = reverse(alloc, &rows, newer)?;
    Ok(Folding {
        number,
        rows,
        entries,
    })
}

/// The same of the newest backup's line, if it is one that isn't filled any more.
pub(crate) fn fold_former<D: Disk>(
    alloc: Global,
    journal: &mut Journal<D>,
    host: u32,
    dropped: Option<Line>,
    newer: &Table,
) -> Result<Option<Folding>, Refusal>
    requires { journal.old.halted ≡ false }
    ensures folded { IfOk result (IsFolded (told journal.old) host dropped newer.now) }
    ensures kind { IfErr result (IsFoldFaultOf (told journal.old) host dropped) }
    ensures quiet { Quiet journal.old journal.new }
    ensures counted { Counted (D.fault_count journal.old.disk) (D.fault_count journal.new.disk) (IsErrOf result Refusal.DiskFault) }
{
    match dropped {
        None => Ok(None),
        Some(line) => match fold(alloc, journal, host, line.number, newer) {
            Ok(folding) => Ok(Some(folding)),
            Err(refusal) => Err(refusal),
        },
    }
}
