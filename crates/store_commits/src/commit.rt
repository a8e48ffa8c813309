//! An open dump becomes its host's next backup.

ghost use Rattle.std.specs.Prelude.{◌≡◌, ◌≤◌, ◌<◌, true, false, Some, length, IfOk, IfErr, IsErrOf, slice_get};
ghost use Rattle.fault_counts.specs.Counts.{Counted};
ghost use Rattle.journal_view.specs.View.{told, Quiet};
ghost use Rattle.backup_index.specs.Index.{Index};
ghost use Rattle.open_sessions.specs.declared.sessions.OpenDump.{OpenDump};
ghost use Rattle.store_commits.specs.Judged.{IsFree};
ghost use Rattle.store_commits.specs.Planned.{IsPlanned, IsPlanFault};
ghost use Rattle.store_commits.specs.Tables.{IsTableFor, IsParkedFor, Heeds};

use crate::build::build;
use crate::gather::gather;
use crate::judge::judge;
use crate::plan::Plan;
use backup_rules::Line;
use disk_trait::Disk;
use office_model::Refusal;
use pool_name::Namer;
use std::alloc::Global;
use store_parts::StoreParts;

/// Plans the commit of the open dump at a place as the backup of this line, whose number isn't below its host's next one. The table of the former newest backup is read, if it doesn't stay filled, and the
/// host's partial, if one is known; nothing changes. After Ok these were there in their grammar, whatever else the disk has; `Damaged`
/// names one that wasn't, with what was found of it.
pub fn plan_commit<D: Disk, N: Namer>(
    parts: &mut StoreParts<D, N>,
    alloc: Global,
    at: usize,
    line: Line,
) -> Result<Plan, Refusal>
    requires ready { parts.old.journal.halted ≡ false }
    requires within { at < length parts.old.sessions.dumps.items }
    requires free { (session : OpenDump) → slice_get parts.old.sessions.dumps.items at ≡ Some session
        → (index : Index) → slice_get parts.old.catalog.hosts session.host ≡ Some index → index.next ≤ line.number }
    requires filled { line.filled ≡ true }
    ensures planned { IfOk result (λ plan. (session : OpenDump) → slice_get parts.old.sessions.dumps.items at ≡ Some session
        → IsPlanned parts.old session line plan) }
    ensures refused { IfErr result (λ refusal. (session : OpenDump) → slice_get parts.old.sessions.dumps.items at ≡ Some session
        → IsPlanFault parts.old session refusal) }
    ensures tables { (session : OpenDump) → slice_get parts.old.sessions.dumps.items at ≡ Some session
        → Heeds (told parts.old.journal) (IsTableFor (λ next. IsFree next line.number) parts.old session)
        (IsParkedFor (λ next. IsFree next line.number) parts.old session) result }
    ensures quiet { Quiet parts.old.journal parts.new.journal }
    ensures others { parts.new ≡ record parts.old { journal = parts.new.journal } }
    ensures counted { Counted (D.fault_count parts.old.journal.disk) (D.fault_count parts.new.journal.disk) (IsErrOf result Refusal.DiskFault) }
{
    let dump = &parts.sessions.dumps[at];
    let host = dump.host;
    let lines = match judge(parts, dump, line) {
        Ok(lines) => lines,
        Err(rule) => return Err(Refusal::Broken(rule)),
    };
    let rows = match dump.tree.tree(alloc) {
        Ok(rows) => rows,
        Err(_) => return Err(Refusal::Memory),
    };
    let head = parts.partials.of_host(host);
    let gathered = match gather(
        alloc,
        &mut parts.journal,
        &parts.counts,
        host,
        head,
        lines,
        &rows,
    ) {
        Ok(gathered) => gathered,
        Err(refusal) => return Err(refusal),
    };
    match build(parts, alloc, host, lines, rows, gathered) {
        Ok(plan) => Ok(plan),
        Err(_) => Err(Refusal::Memory),
    }
}
