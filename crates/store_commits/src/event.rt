//! A commit of an open dump, and an adoption of a backup, as events of a store at work.

ghost use Rattle.std.specs.Prelude.{◌≡◌, ◌≤◌, ◌<◌, true, false, length, Some, slice_get};
ghost use Rattle.receipts.specs.declared.session.SessionName.{SessionName as Name};
ghost use Rattle.backup_index.specs.Index.{Index};
ghost use Rattle.open_sessions.specs.declared.sessions.OpenDump.{OpenDump};
ghost use Rattle.office_catalog.specs.Known.{receipt_named};
ghost use Rattle.office_model.specs.declared.event.Event.{Event as AnyEvent};
ghost use Rattle.office_model.specs.declared.event.Event.TheVariants.{Commit, Adopt};
ghost use Rattle.store_parts.specs.Runs.{Runs};
ghost use Rattle.store_commits.specs.Committing.{EndsAs};
ghost use Rattle.store_commits.specs.Tables.{again_of, place_of, HeedsTables, HeedsAdopted};

use crate::commit::plan_commit;
use crate::finish::accept_commit;
use crate::numbering::{line_now, line_there};
use backup_rules::{Kind, Line};
use disk_trait::Disk;
use office_catalog::Catalog;
use office_model::{Answer, BrokenRule, Refusal, SessionName};
use pool_name::Namer;
use std::alloc::Global;
use store_parts::StoreParts;
use stream_traits::Moment;

/// What a commit of a dump that isn't open answers: the number that it was given, if a host keeps the receipt of its commit.
fn answer_again(catalog: &Catalog, session: SessionName) -> Result<Answer, Refusal>
    ensures { result ≡ again_of (receipt_named catalog.now.hosts session) }
{
    match catalog.receipt_named(session) {
        Some(receipt) => Ok(Answer::Committed(receipt.number)),
        None => Err(Refusal::Broken(BrokenRule::NoSession)),
    }
}

/// Makes the open dump at a place its host's backup of this line, which is its newest, and answers its number; its stages end with it,
/// and the host's partial is dropped. If it was opened with a token, the host keeps a receipt. After Ok this is durable. If there is no
/// memory, or a read fails, nothing was done; after a `DiskFault` of the write the store is halted. The table of the former newest
/// backup has to be there, if it doesn't stay filled, and the host's partial, if it has one: after Ok they were; if one isn't,
/// `Damaged` names it, with what was found of it, and nothing was done.
fn end_dump<D: Disk, N: Namer>(
    parts: &mut StoreParts<D, N>,
    alloc: Global,
    at: usize,
    line: Line,
) -> Result<Answer, Refusal>
    requires ready { parts.old.journal.halted ≡ false }
    requires within { at < length parts.old.sessions.dumps.items }
    requires free { (session : OpenDump) → slice_get parts.old.sessions.dumps.items at ≡ Some session
        → (index : Index) → slice_get parts.old.catalog.hosts session.host ≡ Some index → index.next ≤ line.number }
    requires filled { line.filled ≡ true }
    ensures runs { (event : AnyEvent) (name : Name) → EndsAs parts.old event name at line → Runs parts.old event result parts.new }
    ensures tables { (name : Name) → Some at ≡ place_of parts.old.sessions.dumps.items name
        → HeedsAdopted line.number parts.old name result parts.new }
{
    let plan = match plan_commit(parts, alloc, at, line) {
        Ok(plan) => plan,
        Err(refusal) => return Err(refusal),
    };
    match parts.write(alloc, &plan.changes) {
        Ok(()) => {}
        Err(refusal) => return Err(refusal),
    }
    let number = plan.number;
    accept_commit(parts, at, plan);
    Ok(Answer::Committed(number))
}

/// Makes an open dump its host's next backup, and answers its number; its stages end with it, and the host's partial is dropped. If
/// it was opened with a token, the host keeps a receipt. After Ok this is durable. If there is no memory, or a read fails, nothing was
/// done; after a `DiskFault` of the write the store is halted. The table of the former newest backup has to be there, if it doesn't
/// stay filled, and the host's partial, if it has one: after Ok they were; if one isn't, `Damaged` names it, with what was found of
/// it, and nothing was done.
///
/// A name that no open dump has is looked up among the receipts: with one it was committed already, and the answer is that number
/// again; without one it is refused. Either changes nothing, and reads no file.
pub fn commit_dump<D: Disk, N: Namer>(
    parts: &mut StoreParts<D, N>,
    alloc: Global,
    session: SessionName,
    now: Moment,
) -> Result<Answer, Refusal>
    requires ready { parts.old.journal.halted ≡ false }
    ensures runs { Runs parts.old (Commit session now) result parts.new }
    ensures tables { HeedsTables parts.old session result parts.new }
{
    let at = match parts.dump(session) {
        Ok(at) => at,
        Err(_) => return answer_again(&parts.catalog, session),
    };
    let dump = &parts.sessions.dumps[at];
    let line = match line_now(parts, dump, now) {
        Ok(line) => line,
        Err(rule) => return Err(Refusal::Broken(rule)),
    };
    end_dump(parts, alloc, at, line)
}

/// As a commit, of a backup that another server has: with the number, the times and the kind that it has there; the host's next number
/// is the one behind it. A number below the host's next one is refused as `NumberBehind`, which changes nothing, and reads no file.
pub fn adopt_dump<D: Disk, N: Namer>(
    parts: &mut StoreParts<D, N>,
    alloc: Global,
    session: SessionName,
    number: u32,
    start: u64,
    end: u64,
    kind: Kind,
) -> Result<Answer, Refusal>
    requires ready { parts.old.journal.halted ≡ false }
    ensures runs { Runs parts.old (Adopt session number start end kind) result parts.new }
    ensures tables { HeedsAdopted number parts.old session result parts.new }
{
    let at = match parts.dump(session) {
        Ok(at) => at,
        Err(_) => return answer_again(&parts.catalog, session),
    };
    let dump = &parts.sessions.dumps[at];
    let line = match line_there(parts, dump, number, start, end, kind) {
        Ok(line) => line,
        Err(rule) => return Err(Refusal::Broken(rule)),
    };
    end_dump(parts, alloc, at, line)
}
