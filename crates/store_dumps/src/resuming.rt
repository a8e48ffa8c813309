//! A dump of a host's partial is opened.

ghost use Rattle.std.specs.Prelude.{◌≡◌, ◌<◌, false, Some, length, IfOk, IfErr, Err};
ghost use Rattle.fault_counts.specs.Counts.{Counted};
ghost use Rattle.journal_view.specs.View.{told};
ghost use Rattle.host_partials.specs.Held.{head_at};
ghost use Rattle.office_model.specs.declared.event.Event.TheVariants.{Resume as ResumeEvent};
ghost use Rattle.store_parts.specs.Parked.{IsParkedFault};
ghost use Rattle.store_parts.specs.Refusals.{IsReadFault};
ghost use Rattle.store_parts.specs.Runs.{Reads, Runs};
ghost use Rattle.store_dumps.specs.Resuming.{TellsPartial, ResumesWith, ResumesDump};

use crate::base::Begun;
use crate::opening::{further_rule, open_with};
use attr_records::HostName;
use disk_trait::Disk;
use host_partials::PartialHead;
use office_model::{Answer, BrokenRule, Refusal};
use partial_files::PartialFile;
use pool_name::Namer;
use std::alloc::Global;
use store_parts::{StoreParts, read_parked};

/// The partial of a host of which one is known, as its file holds it. A refusal changes nothing; `Damaged` names that file,
/// which is absent or holds no partial of the host, with what was found of it.
fn read_known<D: Disk, N: Namer>(
    parts: &mut StoreParts<D, N>,
    alloc: Global,
    host: usize,
    head: PartialHead,
) -> Result<PartialFile, Refusal>
    requires ready { parts.old.journal.halted ≡ false }
    requires host { host < length parts.old.catalog.hosts }
    requires known { Some head ≡ head_at parts.old.partials host }
    ensures reads { Reads parts.old parts.new }
    ensures resumes { IfOk result (ResumesWith parts.new host) }
    ensures tells { IfOk result (TellsPartial (told parts.old.journal) host) }
    ensures damaged { IfErr result (IsParkedFault (told parts.old.journal) (Some head) host) }
    ensures fault { IfErr result (IsReadFault parts.old) }
    ensures counted { Counted (D.fault_count parts.old.journal.disk) (D.fault_count parts.new.journal.disk)
        (result ≡ Err Refusal.DiskFault) }
{
    let _few = parts.catalog.hosts();
    match read_parked(alloc, &mut parts.journal, Some(head), host as u32) {
        Ok(Some(file)) => Ok(file),
        Ok(None) => unreachable!(),
        Err(refusal) => Err(refusal),
    }
}

/// Opens a dump of a host's partial: of the kind that it was begun as and from when it was begun, with its tree, whose contents
/// it claims. The partial stays, and the dump has no token. After a refusal nothing has changed; `Damaged` names the file of the
/// partial, with what was found of it.
pub fn resume<D: Disk, N: Namer>(
    parts: &mut StoreParts<D, N>,
    alloc: Global,
    host: &HostName,
) -> Result<Answer, Refusal>
    requires ready { parts.old.halted ≡ false }
    requires journal_ready { parts.old.journal.halted ≡ false }
    ensures runs { Runs parts.old (ResumeEvent host.now) result parts.new }
    ensures base { ResumesDump parts.old host.now result parts.new }
{
    let at = parts.host(host)?;
    let head = match parts.partials.of_host(at) {
        Some(head) => head,
        None => return Err(Refusal::Broken(BrokenRule::NoPartial)),
    };
    match further_rule(&parts.sessions, at, &parts.catalog.hosts()[at]) {
        Some(rule) => return Err(Refusal::Broken(rule)),
        None => {}
    }
    let PartialFile { kind, start, rows } = match read_known(parts, alloc, at, head) {
        Ok(file) => file,
        Err(refusal) => return Err(refusal),
    };
    let begun = Begun { rows, hint: None };
    match open_with(parts, alloc, at, kind, start, None, begun) {
        Ok(name) => Ok(Answer::Dump(name)),
        Err(_) => Err(Refusal::Memory),
    }
}
