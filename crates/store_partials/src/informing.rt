//! What is known of a host's partial, as an event of a store at work.

ghost use Rattle.std.specs.Prelude.{◌≡◌};
ghost use Rattle.office_model.specs.declared.event.Event.TheVariants.{PartialInfo};
ghost use Rattle.office_model.specs.History.{IsUndamaged};
ghost use Rattle.store_parts.specs.Runs.{Runs};

use attr_records::HostName;
use disk_trait::Disk;
use office_model::{Answer, BrokenRule, Refusal};
use pool_name::Namer;
use store_parts::StoreParts;

/// How many paths a host's partial has, of which kind it is, and when it was begun. Refused if there is no such host, or it has no
/// partial. No file is read.
pub fn partial_info<D: Disk, N: Namer>(
    parts: &StoreParts<D, N>,
    host: &HostName,
) -> Result<Answer, Refusal>
    ensures runs { Runs parts.now (PartialInfo host.now) result parts.now }
    ensures undamaged { IsUndamaged result }
{
    let place = parts.host(host)?;
    match parts.partials.of_host(place) {
        Some(head) => Ok(Answer::Partial {
            entries: head.entries,
            kind: head.kind,
            start: head.start,
        }),
        None => Err(Refusal::Broken(BrokenRule::NoPartial)),
    }
}
