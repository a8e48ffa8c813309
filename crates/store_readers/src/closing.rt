//! An open reader is dropped.

ghost use Rattle.std.specs.Prelude.{◌≡◌, false};
ghost use Rattle.office_model.specs.declared.event.Event.TheVariants.{CloseFile};
ghost use Rattle.office_model.specs.History.{IsUndamaged};
ghost use Rattle.store_parts.specs.Runs.{Runs};

use crate::finding::find_reader;
use disk_trait::Disk;
use office_model::{Answer, Refusal};
use pool_name::Namer;
use store_dumps::release;
use store_parts::StoreParts;

/// Drops an open reader, and lets go the claim on its content. It takes no memory and reads no file. After a refusal, which
/// comes if no reader has this number, nothing has changed.
pub fn close_file<D: Disk, N: Namer>(
    parts: &mut StoreParts<D, N>,
    number: u64,
) -> Result<Answer, Refusal>
    requires ready { parts.old.halted ≡ false }
    ensures runs { Runs parts.old (CloseFile number) result parts.new }
    ensures undamaged { IsUndamaged result }
{
    let at = find_reader(parts, number)?;
    let closed = parts.sessions.readers.take(at);
    release(&mut parts.pool, closed.content);
    Ok(Answer::Done)
}
