//! An open restore is dropped.

ghost use Rattle.std.specs.Prelude.{◌≡◌, false};
ghost use Rattle.office_model.specs.declared.event.Event.TheVariants.{CloseRead};
ghost use Rattle.office_model.specs.History.{IsUndamaged};
ghost use Rattle.store_parts.specs.Runs.{Runs};

use disk_trait::Disk;
use office_model::{Answer, Refusal, SessionName};
use pool_name::Namer;
use store_dumps::release_rows;
use store_parts::StoreParts;

/// Drops an open restore, and lets go what its rows claim. It takes no memory and reads no file. After a refusal, which
/// comes if no restore has this name, nothing has changed.
pub fn close_read<D: Disk, N: Namer>(
    parts: &mut StoreParts<D, N>,
    restore: SessionName,
) -> Result<Answer, Refusal>
    requires ready { parts.old.halted ≡ false }
    ensures runs { Runs parts.old (CloseRead restore) result parts.new }
    ensures undamaged { IsUndamaged result }
{
    let at = parts.restore(restore)?;
    let closed = parts.sessions.take_restore(at);
    release_rows(&mut parts.pool, closed.whole.rows());
    Ok(Answer::Done)
}
