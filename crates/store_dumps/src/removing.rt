//! A path is removed.

ghost use Rattle.std.specs.Prelude.{◌≡◌, false};
ghost use Rattle.office_model.specs.declared.event.Event.TheVariants.{Remove};
ghost use Rattle.office_model.specs.History.{IsUndamaged};
ghost use Rattle.store_parts.specs.Runs.{Runs};

use crate::claims::release_rows;
use crate::tokens::{EditToken, judge_edit};
use attr_records::PathName;
use disk_trait::Disk;
use dump_session::RemoveFault;
use office_model::{Answer, BrokenRule, Refusal, SessionName};
use pool_name::Namer;
use receipts::Token;
use std::alloc::Global;
use store_parts::StoreParts;

/// Takes a path and all below it out of the tree of an open dump, and lets go what their rows claim: a content that was
/// staged for them and that nothing else claims is to be swept. After a refusal nothing has changed. With a token it is carried out
/// once: with one that the dump keeps it is Done, and nothing changes; after Ok the dump keeps it.
pub fn remove<D: Disk, N: Namer>(
    parts: &mut StoreParts<D, N>,
    alloc: Global,
    session: SessionName,
    path: &PathName,
    token: Option<Token>,
) -> Result<Answer, Refusal>
    requires ready { parts.old.halted ≡ false }
    ensures runs { Runs parts.old (Remove session path.now token) result parts.new }
    ensures undamaged { IsUndamaged result }
{
    let at = parts.dump(session)?;
    let dump = parts.sessions.dump(at);
    match judge_edit(&dump.kept, token) {
        EditToken::Fresh => {}
        EditToken::Kept => return Ok(Answer::Done),
        EditToken::Full => return Err(Refusal::Broken(BrokenRule::TokensFull)),
    }
    let removed = match dump.tree.within(alloc, path) {
        Ok(removed) => removed,
        Err(_) => return Err(Refusal::Memory),
    };
    match parts.sessions.remove(alloc, at, path, token) {
        Ok(()) => {
            release_rows(&mut parts.pool, removed.rows());
            Ok(Answer::Done)
        }
        Err(RemoveFault::NoPath) => Err(Refusal::Broken(BrokenRule::NoPath)),
        Err(RemoveFault::Memory) => Err(Refusal::Memory),
    }
}
