//! A piece of a content of the pool.

ghost use Rattle.std.specs.Prelude.{◌≡◌, ◌<◌, false};
ghost use Rattle.office_model.specs.declared.event.Event.TheVariants.{PoolPiece};
ghost use Rattle.pool_changes.specs.Kept.{slots_of};
ghost use Rattle.pool_changes.specs.Listed.{index_of};
ghost use Rattle.store_parts.specs.Runs.{Runs};
ghost use Rattle.store_checks.specs.Giving.{size_at, room_of, GivesPiece};

use disk_trait::{Bytes, Disk, PoolId};
use office_model::{Answer, BrokenRule, PIECE_LIMIT, Refusal};
use pool_changes::Slot;
use pool_name::Namer;
use pool_store::Pool;
use std::alloc::Global;
use store_parts::StoreParts;
use store_reads::read_piece;

/// How many bytes a content has, if the index lists its name.
fn size_of<N: Namer>(pool: &Pool<N>, id: PoolId) -> Option<u64>
    ensures { result ≡ size_at (index_of (slots_of pool.now.names)) id }
{
    match pool.slot(id) {
        Some(Slot::Live { size, .. }) => Some(size),
        Some(Slot::Staged { .. } | Slot::Doomed) | None => None,
    }
}

/// How many bytes the piece from a place on has, of a content of so many.
#[tactic(auto, unfolding(office_model::specs::Office::piece_limit))]
fn room_of(size: u64, from: u64) -> usize
    requires { from < size }
    ensures { result ≡ room_of size from }
{
    (PIECE_LIMIT as u64).min(size - from) as usize
}

/// The bytes of a content from a place on: 65,536, or all that are left, and none past its end. It changes nothing, whether it
/// answers or refuses: a name that the index doesn't list, also that of a staged content; a file that is absent or shorter than
/// the index says, which is `Damaged`; a fault of the disk; want of memory. Past the end no file is read.
pub fn pool_piece<D: Disk, N: Namer>(
    parts: &mut StoreParts<D, N>,
    alloc: Global,
    id: PoolId,
    from: u64,
) -> Result<Answer, Refusal>
    requires ready { parts.old.halted ≡ false }
    requires journal_ready { parts.old.journal.halted ≡ false }
    ensures runs { Runs parts.old (PoolPiece id from) result parts.new }
    ensures gives { GivesPiece parts.old id from result }
{
    let size = match size_of(&parts.pool, id) {
        Some(size) => size,
        None => return Err(Refusal::Broken(BrokenRule::NoContent)),
    };
    if from >= size {
        return Ok(Answer::Part(Bytes::new(alloc)));
    }
    match read_piece(parts, alloc, id, from, room_of(size, from)) {
        Ok(part) => Ok(Answer::Part(part)),
        Err(refusal) => Err(refusal),
    }
}
