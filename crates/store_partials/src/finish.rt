//! What is in memory behind a park.

ghost use Rattle.std.specs.Prelude.{◌≡◌, ◌<◌, false, Some, length, slice_set};
ghost use Rattle.pool_changes.specs.Indexed.{after as relisted_after};
ghost use Rattle.pool_changes.specs.Kept.{IsSame};
ghost use Rattle.store_parts.specs.States.{slots};

use crate::plan::ParkPlan;
use disk_trait::Disk;
use pool_name::Namer;
use store_parts::StoreParts;

/// Makes in memory what was parked: the pool, the host's counts and what is known of its partial change. The dump stays open and
/// keeps its claims. Takes no memory. To be called after the plan's changes are written.
pub fn accept_park<D: Disk, N: Namer>(parts: &mut StoreParts<D, N>, plan: ParkPlan)
    requires counted { plan.host < length parts.old.counts }
    requires held { plan.host < length parts.old.partials }
    ensures pool { IsSame (relisted_after plan.index (slots parts.old)) (slots parts.new) }
    ensures form { parts.new.pool.in_one_file ≡ false }
    ensures counts { parts.new.counts ≡ slice_set parts.old.counts plan.host plan.counts }
    ensures partials { parts.new.partials ≡ slice_set parts.old.partials plan.host (Some plan.head) }
    ensures journal { parts.new.journal ≡ parts.old.journal }
    ensures catalog { parts.new.catalog ≡ parts.old.catalog }
    ensures sessions { parts.new.sessions ≡ parts.old.sessions }
    ensures views { parts.new.views ≡ parts.old.views }
    ensures halted { parts.new.halted ≡ parts.old.halted }
{
    let ParkPlan {
        host,
        index,
        head,
        counts,
        changes: _changes,
    } = plan;
    parts.pool.accept(index);
    parts.counts.set(host, counts);
    parts.partials.set(host, Some(head));
}
