//! The counts of a host after a deletion.

ghost use Rattle.std.specs.Prelude.{◌≡◌, ◌+◌, ◌-◌, IfOk};
ghost use Rattle.disk_trait.specs.declared.ids.PoolId.{PoolId};
ghost use Rattle.ref_counts.specs.Numbers.{number, capped};

use ref_counts::{Counts, add, take};
use std::alloc::{AllocError, Global};

/// The counts without those that are taken, and with those that are added.
pub(crate) fn counts_after(
    alloc: Global,
    old: &Counts,
    taken: &Counts,
    added: &Counts,
) -> Result<Counts, AllocError>
    ensures { IfOk result (λ counts. (id : PoolId) → number counts id
        ≡ capped ((number old.now id - number taken.now id) + number added.now id)) }
{
    let rest = take(alloc, old, taken)?;
    add(alloc, &rest, added)
}
