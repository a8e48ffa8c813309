//! What is in memory behind a commit.

ghost use Rattle.std.specs.Prelude.{◌≡◌, ◌≤◌, ◌<◌, ℕ, false, Some, None, length, slice_get, slice_set};
ghost use Rattle.disk_trait.specs.declared.ids.PoolId.{PoolId};
ghost use Rattle.pool_changes.specs.Slots.{claims_of};
ghost use Rattle.pool_changes.specs.Indexed.{after as relisted_after};
ghost use Rattle.office_catalog.specs.Changed.{IsFor, after as known_after};
ghost use Rattle.open_sessions.specs.declared.sessions.OpenDump.{OpenDump};
ghost use Rattle.open_sessions.specs.Opened.{claims_of_dump};
ghost use Rattle.store_parts.specs.States.{slots};
ghost use Rattle.store_dumps.specs.Claims.{LetsGo};
ghost use Rattle.store_commits.specs.Ending.{EndsDump};

use crate::parked::unpark;
use crate::plan::Plan;
use disk_trait::Disk;
use pool_name::Namer;
use store_dumps::release_rows;
use store_parts::StoreParts;

/// Makes in memory what was committed: the pool, the catalog and the host's counts change, the host has no partial any more, and the
/// dump is taken out with its claims and its stages. Takes no memory. To be called after the plan's changes are written, with the place of the dump that was
/// planned.
pub fn accept_commit<D: Disk, N: Namer>(parts: &mut StoreParts<D, N>, at: usize, plan: Plan)
    requires within { at < length parts.old.sessions.dumps.items }
    requires fits { IsFor parts.old.catalog plan.catalog }
    requires counted { plan.host < length parts.old.counts }
    ensures pool { (dump : OpenDump) → slice_get parts.old.sessions.dumps.items at ≡ Some dump → plan.rows ≡ dump.tree
        → ((id : PoolId) → claims_of_dump dump id ≤ claims_of (relisted_after plan.index (slots parts.old) id))
        → LetsGo (claims_of_dump dump) (relisted_after plan.index (slots parts.old)) (slots parts.new) }
    ensures form { parts.new.pool.in_one_file ≡ false }
    ensures catalog { parts.new.catalog ≡ known_after plan.catalog parts.old.catalog }
    ensures counts { parts.new.counts ≡ slice_set parts.old.counts plan.host plan.counts }
    ensures partials { parts.new.partials ≡ slice_set parts.old.partials plan.host None }
    ensures ends { (dump : OpenDump) → slice_get parts.old.sessions.dumps.items at ≡ Some dump
        → EndsDump parts.old.sessions at dump parts.new.sessions }
    ensures journal { parts.new.journal ≡ parts.old.journal }
    ensures views { parts.new.views ≡ parts.old.views }
    ensures halted { parts.new.halted ≡ parts.old.halted }
{
    let Plan {
        number: _number,
        host,
        catalog,
        index,
        rows,
        counts,
        changes: _changes,
    } = plan;
    parts.pool.accept(index);
    parts.catalog.accept(catalog);
    parts.counts.set(host, counts);
    unpark(&mut parts.partials, host);
    release_rows(&mut parts.pool, rows.rows());
    let dump = parts.sessions.take_dump(at);
    release_rows(&mut parts.pool, dump.base.rows());
    parts.sessions.stages.end_those_of(dump.name);
}
