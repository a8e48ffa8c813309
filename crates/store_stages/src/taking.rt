//! The bytes of a stage get their name in the pool.

ghost use Rattle.std.specs.Prelude.{◌≡◌, ◌<◌, ℕ, List, Option, false, Some, IfOk, IfErr, OnErr, IsErrOf};
ghost use Rattle.fault_counts.specs.Counts.{Counted};
ghost use Rattle.disk_trait.specs.declared.ids.PoolId.{PoolId};
ghost use Rattle.disk_trait.specs.declared.ids.FileId.TheVariants.{Stage as StageFile};
ghost use Rattle.disk_trait.specs.Files.{Files};
ghost use Rattle.disk_trait.specs.Images.{Leaves};
ghost use Rattle.intent_journal.specs.Overlay.{ComesTo};
ghost use Rattle.journal_view.specs.View.{told};
ghost use Rattle.attr_tables.specs.Records.{IsContentOf};
ghost use Rattle.pool_changes.specs.Kept.{slots_of};
ghost use Rattle.pool_changes.specs.Slots.{unlisted};
ghost use Rattle.pool_store.specs.Pools.{Misses, IsCertain};
ghost use Rattle.pool_store.specs.Sources.{SaysStageLost};
ghost use Rattle.open_sessions.specs.Opened.{IsStage};
ghost use Rattle.office_model.specs.Office.{Stage};
ghost use Rattle.store_dumps.specs.Putting.{TakesIn};

use disk_trait::{Disk, PoolId};
use intent_journal::Journal;
use open_sessions::OpenStage;
use pool_name::Namer;
use pool_store::{Pool, PoolFault};
use std::alloc::Global;

/// The name of the bytes of a stage, which are copied to a new file of the pool if none holds them, and claimed; none if there
/// are no bytes. `Foreign` says that the file of the stage isn't as long as what was put into it.
pub(crate) fn take_stage<D: Disk, N: Namer>(
    pool: &mut Pool<N>,
    journal: &mut Journal<D>,
    alloc: Global,
    stage: &OpenStage<N::State>,
) -> Result<Option<PoolId>, PoolFault>
    requires { journal.old.halted ≡ false }
    ensures takes { IfOk result (λ content. (all : Files) (value : Stage) → told journal.old ≡ Some all
        → IsStage N.holds (λ number. all (StageFile number)) value stage.now
        → TakesIn N.digest_of (slots_of pool.old.names) (slots_of pool.new.names) (D.files journal.old.disk) (D.files journal.new.disk) content value.bytes) }
    ensures shape { IfOk result (λ content. IsContentOf stage.now.size content) }
    ensures misses { IfErr result (λ fault. (all : Files) (value : Stage) → told journal.old ≡ Some all
        → IsStage N.holds (λ number. all (StageFile number)) value stage.now
        → Misses N.digest_of (slots_of pool.old.names) (slots_of pool.new.names) (D.files journal.old.disk) (D.files journal.new.disk) value.bytes fault) }
    ensures some { OnErr result (0 < stage.now.size) }
    ensures lost { IfErr result (SaysStageLost stage.now.number stage.now.size (D.files journal.old.disk)) }
    ensures undamaged { IfErr result (λ fault. (other : PoolId) (found : Option (List ℕ)) → fault ≡ PoolFault.Damaged other found → ⊥) }
    ensures certain { IsCertain (slots_of pool.old.names) (D.uncertain journal.old.disk) → IsCertain (slots_of pool.old.names) (D.uncertain journal.new.disk) }
    ensures crash { (all : Files) → D.files journal.old.disk ≡ Some all → IsCertain (slots_of pool.old.names) (D.uncertain journal.old.disk)
        → Leaves D.moment D.left_since journal.old.disk journal.new.disk (ComesTo all (unlisted (slots_of pool.old.names))) }
    ensures form { pool.new.in_one_file ≡ pool.old.in_one_file }
    ensures stays { journal.new.halted ≡ journal.old.halted }
    ensures counted { Counted (D.fault_count journal.old.disk) (D.fault_count journal.new.disk) (IsErrOf result PoolFault.Disk) }
{
    if stage.size == 0 {
        return Ok(None);
    }
    let namer = pool.namer();
    let digest = namer.so_far(&stage.digest);
    match pool.match_or_stage_file(alloc, journal, stage.number, stage.size, digest) {
        Ok(id) => Ok(Some(id)),
        Err(fault) => Err(fault),
    }
}
