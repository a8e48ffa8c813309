//! The opening of the store.

ghost use Rattle.std.specs.Prelude.{◌≡◌, false, IfOk, IfErr};
ghost use Rattle.journal_view.specs.View.{FindsNow};
ghost use Rattle.pool_changes.specs.Kept.{slots_of};
ghost use Rattle.pool_store.specs.Opening.{AreThePoolFiles};
ghost use Rattle.office_model.specs.Office.{Durable};
ghost use Rattle.store_opening.specs.declared.fault.OpenRefusal.{OpenRefusal};
ghost use Rattle.store_opening.specs.Opens.{IsOf, Opened};
ghost use Rattle.store_opening.specs.Settles.{ComesToOne};
ghost use Rattle.store_opening.specs.KeptTables.{HasTablesFound};
ghost use Rattle.serve_workers.specs.Stores.{is_stopped};
ghost use Rattle.admin_cli.specs.Run.{note_of_refusal, IsUnopened};

use crate::note::Note;
use disk_trait::Disk;
use pool_name::Namer;
use serve_workers::{OpenRefusal, Store};
use std::alloc::Global;

/// What is said of a run whose store wasn't opened.
fn note_of_refusal(refusal: &OpenRefusal) -> Note
    ensures { result ≡ note_of_refusal refusal.now }
{
    match refusal {
        OpenRefusal::Foreign { file, found: _ } => Note::Foreign(*file),
        OpenRefusal::EpochsSpent => Note::EpochsSpent,
        OpenRefusal::DiskFault => Note::DiskFailed,
        OpenRefusal::Memory => Note::NoMemory,
    }
}

/// Opens the store on the disk; or hands the disk back, with what is said of a run whose store wasn't opened.
pub fn open_store<D: Disk, N: Namer>(
    alloc: Global,
    disk: D,
    namer: N,
) -> Result<Store<D, N>, (D, Note)>
    ensures opened { IfOk result (λ store. (a b : Durable) → IsOf N.digest_of (D.files disk) (D.uncertain disk) a b
        → (o : Opened a b store.parts) × ComesToOne ⟦<D as Disk>⟧ N.digest_of disk store.parts.journal.disk a b o.office
        × FindsNow store.parts.journal (HasTablesFound (D.files disk) (D.uncertain disk))) }
    ensures listed { IfOk result (λ store. AreThePoolFiles (D.files disk) (slots_of store.parts.pool.names)) }
    ensures ready { IfOk result (λ store. is_stopped store.parts ≡ false) }
    ensures counted { IfOk result (λ store. D.fault_count store.parts.journal.disk ≡ D.fault_count disk) }
    ensures refused { IfErr result (λ refused. (refusal : OpenRefusal) × (refused.1 ≡ note_of_refusal refusal)
        × IsUnopened ⟦<D as Disk>⟧ N.digest_of disk refused.0 refusal) }
{
    match Store::open(alloc, disk, namer) {
        Ok(store) => Ok(store),
        Err((disk, refusal)) => {
            let note = note_of_refusal(&refusal);
            Err((disk, note))
        }
    }
}
