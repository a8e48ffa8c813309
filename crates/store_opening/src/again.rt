//! Opening a store again.

ghost use Rattle.std.specs.Prelude.{◌≡◌, ◌||◌, true, false, List, ℕ, Option, Some, is_some, IfOk, IfErr, OnOk, OnErr, Err, IsErrOf};
ghost use Rattle.fault_counts.specs.Counts.{Counted};
ghost use Rattle.disk_trait.specs.declared.ids.FileId.{FileId as File};
ghost use Rattle.disk_trait.specs.declared.ids.FileId.TheVariants.{Intent};
ghost use Rattle.disk_trait.specs.Files.{Files};
ghost use Rattle.disk_trait.specs.Images.{Leaves};
ghost use Rattle.intent_journal.specs.Overlay.{IsForeign as IsForeignIntent};
ghost use Rattle.journal_view.specs.Found.{Finds, FindsAll, CanFind, IsOpenable, Reopened};
ghost use Rattle.journal_view.specs.View.{told, uncertain, Quiet, FindsNow, FindsOnly};
ghost use Rattle.pool_changes.specs.Kept.{slots_of};
ghost use Rattle.pool_store.specs.Opening.{AreThePoolFiles};
ghost use Rattle.office_model.specs.declared.event.Event.TheVariants.{Reopen};
ghost use Rattle.office_model.specs.Office.{Durable};
ghost use Rattle.office_model.specs.Step.{State};
ghost use Rattle.store_parts.specs.Held.{MayBe};
ghost use Rattle.store_parts.specs.States.{InState};
ghost use Rattle.store_parts.specs.Runs.{Steps};
ghost use Rattle.store_opening.specs.KeptTables.{HasTablesFound};
ghost use Rattle.store_opening.specs.Recovers.{SaysWhy};
ghost use Rattle.store_opening.specs.Begins.{MayLeave, IsPlain, Begins};
ghost use Rattle.store_opening.specs.Settles.{IsSynced, MayBeSynced, Settles};
ghost use Rattle.store_opening.specs.Whole.{KeepsData, IsAllOf, HasBucketsOf, SaysSpent};
ghost use Rattle.open_sessions.specs.Opened.{AreNone, AreNumbers};
ghost use Rattle.store_opening.specs.Reopens.{Reopens, IsOfFound, reply_of, halts, first_of, second_of};

use crate::begin::begin;
use crate::fault::{OpenRefusal, open_refusal};
use crate::found::Found;
use backup_views::Views;
use disk_trait::Disk;
use intent_journal::Journal;
use office_model::{Answer, BrokenRule, Refusal};
use open_sessions::Sessions;
use pool_name::Namer;
use std::alloc::Global;
use store_parts::StoreParts;

/// Opens the disk of a journal again; one at work stays as it was.
fn reopen_journal<D: Disk>(alloc: Global, journal: &mut Journal<D>) -> Result<(), OpenRefusal>
    ensures ready { OnOk result (journal.new.halted ≡ false) }
    ensures done { OnOk result ((all : Files) → D.files journal.old.disk ≡ Some all
        → IsOpenable (D.files journal.old.disk) (D.uncertain journal.old.disk)
        → Reopened D.files D.uncertain D.moment D.left_since (CanFind (D.files journal.old.disk) (D.uncertain journal.old.disk))
        journal.old.disk journal.new.disk) }
    ensures failed { OnErr result ((all : Files) → D.files journal.old.disk ≡ Some all
        → IsOpenable (D.files journal.old.disk) (D.uncertain journal.old.disk)
        → Leaves D.moment D.left_since journal.old.disk journal.new.disk
        (Finds (CanFind (D.files journal.old.disk) (D.uncertain journal.old.disk)))
        × FindsAll (D.files journal.new.disk) (D.uncertain journal.new.disk)
        (CanFind (D.files journal.old.disk) (D.uncertain journal.old.disk))) }
    ensures known { IfErr result (λ refusal. (all : Files) (file : File) (found : Option (List ℕ)) → refusal ≡ OpenRefusal.Foreign file found
        → D.files journal.old.disk ≡ Some all → IsOpenable (D.files journal.old.disk) (D.uncertain journal.old.disk) → ⊥) }
    ensures foreign { IfErr result (λ refusal. (file : File) (found : Option (List ℕ)) → refusal ≡ OpenRefusal.Foreign file found
        → (file ≡ Intent) × IsForeignIntent (D.files journal.old.disk) found) }
    ensures kind { IfErr result (λ refusal. refusal ≡ OpenRefusal.EpochsSpent → ⊥) }
    ensures keeps { OnOk result (KeepsData (D.files journal.old.disk) (D.files journal.new.disk)) }
    ensures synced { OnOk result ((all : Files) → D.files journal.old.disk ≡ Some all → IsSynced ⟦<D as Disk>⟧ journal.old.disk journal.new.disk) }
    ensures stopped { OnErr result ((all : Files) → D.files journal.old.disk ≡ Some all
        → IsOpenable (D.files journal.old.disk) (D.uncertain journal.old.disk) → MayBeSynced ⟦<D as Disk>⟧ journal.old.disk journal.new.disk) }
    ensures running { OnOk result (journal.old.halted ≡ false → is_some (told journal.old) ≡ true → Quiet journal.old journal.new) }
    ensures memory { IfErr result (λ refusal. refusal ≡ OpenRefusal.Memory → journal.old.halted ≡ false → Quiet journal.old journal.new) }
    ensures counted { Counted (D.fault_count journal.old.disk) (D.fault_count journal.new.disk) (IsErrOf result OpenRefusal.DiskFault) }
{
    match journal.reopen(alloc) {
        Ok(()) => Ok(()),
        Err(fault) => Err(open_refusal(fault)),
    }
}

/// Opens the disk of a journal again, and makes the office that it has durable in its next epoch.
fn begin_again<D: Disk, N: Namer>(
    alloc: Global,
    journal: &mut Journal<D>,
    namer: N,
) -> Result<Found<N>, OpenRefusal>
    ensures begins { (a b : Durable) → MayBe N.digest_of journal.old a b → Begins a b result journal.new }
    ensures crash { (a b : Durable) → MayBe N.digest_of journal.old a b → FindsOnly journal.old journal.new (MayLeave N.digest_of a b) }
    ensures settles { (a b : Durable) → MayBe N.digest_of journal.old a b → Settles a b result journal.old.disk journal.new }
    ensures tables { (a b : Durable) → MayBe N.digest_of journal.old a b
        → FindsNow journal.new (HasTablesFound (D.files journal.old.disk) (uncertain journal.old)) }
    ensures quiet { IfErr result (λ refusal. IsPlain refusal → journal.old.halted ≡ false → is_some (told journal.old) ≡ true → Quiet journal.old journal.new) }
    ensures ready { IfOk result (λ found. journal.new.halted ≡ false) }
    ensures stays { IfErr result (λ refusal. IsPlain refusal → journal.old.halted ≡ false → journal.new.halted ≡ false) }
    ensures foreign { IfErr result (SaysWhy (D.files journal.old.disk) (D.files journal.new.disk)) }
    ensures whole { IfOk result (IsAllOf (told journal.new)) }
    ensures buckets { IfOk result (HasBucketsOf (told journal.new)) }
    ensures listed { IfOk result (λ found. AreThePoolFiles (D.files journal.old.disk) (slots_of found.pool.names)) }
    ensures spent { IfErr result (SaysSpent (told journal.new)) }
    ensures counted { Counted (D.fault_count journal.old.disk) (D.fault_count journal.new.disk) (IsErrOf result OpenRefusal.DiskFault) }
{
    match reopen_journal(alloc, journal) {
        Ok(()) => {}
        Err(refusal) => return Err(refusal),
    }
    match begin(alloc, journal, namer) {
        Ok(found) => Ok(found),
        Err(refusal) => Err(refusal),
    }
}

/// What a store answers to a reopening that was refused.
fn reply_of(refusal: OpenRefusal) -> Refusal
    ensures { result ≡ reply_of refusal }
{
    match refusal {
        OpenRefusal::Foreign { file, found } => Refusal::Damaged { file, found },
        OpenRefusal::EpochsSpent => Refusal::Broken(BrokenRule::NumbersSpent),
        OpenRefusal::DiskFault => Refusal::DiskFault,
        OpenRefusal::Memory => Refusal::Memory,
    }
}

/// Whether a refusal leaves the store halted, though it was at work.
fn halts(refusal: &OpenRefusal) -> bool
    ensures { result ≡ halts refusal.now }
{
    match refusal {
        OpenRefusal::Foreign { .. } => true,
        OpenRefusal::EpochsSpent => false,
        OpenRefusal::DiskFault => true,
        OpenRefusal::Memory => false,
    }
}

/// Whether a store is halted after a refusal, that was halted or not before.
fn is_halted_after(was: bool, refusal: &OpenRefusal) -> bool
    ensures { result ≡ (was || halts refusal.now) }
{
    was || halts(refusal)
}

/// Ends all that is open, for an epoch whose first session is number 0. The next stage and the next reader keep their numbers.
fn end_all<S: Drop>(sessions: &mut Sessions<S>)
    ensures none { AreNone sessions.new }
    ensures first { sessions.new.sequence ≡ 0 }
    ensures numbers { AreNumbers sessions.old.stages.next sessions.old.readers.next sessions.new }
{
    sessions.dumps.clear();
    sessions.restores.clear();
    sessions.stages.end_all();
    sessions.readers.end_all();
    sessions.sequence = 0;
}

/// Makes what was found the parts of a store, with nothing open; the journal stays.
fn take_over<D: Disk, N: Namer>(parts: &mut StoreParts<D, N>, found: Found<N>)
    ensures is { IsOfFound parts.new found parts.old.sessions.stages.next parts.old.sessions.readers.next }
    ensures journal { parts.new.journal ≡ parts.old.journal }
{
    parts.pool = found.pool;
    parts.catalog = found.catalog;
    parts.counts = found.counts;
    parts.partials = found.partials;
    end_all(&mut parts.sessions);
    parts.views = Views::new();
    parts.halted = false;
}

/// Opens a store again, as `reopen` does.
fn reopen_parts<D: Disk, N: Namer>(
    parts: &mut StoreParts<D, N>,
    alloc: Global,
    namer: N,
) -> Result<Answer, Refusal>
    ensures { Reopens parts.old result parts.new }
{
    match begin_again(alloc, &mut parts.journal, namer) {
        Ok(found) => {
            let epoch = found.catalog.epoch();
            take_over(parts, found);
            Ok(Answer::Reopened(epoch))
        }
        Err(refusal) => {
            parts.halted = is_halted_after(parts.halted, &refusal);
            Err(reply_of(refusal))
        }
    }
}

/// Opens a store again, whether it is at work or halted.
///
/// After Ok it is at work in the next epoch, with the office that was durable, or of a halted one the one of its two that
/// the disk has; open dumps, restores, stages and readers are gone, and the numbers of stages and readers go on. After `Broken`
/// and `Memory` it is as it was. After `DiskFault` it is
/// halted, and the disk has the office as it was or in its next epoch; so after `Damaged`, which says what was found of a
/// file, and never comes on a disk that a store left. No table is written, so its old hosts stay those that they were.
pub fn reopen<D: Disk, N: Namer>(
    parts: &mut StoreParts<D, N>,
    alloc: Global,
    namer: N,
) -> Result<Answer, Refusal>
    ensures reopens { Reopens parts.old result parts.new }
    ensures steps { (state : State) → InState parts.old state → Steps state Reopen result parts.new }
    ensures crash { (state : State) → InState parts.old state
        → FindsOnly parts.old.journal parts.new.journal (MayLeave N.digest_of (first_of state) (second_of state)) }
{
    reopen_parts(parts, alloc, namer)
}
