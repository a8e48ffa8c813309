//! What follows from what an event promises.

ghost use Rattle.std.specs.Prelude.{List};
ghost use Rattle.disk_trait.specs.Files.{Files};
ghost use Rattle.journal_view.specs.Chain.{Crashed};
ghost use Rattle.journal_view.specs.Found.{Finds, FindsAll};
ghost use Rattle.office_model.specs.declared.event.Event.{Event};
ghost use Rattle.office_model.specs.Meaning.{Reply};
ghost use Rattle.office_model.specs.Step.{Call, State, IsSoundState};
ghost use Rattle.store_parts.specs.States.{InState};
ghost use Rattle.office_store.specs.Moves.{MayRecoverSince, Moves};
ghost use Rattle.office_store.specs.Serves.{MayRecover, Serves};

use crate::store::Store;
use disk_trait::Disk;
use pool_name::Namer;

/// A crash at any moment since the start of an event that a store answered: an opening finds in what it left no more than the event may
/// leave; and on a disk that starts from that it finds no more, whatever a crash leaves of that disk in turn.
pub fn a_crash_leaves_what_the_event_may<D: Disk, N: Namer>(old: &Store<D, N>, new: &Store<D, N>)
    ensures left { (event : Event) (reply : Reply) (state : State) → Serves old.now event reply new.now → InState old.now.parts state
        → (image : Files) → D.left_since new.now.parts.journal.disk (D.moment old.now.parts.journal.disk) image
        → Finds (MayRecover N.digest_of state event) image }
    ensures next { (event : Event) (reply : Reply) (state : State) (next : D) → Serves old.now event reply new.now
        → InState old.now.parts state → Crashed ⟦<D as Disk>⟧ old.now.parts.journal.disk new.now.parts.journal.disk next
        → FindsAll (D.files next) (D.uncertain next) (MayRecover N.digest_of state event) }
{}

/// A crash at any moment since the start of a run of several events: an opening finds in what it left what was there at the start, or what
/// a crash during one of the events may leave, in a state to which those before it lead; and on a disk that starts from that it finds no
/// more, whatever a crash leaves of that disk in turn.
pub fn a_crash_leaves_what_one_of_the_events_may<D: Disk, N: Namer>(
    old: &Store<D, N>,
    new: &Store<D, N>,
)
    ensures left { (calls : List Call) (state : State) → Moves old.now calls new.now → InState old.now.parts state → IsSoundState state
        → (image : Files) → D.left_since new.now.parts.journal.disk (D.moment old.now.parts.journal.disk) image
        → Finds (MayRecoverSince N.digest_of state (D.fault_count old.now.parts.journal.disk) calls) image }
    ensures next { (calls : List Call) (state : State) (next : D) → Moves old.now calls new.now → InState old.now.parts state
        → IsSoundState state → Crashed ⟦<D as Disk>⟧ old.now.parts.journal.disk new.now.parts.journal.disk next
        → FindsAll (D.files next) (D.uncertain next) (MayRecoverSince N.digest_of state (D.fault_count old.now.parts.journal.disk) calls) }
{}
