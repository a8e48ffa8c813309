//! What follows from the definitions.

ghost use Rattle.office_model.specs.declared.event.Event.{Event};
ghost use Rattle.office_model.specs.Meaning.{Reply};
ghost use Rattle.office_model.specs.Step.{State, meaning_of, IsStep, IsSoundState};
ghost use Rattle.office_model.specs.Partials.{PartialsStay, ParkedIsPartial, ResumedIsPartial, ParkedReads};
ghost use Rattle.office_model.specs.Tokens.{ReceiptsDiffer, OpeningByReceipt, OpeningByDump, CommitByReceipt, OkRepeats, PutByToken, RemoveByToken, FirstAlone};
ghost use Rattle.office_model.specs.KeptIds.{IdsStay};
ghost use Rattle.office_model.specs.OldTables.{NoneJoins, NoneJoinsLater, MigratedIsNone};
ghost use Rattle.office_model.specs.laws.Lawful.{IsLawful};

/// Each event is lawful: carried out in a sound office with its names, it answers what is of its kind and leaves a sound office, in
/// which nothing is held but what was held before and what was put.
pub fn each_event_is_lawful()
    ensures { (event : Event) → IsLawful (meaning_of event) }
{}

/// A step leads from a sound state to a sound one.
pub fn a_step_keeps_a_sound_state()
    ensures { (old : State) (event : Event) (reply : Reply) (new : State) → IsSoundState old → IsStep old event reply new → IsSoundState new }
{}

/// A host keeps its partial through faults, halts and reopenings, until a dump of it is committed or parked, or the partial dropped.
pub fn partials_stay()
    ensures { PartialsStay }
{}

/// What a dump had when it was parked is its host's partial, a dump that is resumed begins with it, and no read of a backup shows it.
pub fn what_is_parked_is_resumed()
    ensures parked { ParkedIsPartial }
    ensures resumed { ResumedIsPartial }
    ensures reads { ParkedReads }
{}

/// A pooled content keeps its name while it is pooled.
pub fn a_pooled_content_keeps_its_name()
    ensures { IdsStay }
{}

/// Among the receipts of a host no two have one token, in every legal history.
pub fn receipts_have_different_tokens()
    ensures { ReceiptsDiffer }
{}

/// An opening or a commit that repeats another has its answer, and a put or a removal that repeats one is Done; all of them leave the
/// office as it was, but for a stage that the put names.
pub fn a_repeated_request_changes_nothing()
    ensures by_receipt { OpeningByReceipt }
    ensures by_dump { OpeningByDump }
    ensures committed { CommitByReceipt }
    ensures ok { OkRepeats }
    ensures put { PutByToken }
    ensures removed { RemoveByToken }
{}

/// Of the puts and removals of one open dump with one token only the first Ok changes a tree, whatever came between it and the next.
pub fn only_the_first_of_a_token_changes()
    ensures { FirstAlone }
{}

/// No event, and so no legal history, makes a host one of those that may have tables of the first layout; the host of a Migrate that was
/// Ok is none of them.
pub fn old_hosts_become_fewer()
    ensures joins { NoneJoins }
    ensures joins_later { NoneJoinsLater }
    ensures migrated { MigratedIsNone }
{}
