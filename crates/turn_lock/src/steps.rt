// The rule of the lock's table, and what its steps tell.
ghost use Rattle.std.specs.Prelude.{[], ◌∷◌, ◌++◌, Some, None};

use crate::object::{Object, View};
use atomic_table::{Join, Play, Split, TableRule};
use std::marker::PhantomData;
use std::snapshot::Snapshot;

/// What lies in the slot, or is said of a call.
#[derive(Drop)]
pub enum Held<T: Drop, A, B> {
    Home(T),
    Out,
    Call(Snapshot<A>, Snapshot<B>),
}

/// The next ticket, the ticket that is served, the slot and all views agree with one history.
pub struct TicketRule<O> {
    of: PhantomData<O>,
}

impl<O: Object> TableRule<Held<O, O::Ask, O::Answer>, View<O, O::Ask, O::Answer>, Snapshot<O>>
    for TicketRule<O> {
    ghost use Rattle.turn_lock.specs.History.{idle, caller};
    ghost use Rattle.turn_lock.specs.Rule.{Keeps};

    ghost holds = { λ opening. Keeps (O.stands opening.value) opening.value };

    ghost first = { λ opening. idle (Some opening.value) [] (caller [] 0 [] ∷ []) };
}

/// A ticket was drawn if the word was found as expected.
pub struct DrawTicket;

impl<O: Object> Play<Held<O, O::Ask, O::Answer>, View<O, O::Ask, O::Answer>> for DrawTicket {
    ghost use Rattle.turn_lock.specs.Rule.{Drew};

    ghost then = { Drew };
}

/// The slot was taken if the ticket is the one that is served.
pub struct TakeTurn<O> {
    of: PhantomData<O>,
}

impl<O: Object> Play<Held<O, O::Ask, O::Answer>, View<O, O::Ask, O::Answer>> for TakeTurn<O> {
    ghost use Rattle.turn_lock.specs.History.{stands_from};
    ghost use Rattle.turn_lock.specs.Rule.{Looked};

    ghost then = { λ st me. Looked (stands_from O.stands me.0.opening) st me };
}

/// The call was recorded, the slot given back, and the next ticket is served.
pub struct PassOn;

impl<O: Object> Play<Held<O, O::Ask, O::Answer>, View<O, O::Ask, O::Answer>> for PassOn {
    ghost use Rattle.turn_lock.specs.Rule.{Ended};

    ghost then = { Ended };
}

/// A pass is cut in two: the second has a number of its own and no calls.
pub struct SplitPass;

impl<O, A, B> Split<View<O, A, B>> for SplitPass {
    ghost use Rattle.turn_lock.specs.History.{idle, with_child, new_child};

    ghost left = { λ v. idle v.opening v.seen (with_child v.callers) };

    ghost right = { λ v. idle v.opening v.seen (new_child v.callers) };
}

/// Two passes meet: the first has the callers of both, and the second is spent.
pub struct JoinPasses;

impl<O, A, B> Join<View<O, A, B>> for JoinPasses {
    ghost use Rattle.turn_lock.specs.History.{idle};
    ghost use Rattle.turn_lock.specs.Rule.{meets};

    ghost both = { λ v w. meets v.opening v.seen w.seen (v.callers ++ w.callers) };

    ghost spent = { idle None [] [] };
}

/// The longer of two histories was found.
pub struct FindLonger<O> {
    of: PhantomData<O>,
}

impl<O: Object> Play<Held<O, O::Ask, O::Answer>, View<O, O::Ask, O::Answer>> for FindLonger<O> {
    ghost use Rattle.turn_lock.specs.History.{stands_from};
    ghost use Rattle.turn_lock.specs.Rule.{Learned};

    ghost then = { λ st me. Learned (stands_from O.stands me.0.opening) st me };
}
