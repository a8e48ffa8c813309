// The lock, its passes, and their calls.
ghost use Rattle.std.specs.Prelude.{◌≡◌, ◌+◌, ◌<◌, ◌^◌, ◌∷◌, ◌++◌, [], List, Bool, true, Some, IfOk, IfErr, All, map};
ghost use Rattle.std.specs.Bool.{OnTrue, OnFalse};
ghost use Rattle.turn_lock.specs.declared.object.Entry.{Entry};
ghost use Rattle.turn_lock.specs.declared.steps.Held.TheVariants.{Home, Out};
ghost use Rattle.turn_lock.specs.History.{entry, caller, idle, is_live, with_child, new_child, with_call, own_number};
ghost use Rattle.turn_lock.specs.History.{stands_from, Fits, StoodIn, Extends, Met, StandsForAll};
ghost use Rattle.turn_lock.specs.Rule.{waits, has_turn};

use crate::object::{Object, View};
use crate::patience::wait_a_little;
use crate::steps::{
    DrawTicket, FindLonger, Held, JoinPasses, PassOn, SplitPass, TakeTurn, TicketRule,
};
use atomic_table::{Seat, Table, TableRule};
use std::alloc::{AllocFailed, Global};
use std::marker::PhantomData;
use std::snapshot::Snapshot;
use std::sync::Wait;

/// A table of two words and one slot: the next ticket, the ticket that is served, and the object.
#[derive(Drop)]
pub struct TicketLock<S: Drop, V, K, P: TableRule<S, V, K>> {
    table: Table<S, V, K, P, Global>,
    ghost sized: { (table.shared.table_id.words ≡ 2) × (table.shared.table_id.slots ≡ 1) },
}

/// A lock round an object, which its callers use one at a time, in the order of their tickets.
pub type Turn<O> = TicketLock<
    Held<O, <O as Object>::Ask, <O as Object>::Answer>,
    View<O, <O as Object>::Ask, <O as Object>::Answer>,
    Snapshot<O>,
    TicketRule<O>,
>;

/// What a view is between calls.
pub trait Resting<V> {
    ghost rest: { V → V };

    ghost lives: { V → Bool };
}

/// Between calls a view has neither a ticket nor the turn.
pub struct BetweenCalls;

impl<O, A, B> Resting<View<O, A, B>> for BetweenCalls {
    ghost use Rattle.turn_lock.specs.History.{idle, is_live};

    ghost rest = { λ v. idle v.opening v.seen v.callers };

    ghost lives = { λ v. is_live v.callers };
}

/// A seat at the table that rests.
#[derive(Drop)]
pub struct RestingSeat<S: Drop, V, L: Resting<V>> {
    seat: Seat<S, V>,
    of: PhantomData<L>,
    pub ghost idle: { (seat.me ≡ (L.rest seat.me.0, [])) × (L.lives seat.me.0 ≡ true) },
}

/// A caller's token, of no bytes. Between calls it has neither a ticket nor the turn.
pub type Pass<O> = RestingSeat<
    Held<O, <O as Object>::Ask, <O as Object>::Answer>,
    View<O, <O as Object>::Ask, <O as Object>::Answer>,
    BetweenCalls,
>;

// What a pass steps with.
type PassSeat<O> = Seat<
    Held<O, <O as Object>::Ask, <O as Object>::Answer>,
    View<O, <O as Object>::Ask, <O as Object>::Answer>,
>;

impl<O: Object> Turn<O> {
    /// A lock round the object, and the first pass: its number is empty, and it has seen no calls. Without
    /// memory the object comes back.
    pub fn new(alloc: Global, object: O) -> Result<(Turn<O>, Pass<O>), AllocFailed<O>>
        ensures ok { IfOk result (λ t. (t.1.seat.table_id ≡ t.0.table.shared.table_id)
            × (t.1.seat.me ≡ (idle (Some object) [] (caller [] 0 [] ∷ []), []))) }
        ensures err { IfErr result (λ failed. failed.value ≡ object) }
    {
        let mut slots = Vec::new(alloc);
        let opening = Snapshot::of(&object);
        if let Err(failed) = slots.push(Held::Home(object)) {
            let Held::Home(object) = failed.value else {
                unreachable!()
            };
            return Err(AllocFailed { value: object });
        }
        match Table::new(alloc, &[0, 0], slots, &opening) {
            Ok((table, seat)) => Ok((
                TicketLock { table },
                RestingSeat {
                    seat,
                    of: PhantomData,
                },
            )),
            Err(refused) => Err(AllocFailed {
                value: only_object(refused.slots),
            }),
        }
    }
}

// The object of the only slot.
fn only_object<O: Object>(mut slots: Vec<Held<O, O::Ask, O::Answer>>) -> O
    requires { (o : O) × (slots.items ≡ Home o ∷ []) }
    ensures { slots.items ≡ Home result ∷ [] }
{
    let Some(Held::Home(object)) = slots.pop() else {
        unreachable!()
    };
    object
}

impl<O: Object> Turn<O> {
    // Draws the ticket, if it is the next one.
    fn try_draw(&self, pass: &mut PassSeat<O>, ticket: u64) -> bool
        requires own { pass.old.table_id ≡ self.now.table.shared.table_id }
        requires idle { pass.old.me ≡ (idle pass.old.me.0.opening pass.old.me.0.seen pass.old.me.0.callers, []) }
        requires fits { ticket + 1 < 2 ^ 64 }
        ensures own { (pass.new.table_id ≡ pass.old.table_id) × (pass.new.id ≡ pass.old.id) }
        ensures drawn { OnTrue result (pass.new.me ≡ (waits pass.old.me.0.opening ticket pass.old.me.0.seen pass.old.me.0.callers, [])) }
        ensures same { OnFalse result (pass.new.me ≡ pass.old.me) }
    {
        self.table
            .shared
            .compare_exchange::<DrawTicket>(pass, 0, ticket, ticket + 1)
            == ticket
    }

    // Takes the slot, if the ticket is served.
    fn try_turn(&self, pass: &mut PassSeat<O>, ticket: u64) -> bool
        requires own { pass.old.table_id ≡ self.now.table.shared.table_id }
        requires waiting { pass.old.me ≡ (waits pass.old.me.0.opening ticket pass.old.me.0.seen pass.old.me.0.callers, []) }
        requires live { is_live pass.old.me.0.callers ≡ true }
        ensures own { (pass.new.table_id ≡ pass.old.table_id) × (pass.new.id ≡ pass.old.id) }
        ensures taken { OnTrue result ((o : O) × (between : List (Entry O.Ask O.Answer))
            × (pass.new.me ≡ (
              has_turn pass.old.me.0.opening ticket (pass.old.me.0.seen ++ between)
                  pass.old.me.0.callers,
              (0, Home o) ∷ [],
            ))
            × stands_from O.stands pass.old.me.0.opening o (pass.old.me.0.seen ++ between)
            × Fits (pass.old.me.0.seen ++ between) pass.old.me.0.callers) }
        ensures same { OnFalse result (pass.new.me ≡ pass.old.me) }
    {
        self.table.shared.load::<TakeTurn<O>>(pass, 1) == ticket
    }

    // Takes the object out of the slot.
    fn take_object(&self, pass: &mut PassSeat<O>) -> O
        requires own { pass.old.table_id ≡ self.now.table.shared.table_id }
        requires turn { (o : O) × (pass.old.me.1 ≡ (0, Home o) ∷ []) }
        ensures own { (pass.new.table_id ≡ pass.old.table_id) × (pass.new.id ≡ pass.old.id) }
        ensures out { pass.new.me ≡ (pass.old.me.0, (0, Out) ∷ []) }
        ensures object { pass.old.me.1 ≡ (0, Home result) ∷ [] }
    {
        let Held::Home(object) = self.table.shared.exchange(pass, 0, Held::Out) else {
            unreachable!()
        };
        object
    }

    // Puts the object into the slot.
    fn put_object_back(&self, pass: &mut PassSeat<O>, object: O)
        requires own { pass.old.table_id ≡ self.now.table.shared.table_id }
        requires turn { pass.old.me.1 ≡ (0, Out) ∷ [] }
        ensures own { (pass.new.table_id ≡ pass.old.table_id) × (pass.new.id ≡ pass.old.id) }
        ensures in_slot { pass.new.me ≡ (pass.old.me.0, (0, Home object) ∷ []) }
    {
        self.table.shared.exchange(pass, 0, Held::Home(object));
    }

    // Records the call, gives the slot back and serves the next ticket.
    fn pass_on(&self, pass: &mut PassSeat<O>, ticket: u64, ask: &O::Ask, answer: &O::Answer)
        requires own { pass.old.table_id ≡ self.now.table.shared.table_id }
        requires turn { pass.old.me.0 ≡ has_turn pass.old.me.0.opening ticket pass.old.me.0.seen pass.old.me.0.callers }
        requires object { (o : O) × (pass.old.me.1 ≡ (0, Home o) ∷ [])
            × stands_from O.stands pass.old.me.0.opening o
            (pass.old.me.0.seen ++ entry (own_number pass.old.me.0.callers) ask.now answer.now ∷ []) }
        requires live { is_live pass.old.me.0.callers ≡ true }
        ensures own { (pass.new.table_id ≡ pass.old.table_id) × (pass.new.id ≡ pass.old.id) }
        ensures ended { pass.new.me ≡ (
          idle pass.old.me.0.opening
              (pass.old.me.0.seen ++ entry (own_number pass.old.me.0.callers) ask.now answer.now ∷ [])
              (with_call ask.now answer.now pass.old.me.0.callers),
          [],
        ) }
        ensures fits { Fits (pass.old.me.0.seen ++ entry (own_number pass.old.me.0.callers) ask.now answer.now ∷ [])
            (with_call ask.now answer.now pass.old.me.0.callers) }
    {
        let said = Held::Call(Snapshot::of(ask), Snapshot::of(answer));
        self.table
            .shared
            .compare_exchange_with::<PassOn>(pass, 1, ticket, ticket.wrapping_add(1), &said);
    }

    // Draws the next ticket. At ticket 2^64 - 1 no draw is tried, and the caller waits for good.
    fn draw_ticket<R: Wait>(&self, rt: &R, pass: &mut PassSeat<O>) -> u64
        requires own { pass.old.table_id ≡ self.now.table.shared.table_id }
        requires idle { pass.old.me ≡ (idle pass.old.me.0.opening pass.old.me.0.seen pass.old.me.0.callers, []) }
        ensures own { (pass.new.table_id ≡ pass.old.table_id) × (pass.new.id ≡ pass.old.id) }
        ensures drawn { pass.new.me ≡ (waits pass.old.me.0.opening result pass.old.me.0.seen pass.old.me.0.callers, []) }
    {
        for _ in rt.forever() {
            let ticket = self.table.shared.peek(0);
            if ticket < u64::MAX && self.try_draw(pass, ticket) {
                return ticket;
            }
        }
        unreachable!()
    }

    // Looks until the ticket is served, and waits a little between two looks.
    fn wait_for_turn<R: Wait>(&self, rt: &R, pass: &mut PassSeat<O>, ticket: u64)
        requires own { pass.old.table_id ≡ self.now.table.shared.table_id }
        requires waiting { pass.old.me ≡ (waits pass.old.me.0.opening ticket pass.old.me.0.seen pass.old.me.0.callers, []) }
        requires live { is_live pass.old.me.0.callers ≡ true }
        ensures own { (pass.new.table_id ≡ pass.old.table_id) × (pass.new.id ≡ pass.old.id) }
        ensures taken { (o : O) × (between : List (Entry O.Ask O.Answer))
            × (pass.new.me ≡ (
              has_turn pass.old.me.0.opening ticket (pass.old.me.0.seen ++ between)
                  pass.old.me.0.callers,
              (0, Home o) ∷ [],
            ))
            × stands_from O.stands pass.old.me.0.opening o (pass.old.me.0.seen ++ between)
            × Fits (pass.old.me.0.seen ++ between) pass.old.me.0.callers }
    {
        let mut looks = 0;
        for _ in rt.forever() {
            if self.try_turn(pass, ticket) {
                return;
            }
            wait_a_little(rt, looks);
            looks = looks.saturating_add(1);
        }
        unreachable!()
    }
}

impl<O: Object> Turn<O> {
    /// Asks the object, in this pass's turn, and waits for it. The answer is the object's at the end of one legal
    /// history, which begins with all that the pass had seen, ends with this call, and has of the pass's calls
    /// just those that it made, each once, in order; the pass has then seen it whole.
    pub fn call<R: Wait>(&self, rt: &R, pass: &mut Pass<O>, ask: &O::Ask) -> O::Answer
        requires own { pass.old.seat.table_id ≡ self.now.table.shared.table_id }
        ensures own { (pass.new.seat.table_id ≡ pass.old.seat.table_id) × (pass.new.seat.id ≡ pass.old.seat.id) }
        ensures call { Extends O.stands pass.old.seat.me.0 ask.now result pass.new.seat.me.0 }
    {
        let ticket = self.draw_ticket(rt, &mut pass.seat);
        self.wait_for_turn(rt, &mut pass.seat, ticket);
        let mut object = self.take_object(&mut pass.seat);
        let answer = object.act(ask);
        self.put_object_back(&mut pass.seat, object);
        self.pass_on(&mut pass.seat, ticket, ask, &answer);
        answer
    }

    /// A further pass, for another caller: it has seen as much, has a number that no other pass has, and no calls.
    pub fn pass(&self, pass: &mut Pass<O>) -> Pass<O>
        requires own { pass.old.seat.table_id ≡ self.now.table.shared.table_id }
        ensures kept { (pass.new.seat.table_id ≡ pass.old.seat.table_id) × (pass.new.seat.id ≡ pass.old.seat.id)
            × (pass.new.seat.me ≡ (idle pass.old.seat.me.0.opening pass.old.seat.me.0.seen (with_child pass.old.seat.me.0.callers), [])) }
        ensures given { (result.seat.table_id ≡ pass.old.seat.table_id)
            × (result.seat.me ≡ (idle pass.old.seat.me.0.opening pass.old.seat.me.0.seen (new_child pass.old.seat.me.0.callers), [])) }
    {
        RestingSeat {
            seat: self.table.shared.split_seat::<SplitPass>(&mut pass.seat),
            of: PhantomData,
        }
    }

    /// Two passes meet: both have stood in one legal history. The first has then seen the longer of theirs, and
    /// has the callers of both.
    pub fn meet(&self, pass: &mut Pass<O>, other: Pass<O>)
        requires own { (pass.old.seat.table_id ≡ self.now.table.shared.table_id) × (other.seat.table_id ≡ self.now.table.shared.table_id) }
        ensures own { (pass.new.seat.table_id ≡ pass.old.seat.table_id) × (pass.new.seat.id ≡ pass.old.seat.id) }
        ensures met { Met O.stands pass.old.seat.me.0 other.seat.me.0 pass.new.seat.me.0 }
    {
        let RestingSeat { seat, of: _ } = other;
        self.table
            .shared
            .join_seat::<JoinPasses>(&mut pass.seat, seat);
        self.table.shared.load::<FindLonger<O>>(&mut pass.seat, 1);
    }

    // Meets each of the others.
    fn meet_all(&self, mut pass: Pass<O>, mut others: Vec<Pass<O>>) -> Pass<O>
        requires own { pass.seat.table_id ≡ self.now.table.shared.table_id }
        requires others { All (λ p. p.seat.table_id ≡ self.now.table.shared.table_id) others.items }
        ensures own { result.seat.table_id ≡ self.now.table.shared.table_id }
        ensures opened { result.seat.me.0.opening ≡ pass.seat.me.0.opening }
        ensures stood { (log : List (Entry O.Ask O.Answer)) → StoodIn log result.seat.me.0
            → StoodIn log pass.seat.me.0 × All (λ p. StoodIn log p.seat.me.0) others.items }
    {
        while let Some(other) = others.pop() {
            self.meet(&mut pass, other);
        }
        pass
    }

    /// Ends the lock and gives the object back, which stands for the whole history: each of these passes has seen
    /// a beginning of it, and its callers' calls are the entries of their numbers. If the first pass and every
    /// pass split from it, directly or through others, are among these or were met by one of them, the history
    /// has no other calls. It waits for its turn as `call` does.
    pub fn close<R: Wait>(self, rt: &R, pass: Pass<O>, others: Vec<Pass<O>>) -> O
        requires own { pass.seat.table_id ≡ self.table.shared.table_id }
        requires others { All (λ p. p.seat.table_id ≡ self.table.shared.table_id) others.items }
        ensures { StandsForAll O.stands pass.seat.me.0 (map (λ p. p.seat.me.0) others.items) result }
    {
        let RestingSeat { mut seat, of: _ } = self.meet_all(pass, others);
        let ticket = self.draw_ticket(rt, &mut seat);
        self.wait_for_turn(rt, &mut seat, ticket);
        let object = self.take_object(&mut seat);
        drop(seat);
        drop(self);
        object
    }
}
