// Callers that make many calls, alone and beside each other.
ghost use Rattle.std.specs.Prelude.{◌≡◌, ◌≤◌, ◌∷◌, [], List, IfOk, IfErr, length, vec_capacity};
ghost use Rattle.turn_lock.specs.declared.object.Entry.{Entry};
ghost use Rattle.turn_lock.specs.Asked.{Asked, HasBoth};

use crate::lock::{Pass, Turn};
use crate::object::Object;
use std::alloc::{AllocFailed, Global};
use std::sync::Wait;
use std::thread::{Threads, join};

/// Makes these calls one after the other, and gives the answers and the pass. Between two of them the pass has
/// neither a ticket nor the turn, so others' calls may come between.
pub fn ask_all<O: Object, R: Wait>(
    rt: &R,
    turn: &Turn<O>,
    mut pass: Pass<O>,
    asks: &[O::Ask],
    mut answers: Vec<O::Answer>,
) -> (Vec<O::Answer>, Pass<O>)
    requires own { pass.seat.table_id ≡ turn.now.table.shared.table_id }
    requires empty { answers.items ≡ [] }
    requires room { length asks.now ≤ vec_capacity answers }
    ensures own { result.1.seat.table_id ≡ turn.now.table.shared.table_id }
    ensures counted { length result.0.items ≡ length asks.now }
    ensures asked { Asked pass.seat.me.0 asks.now result.0.items result.1.seat.me.0 }
{
    for ask in asks {
        answers.push_reserved(turn.call(rt, &mut pass, ask));
    }
    (answers, pass)
}

// Two threads beside each other: each makes its calls with a pass and room of its own.
fn ask_beside<O: Object + Send, R: Threads + Wait + Sync>(
    rt: &R,
    turn: &Turn<O>,
    first: Pass<O>,
    second: Pass<O>,
    left: &[O::Ask],
    right: &[O::Ask],
    rooms: (Vec<O::Answer>, Vec<O::Answer>),
) -> ((Vec<O::Answer>, Pass<O>), (Vec<O::Answer>, Pass<O>))
where
    O::Answer: Drop + Send,
    O::Ask: Sync,
    requires first { first.seat.table_id ≡ turn.now.table.shared.table_id }
    requires second { second.seat.table_id ≡ turn.now.table.shared.table_id }
    requires empty { (rooms.0.items ≡ []) × (rooms.1.items ≡ []) }
    requires room { (length left.now ≤ vec_capacity rooms.0) × (length right.now ≤ vec_capacity rooms.1) }
    ensures own_first { result.0.1.seat.table_id ≡ turn.now.table.shared.table_id }
    ensures own_second { result.1.1.seat.table_id ≡ turn.now.table.shared.table_id }
    ensures counted_first { length result.0.0.items ≡ length left.now }
    ensures counted_second { length result.1.0.items ≡ length right.now }
    ensures first { Asked first.seat.me.0 left.now result.0.0.items result.0.1.seat.me.0 }
    ensures second { Asked second.seat.me.0 right.now result.1.0.items result.1.1.seat.me.0 }
{
    let (left_room, right_room) = rooms;
    join(
        rt,
        || ask_all(rt, turn, first, left, left_room),
        || ask_all(rt, turn, second, right, right_room),
    )
}

/// Two threads make these calls of one object. Both lists of answers are those of one legal history from the
/// object's opening, which has each list in its order and no other calls; the object that comes back stands for it.
/// Without memory nothing is asked, and the object comes back as it was.
pub fn ask_both<O: Object + Send, R: Threads + Wait + Sync>(
    rt: &R,
    alloc: Global,
    object: O,
    left: &[O::Ask],
    right: &[O::Ask],
) -> Result<(O, Vec<O::Answer>, Vec<O::Answer>), AllocFailed<O>>
where
    O::Answer: Drop + Send,
    O::Ask: Sync,
    ensures ok { IfOk result (λ r. (log : List (Entry O.Ask O.Answer)) × O.stands object r.0 log
        × (length r.1.items ≡ length left.now) × (length r.2.items ≡ length right.now)
        × HasBoth log left.now r.1.items right.now r.2.items) }
    ensures err { IfErr result (λ failed. failed.value ≡ object) }
{
    let Ok(left_room) = Vec::with_capacity(alloc, left.len()) else {
        return Err(AllocFailed { value: object });
    };
    let Ok(right_room) = Vec::with_capacity(alloc, right.len()) else {
        return Err(AllocFailed { value: object });
    };
    let Ok(mut others) = Vec::with_capacity(alloc, 1) else {
        return Err(AllocFailed { value: object });
    };
    let (turn, mut first) = match Turn::new(alloc, object) {
        Ok(made) => made,
        Err(failed) => return Err(failed),
    };
    let second = turn.pass(&mut first);
    let rooms = (left_room, right_room);
    let ((left_answers, first), (right_answers, second)) = ask_beside(
        rt, &turn, first, second, left, right, rooms,
    );
    others.push_reserved(second);
    let object = turn.close(rt, first, others);
    Ok((object, left_answers, right_answers))
}
