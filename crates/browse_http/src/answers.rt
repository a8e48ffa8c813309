//! Responses to calls and to refusals, and how the connection goes on behind them.

ghost use Rattle.std.specs.Prelude.{◌≡◌, IfOk, IfErr, OnOk, IsErrOf};
ghost use Rattle.fault_counts.specs.Counts.{Counted};
ghost use Rattle.http_wire.specs.Wires.{left_of, written_of, faults_of};
ghost use Rattle.reply_bodies.specs.Replies.{long_body};
ghost use Rattle.browse_http.specs.Scripts.{is_memory};
ghost use Rattle.browse_http.specs.Talk.{Refused};
ghost use Rattle.browse_http.specs.Staging.{Lacks};
ghost use Rattle.browse_http.specs.Serving.{Answers, EndsReply, EndsCalled, Responds};

use crate::end::End;
use crate::heads::give_up;
use disk_trait::Bytes;
use http_replies::{write_refusal, write_reply};
use http_wire::Wire;
use office_model::{Answer, Event, Refusal};
use reply_bodies::answer_body;
use request_events::RequestRefusal;
use std::alloc::{AllocError, Global};
use stream_traits::{Failed, Faults, Link};

/// Whether a reply is want of memory.
fn is_memory(reply: &Result<Answer, Refusal>) -> bool
    ensures { result ≡ is_memory reply.now }
{
    matches!(reply, Err(Refusal::Memory))
}

/// The body of a longer answer; or want of memory, for such an answer alone.
fn made_for(alloc: Global, reply: &Result<Answer, Refusal>) -> Result<Option<Bytes>, AllocError>
    ensures made { IfOk result (λ made. IfOk reply.now (λ answer. made ≡ long_body answer)) }
    ensures lacks { IfErr result (λ _. Lacks reply.now) }
{
    match reply {
        Ok(answer) => answer_body(alloc, answer),
        Err(_) => Ok(None),
    }
}

/// Sends the response to a reply, and says how the connection ends if that is the last, or there is no memory for it.
pub fn respond<L: Link>(
    alloc: Global,
    wire: &mut Wire<L>,
    event: &Event,
    reply: &Result<Answer, Refusal>,
    closes: bool,
    is_head: bool,
) -> Result<(), End>
    ensures goes { OnOk result (Answers (written_of wire.old) (written_of wire.new) (event.now, reply.now) closes is_head) }
    ensures ends { IfErr result (EndsReply (written_of wire.old) (written_of wire.new) (event.now, reply.now) closes is_head) }
    ensures left { left_of wire.new ≡ left_of wire.old }
    ensures counted { Counted (faults_of wire.old) (faults_of wire.new) (IsErrOf result End.LinkFault) }
{
    let made = match made_for(alloc, reply) {
        Ok(made) => made,
        Err(AllocError) => return Err(give_up(wire)),
    };
    match write_reply(wire, event, reply, &made, closes, is_head) {
        Ok(()) => {}
        Err(Failed) => return Err(End::LinkFault),
    }
    if is_memory(reply) {
        return Err(End::Memory);
    }
    if closes {
        return Err(End::Ended);
    }
    Ok(())
}

/// Sends the response to a request that is refused, and says how the connection ends if that is the last.
pub fn answer_refused<L: Link>(
    wire: &mut Wire<L>,
    refusal: RequestRefusal,
    closes: bool,
    is_head: bool,
) -> Result<(), End>
    ensures goes { OnOk result (Responds (written_of wire.old) (written_of wire.new) (Refused refusal) closes is_head) }
    ensures ends { IfErr result (EndsCalled (written_of wire.old) (written_of wire.new) (Refused refusal) closes is_head) }
    ensures left { left_of wire.new ≡ left_of wire.old }
    ensures counted { Counted (faults_of wire.old) (faults_of wire.new) (IsErrOf result End.LinkFault) }
{
    match write_refusal(wire, refusal, closes, is_head) {
        Ok(()) => {}
        Err(Failed) => return Err(End::LinkFault),
    }
    if closes {
        return Err(End::Ended);
    }
    Ok(())
}
