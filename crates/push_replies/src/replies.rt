//! Replies.

ghost use Rattle.std.specs.Prelude.{◌≡◌, Ok, Err, IfOk, option_map};
ghost use Rattle.push_replies.specs.Refusals.{refusal_of};
ghost use Rattle.push_replies.specs.Replies.{answer_of, reply_in};

use crate::answers::read_answer;
use crate::refusals::read_refusal;
use office_model::{Answer, Event, Refusal};
use std::alloc::{AllocError, Global};

/// The answer that a response of this status says.
fn answered(
    alloc: Global,
    event: &Event,
    status: u16,
    body: &[u8],
) -> Result<Option<Result<Answer, Refusal>>, AllocError>
    ensures { IfOk result (λ reply. reply ≡ option_map (λ answer. Ok answer) (answer_of event.now status body.now)) }
{
    match read_answer(alloc, event, status, body)? {
        Some(answer) => Ok(Some(Ok(answer))),
        None => Ok(None),
    }
}

/// The refusal that a response says.
fn refused(alloc: Global, body: &[u8]) -> Result<Option<Result<Answer, Refusal>>, AllocError>
    ensures { IfOk result (λ reply. reply ≡ option_map (λ refusal. Err refusal) (refusal_of body.now)) }
{
    match read_refusal(alloc, body)? {
        Some(refusal) => Ok(Some(Err(refusal))),
        None => Ok(None),
    }
}

/// The reply that a response says to an event; none, if it says none.
pub fn read_reply(
    alloc: Global,
    event: &Event,
    status: u16,
    body: &[u8],
) -> Result<Option<Result<Answer, Refusal>>, AllocError>
    ensures { IfOk result (λ reply. reply ≡ reply_in event.now status body.now) }
{
    if status == 200 || status == 201 {
        answered(alloc, event, status, body)
    } else if status == 502 || status == 507 {
        Ok(None)
    } else {
        refused(alloc, body)
    }
}
