//! The codec.

ghost use Rattle.std.specs.Prelude.{◌≡◌};
ghost use Rattle.push_codec.specs.Codec.{is_of_large};

use crate::ranges::event_fits;
use attr_records::PutRule;
use office_model::{Answer, BrokenRule, Event, PutItem, Refusal};
use push_replies::read_reply;
use push_texts::{PushRequest, push_request};
use remote_port::{Asked, Codec};
use std::alloc::{AllocError, Global};

/// What a dump on another server asks for, and what it is answered.
#[derive(Clone, Copy, Debug)]
pub struct PushCodec;

/// Whether an event is of a file that goes by stages, or is too large for a request.
fn is_of_large(event: &Event) -> bool
    ensures { result ≡ is_of_large event.now }
{
    match event {
        Event::Put {
            item: PutItem::Whole(item),
            ..
        } => item.is_large(),
        Event::Put { .. } => true,
        Event::StageOpen { .. } | Event::StagePiece { .. } | Event::StageDrop { .. } => true,
        _ => false,
    }
}

impl Codec for PushCodec {
    ghost use Rattle.push_codec.specs.Codec as spec;

    ghost may = { spec.may };

    ghost request_of = { spec.request_of };

    ghost refusal_of = { spec.refusal_of };

    ghost says = { spec.Says };

    ghost in_range = { spec.InRange };

    ghost at = { spec.at };

    fn request<'a>(alloc: Global, event: &'a Event) -> Result<Option<Asked<'a>>, AllocError> {
        event_fits(event);
        match push_request(alloc, event)? {
            Some(
                PushRequest {
                    method,
                    target,
                    body,
                },
            ) => Ok(Some(Asked {
                method,
                target,
                body,
            })),
            None => Ok(None),
        }
    }

    fn refusal(event: &Event) -> Refusal {
        if is_of_large(event) {
            Refusal::Broken(BrokenRule::Put(PutRule::FileTooLarge))
        } else {
            Refusal::Broken(BrokenRule::NoPath)
        }
    }

    fn reply(
        alloc: Global,
        event: &Event,
        status: u16,
        body: &[u8],
    ) -> Result<Option<Result<Answer, Refusal>>, AllocError> {
        read_reply(alloc, event, status, body)
    }
}
