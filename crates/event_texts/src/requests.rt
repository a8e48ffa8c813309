//! The request of an event.

ghost use Rattle.std.specs.Prelude.{◌≡◌, IfOk};
ghost use Rattle.event_texts.specs.Requests.{request_of};

use crate::targets::{backups_target, next_target, restore_target, restores_target};
use office_model::Event;
use std::alloc::{AllocError, Global};
use std::marker::Model;

/// What a client writes of a request; it has no body.
#[derive(Drop)]
pub struct EventRequest {
    pub method: &'static str,
    pub target: String,
}

impl Model for EventRequest {
    ghost use Rattle.std.specs.Prelude.{string_bytes};
    ghost use Rattle.event_texts.specs.Requests.{RequestTexts};

    ghost Value = { RequestTexts };

    ghost view = { λ r. record { method = r.method.now; target = string_bytes r.target } };
}

/// The request that asks for an event: for those that a pull asks for, and None for the others.
pub fn request_of(alloc: Global, event: &Event) -> Result<Option<EventRequest>, AllocError>
    ensures { IfOk result (λ found. found ≡ request_of event.now) }
{
    match event {
        Event::Backups { host } => {
            let target = backups_target(alloc, host)?;
            Ok(Some(EventRequest {
                method: "GET",
                target,
            }))
        }
        Event::OpenRead { host, number, base } => {
            let target = restores_target(alloc, host, *number, *base)?;
            Ok(Some(EventRequest {
                method: "POST",
                target,
            }))
        }
        Event::ReadNext { restore } => {
            let target = next_target(alloc, *restore)?;
            Ok(Some(EventRequest {
                method: "GET",
                target,
            }))
        }
        Event::CloseRead { restore } => {
            let target = restore_target(alloc, *restore)?;
            Ok(Some(EventRequest {
                method: "DELETE",
                target,
            }))
        }
        _ => Ok(None),
    }
}
