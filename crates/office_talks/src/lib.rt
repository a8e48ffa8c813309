//! Talks with an office through a port, for tests: what is asked is the line and the body of a request, and what is to be answered the
//! body of its response. It knows events and replies as requests and responses say them, and no store. A test is a table of rows.
//!
//! A call: `expect_rows(alloc, &mut TreeOffice::new(alloc, Md5Namer), moment_at(NOW), &[HOST])?` adds a host to an office in memory.
#![tactic(auto)]

use backup_rules::Rules;
use http_heads::{Front, Head, read_front};
use http_routes::router;
use office_model::{Answer, Event, Port, Refusal};
use reply_bodies::{answer_body, answer_text, refusal_text};
use request_events::{Defaults, event_of, plan_of};
use std::alloc::{AllocError, Global};
use std::test::Fail;
use stream_traits::Moment;
use wake_schedule::Zone;

/// The method and the target of a request, its body, and the body of the response to it: of a file its bytes, else mostly JSON.
#[derive(Clone, Copy)]
pub struct Row(pub &'static str, pub &'static str, pub &'static str);

pub const HOST: Row = Row("PUT /hosts/pc1", "", "{\"host\":\"pc1\"}");

/// A Tuesday, 22:13:20 in UTC.
pub const NOW: u64 = 1_700_000_000;

/// The moment of so many seconds.
pub fn moment_at(seconds: u64) -> Moment {
    Moment::new(seconds).unwrap_or(Moment::first())
}

/// The default rules, and UTC.
fn defaults(alloc: Global) -> Result<Defaults, Fail> {
    let Ok(zone) = Zone::read("UTC") else {
        return Err(Fail::new("no zone"));
    };
    let rules = Rules::defaults(alloc)?;
    Ok(Defaults { rules, zone })
}

/// The event of a head with its body.
fn event_asked(alloc: Global, now: Moment, head: &Head, body: &str) -> Result<Event, Fail> {
    let Ok(router) = router(alloc) else {
        return Err(Fail::new("no router"));
    };
    let defaults = defaults(alloc)?;
    let body = Vec::from_slice(alloc, body.as_bytes())?;
    let Ok(plan) = plan_of(alloc, &router, head) else {
        return Err(Fail::new("no plan"));
    };
    match event_of(alloc, plan, body, now, &defaults) {
        Ok(event) => Ok(event),
        Err(_) => Err(Fail::new("no event")),
    }
}

/// The event that a request asks for at a moment.
pub fn event_at(alloc: Global, now: Moment, ask: &str, body: &str) -> Result<Event, Fail> {
    let count = body.len();
    let text = format!(in alloc; "{ask} HTTP/1.1\r\nHost: b\r\nContent-Length: {count}\r\n\r\n")?;
    match read_front(alloc, text.as_bytes())? {
        Front::Whole { len: _, head } => event_asked(alloc, now, &head, body),
        _ => Err(Fail::new("no head")),
    }
}

/// Whether the response that has an answer to an event has this body.
fn has_body(
    alloc: Global,
    event: &Event,
    answer: &Answer,
    body: &[u8],
) -> Result<bool, AllocError> {
    if let Some(text) = answer_text(event, answer) {
        return Ok(text.as_slice() == body);
    }
    match answer_body(alloc, answer)? {
        Some(long) => Ok(long.as_slice() == body),
        None => Ok(false),
    }
}

/// Whether the response to an event has this body.
pub fn is_told(
    alloc: Global,
    event: &Event,
    reply: &Result<Answer, Refusal>,
    body: &str,
) -> Result<bool, AllocError> {
    match reply {
        Ok(Answer::Content(bytes) | Answer::Part(bytes)) => {
            Ok(bytes.as_slice() == body.as_bytes())
        }
        Ok(answer) => has_body(alloc, event, answer, body.as_bytes()),
        Err(refusal) => Ok(refusal_text(refusal).as_slice() == body.as_bytes()),
    }
}

/// The first part of an open file, which is closed.
fn first_part<P: Port>(alloc: Global, port: &mut P, reader: u64) -> Result<Answer, Refusal> {
    let reply = port.call(alloc, &Event::ReadPart { reader });
    let _closed = port.call(alloc, &Event::CloseFile { reader });
    reply
}

/// The reply to an event. A file that it opens is read, too: the files of tests have no more than one part.
fn reply_to<P: Port>(alloc: Global, port: &mut P, event: &Event) -> Result<Answer, Refusal> {
    match port.call(alloc, event) {
        Ok(Answer::Opened { reader, size: _ }) => first_part(alloc, port, reader),
        reply => reply,
    }
}

/// Asks a port, and says whether it is answered so.
pub fn is_answered<P: Port>(
    alloc: Global,
    port: &mut P,
    now: Moment,
    row: &Row,
) -> Result<bool, Fail> {
    let event = event_at(alloc, now, row.0, row.1)?;
    let reply = reply_to(alloc, port, &event);
    Ok(is_told(alloc, &event, &reply, row.2)?)
}

/// Asks a port, and fails if it isn't answered so.
pub fn expect_row<P: Port>(
    alloc: Global,
    port: &mut P,
    now: Moment,
    row: &Row,
) -> Result<(), Fail> {
    let event = event_at(alloc, now, row.0, row.1)?;
    let reply = reply_to(alloc, port, &event);
    if is_told(alloc, &event, &reply, row.2)? {
        return Ok(());
    }
    let ask = row.0;
    Err(Fail::new(format_args!("{ask}: {reply:?}")))
}

/// Asks a port row by row, all at one moment, and fails likewise.
pub fn expect_rows<P: Port>(
    alloc: Global,
    port: &mut P,
    now: Moment,
    rows: &[Row],
) -> Result<(), Fail> {
    for row in rows {
        expect_row(alloc, port, now, row)?;
    }
    Ok(())
}

/// The place of the first of these rows that a port answers so, each of which asks anew.
pub fn place_answered<P: Port>(
    alloc: Global,
    port: &mut P,
    now: Moment,
    rows: &[Row],
) -> Result<usize, Fail> {
    for (place, row) in rows.iter().enumerate() {
        if is_answered(alloc, port, now, row)? {
            return Ok(place);
        }
    }
    Err(Fail::new("none of these answers"))
}

pub fn expect(holds: bool, text: &'static str) -> Result<(), Fail> {
    if holds { Ok(()) } else { Err(Fail::new(text)) }
}
