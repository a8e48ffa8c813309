//! A port to another server over a link in memory, with a codec of one event.

ghost use Rattle.std.specs.Prelude.{◌≡◌};
ghost use Rattle.client_acceptance.specs.DropTexts.{stage_reply};

use http_wire::Wire;
use office_model::{Answer, BrokenRule, Event, Port, Refusal};
use remote_port::{Asked, Codec, PortEnd, RemotePort};
use slow_links::link_of;
use std::alloc::{AllocError, Global};
use std::test::Fail;
use stream_traits::MemoryLink;

/// The end of a stage is asked for; 200 says that it was carried out, and 404 that there is none.
#[derive(Drop)]
struct DropCodec;

impl Codec for DropCodec {
    ghost use Rattle.std.specs.Prelude.{◌≡◌, Some, ⊤};
    ghost use Rattle.client_acceptance.specs.DropTexts.{may, request_of, refusal_of, reply_of};

    ghost may = { may };

    ghost request_of = { request_of };

    ghost refusal_of = { refusal_of };

    ghost says = { λ event response reply. reply_of event response ≡ Some reply };

    ghost in_range = { λ event reply. ⊤ };

    ghost at = { λ moment event. event };

    fn request<'a>(alloc: Global, event: &'a Event) -> Result<Option<Asked<'a>>, AllocError> {
        match event {
            Event::StageDrop { stage } => {
                let target = format!(in alloc; "/stages/{stage}")?;
                Ok(Some(Asked {
                    method: "DELETE",
                    target,
                    body: Some(b""),
                }))
            }
            _ => Ok(None),
        }
    }

    fn refusal(_event: &Event) -> Refusal {
        Refusal::Broken(BrokenRule::NoPath)
    }

    fn reply(
        _alloc: Global,
        event: &Event,
        status: u16,
        _body: &[u8],
    ) -> Result<Option<Result<Answer, Refusal>>, AllocError> {
        match event {
            Event::StageDrop { .. } => Ok(stage_reply(status)),
            _ => Ok(None),
        }
    }
}

/// What the status says of the end of a stage.
fn stage_reply(status: u16) -> Option<Result<Answer, Refusal>>
    ensures { result ≡ stage_reply status }
{
    if status == 200 {
        Some(Ok(Answer::Done))
    } else if status == 404 {
        Some(Err(Refusal::Broken(BrokenRule::NoSession)))
    } else {
        None
    }
}

type TestPort = RemotePort<MemoryLink, DropCodec>;

/// A port over a link with this input, and room for so many bytes.
fn port_of(alloc: Global, input: &[u8], room: usize) -> Result<TestPort, Fail> {
    Ok(RemotePort::new(Wire::new(alloc, link_of(alloc, input, room)?)))
}

/// Asks for the end of this stage, and names what comes.
fn drop_stage(alloc: Global, port: &mut TestPort, stage: u64) -> &'static str {
    name_of(&port.call(alloc, &Event::StageDrop { stage }))
}

fn name_of(reply: &Result<Answer, Refusal>) -> &'static str {
    match reply {
        Ok(Answer::Done) => "Done",
        Ok(_) => "another answer",
        Err(Refusal::Broken(BrokenRule::NoSession)) => "NoSession",
        Err(Refusal::Broken(BrokenRule::NoPath)) => "NoPath",
        Err(Refusal::Memory) => "Memory",
        Err(_) => "another refusal",
    }
}

fn expect(is: bool, what: &'static str) -> Result<(), Fail> {
    if is { Ok(()) } else { Err(Fail::new(what)) }
}

/// These bytes were written, and all were sent.
fn expect_output(port: TestPort, output: &[u8]) -> Result<(), Fail> {
    let link = port.into_wire().into_link();
    expect(
        link.output() == output && link.sent() == output,
        "other requests",
    )
}

const FIRST: &[u8] = b"DELETE /stages/1 HTTP/1.1\r\nHost: b\r\nContent-Length: 0\r\n\r\n";

const BOTH: &[u8] =
    b"DELETE /stages/1 HTTP/1.1\r\nHost: b\r\nContent-Length: 0\r\n\r\nDELETE /stages/2 HTTP/1.1\r\nHost: b\r\nContent-Length: 0\r\n\r\n";

const DONE: &[u8] = b"HTTP/1.1 200 OK\r\nContent-Length: 2\r\n\r\n{}";

const DONE_AND_NONE: &[u8] =
    b"HTTP/1.1 200 OK\r\nContent-Length: 2\r\n\r\n{}HTTP/1.1 404 Not Found\r\nContent-Length: 2\r\n\r\n{}";

#[test]
fn a_call_is_answered_and_another_refused(rt: HostRuntime) -> Result<(), Fail> {
    let alloc = rt.alloc();
    let mut port = port_of(alloc, DONE_AND_NONE, 1_000)?;
    expect(
        drop_stage(alloc, &mut port, 1) == "Done",
        "another first reply",
    )?;
    expect(
        drop_stage(alloc, &mut port, 2) == "NoSession",
        "another second reply",
    )?;
    expect(port.end() == None, "an end")?;
    expect_output(port, BOTH)
}

#[test]
fn an_event_without_a_request_is_refused_and_the_port_goes_on(rt: HostRuntime) -> Result<(), Fail> {
    let alloc = rt.alloc();
    let mut port = port_of(alloc, DONE, 1_000)?;
    let reply = port.call(alloc, &Event::Sweep);
    expect(name_of(&reply) == "NoPath", "another refusal")?;
    expect(drop_stage(alloc, &mut port, 1) == "Done", "another reply")?;
    expect_output(port, FIRST)
}

/// What ends a port, with the room of its link, and why it ended.
const ENDS: &[(&[u8], usize, PortEnd)] = &[
    (
        b"HTTP/1.1 200 OK\r\nContent-Length: 2\r\n\r\n{",
        1_000,
        PortEnd::Foreign,
    ),
    (b"", 1_000, PortEnd::Foreign),
    (b"HTTP/2 200\r\n\r\n", 1_000, PortEnd::Foreign),
    (
        b"HTTP/1.1 507 Insufficient Storage\r\nContent-Length: 0\r\n\r\n",
        1_000,
        PortEnd::Silent(507),
    ),
    (
        b"HTTP/1.1 200 OK\r\nContent-Length: 67108865\r\n\r\n{}",
        1_000,
        PortEnd::Memory,
    ),
    (
        b"HTTP/1.1 200 OK\r\nContent-Length: 2\r\n\r\n{}",
        20,
        PortEnd::Link,
    ),
];

/// A call over such a link ends the port, and a call behind it writes nothing.
fn expect_end(alloc: Global, input: &[u8], room: usize, end: PortEnd) -> Result<(), Fail> {
    let mut port = port_of(alloc, input, room)?;
    expect(drop_stage(alloc, &mut port, 1) == "Memory", "a reply")?;
    expect(
        drop_stage(alloc, &mut port, 2) == "Memory",
        "a reply behind an end",
    )?;
    expect(port.end() == Some(end), "another end")?;
    let link = port.into_wire().into_link();
    expect(FIRST.starts_with(link.output()), "more was written")
}

#[test]
fn each_end_is_told_and_nothing_is_written_behind_it(rt: HostRuntime) -> Result<(), Fail> {
    for (input, room, end) in ENDS {
        expect_end(rt.alloc(), input, *room, *end)?;
    }
    Ok(())
}
