ghost use Rattle.std.specs.Prelude.{◌≡◌, IfOk, OnOk};

use crate::told::expect;
use std::alloc::Global;
use std::test::Fail;
use std::thread::{Threads, join};
use stream_traits::*;

/// Sends `count` bytes of a link back to it.
fn echo<L: Link + Drop>(alloc: Global, mut link: L, count: usize) -> Result<(), ReadFault>
    requires { L.sent link ≡ L.written link }
{
    let bytes = read_exactly(alloc, &mut link, count)?;
    if write_all(&mut link, &bytes).is_err() || link.flush().is_err() {
        return Err(ReadFault::Failed);
    }
    Ok(())
}

/// Writes a byte, and says how many bytes went out.
fn write_byte<K: Sink>(sink: &mut K) -> Result<usize, Failed> {
    sink.write(b"x")
}

/// Two readings of a clock.
fn two_readings<C: Clock>(clock: &mut C) -> (u64, u64) {
    (clock.now().seconds(), clock.now().seconds())
}

/// Lends a link to one thread and a clock to another, and says what they gave.
fn write_apart<L: Link + Send, C: Clock>(
    rt: &impl Threads,
    link: &mut L,
    clock: &mut C,
) -> (Result<usize, Failed>, Moment) {
    join(rt, || write_byte(link), || clock.now())
}

/// Moves a link into one thread and a clock into another, and gives both back.
fn move_apart<L: Link + Send + Drop, C: Clock + Drop>(
    rt: &impl Threads,
    mut link: L,
    mut clock: C,
) -> (L, C) {
    join(
        rt,
        move || {
            let _ = write_byte(&mut link);
            link
        },
        move || {
            let _ = clock.now();
            clock
        },
    )
}

/// A link that gives these bytes to be read, has this room, and fails at these calls.
fn link_of(alloc: Global, input: &[u8], room: usize, fails: &[u64]) -> Result<MemoryLink, Fail>
    ensures { IfOk result (λ link. ⟦<MemoryLink as Faults>⟧.sent link ≡ ⟦<MemoryLink as Faults>⟧.written link) }
{
    let input = input.to_vec(alloc)?;
    let fails = fails.to_vec(alloc)?;
    Ok(MemoryLink::new(alloc, input, room, fails)?)
}

fn expect_read<L: Link>(link: &mut L, want: Result<Option<u8>, Failed>) -> Result<(), Fail>
    requires { L.sent link.old ≡ L.written link.old }
    ensures { OnOk result (L.sent link.new ≡ L.written link.new) }
{
    expect(read_byte(link) == want, "another byte")
}

/// Fails unless a write of these bytes gives this, and the link has then written so much.
fn expect_written(
    link: &mut MemoryLink,
    bytes: &[u8],
    want: Result<usize, Failed>,
    output: &[u8],
) -> Result<(), Fail> {
    expect(link.write(bytes) == want, "another write")?;
    expect(link.output() == output, "other bytes were written")
}

fn expect_sent(link: &MemoryLink, sent: &[u8], faults: u64) -> Result<(), Fail> {
    expect(link.sent() == sent, "other bytes were sent")?;
    expect(link.faults() == faults, "another count of faults")
}

#[test]
fn bytes_come_back_in_their_order(rt: HostRuntime) -> Result<(), Fail> {
    let alloc = rt.alloc();
    let mut link = link_of(alloc, b"hello", 16, &[])?;
    expect_read(&mut link, Ok(Some(b'h')))?;
    expect(echo(alloc, &mut link, 4) == Ok(()), "no echo")?;
    expect_sent(&link, b"ello", 0)?;
    expect(write_byte(&mut link) == Ok(1), "another write")?;
    expect(link.output() == b"ellox".as_slice(), "other bytes")?;
    expect_sent(&link, b"ello", 0)
}

#[test]
fn a_claimed_length_takes_no_memory(rt: HostRuntime) -> Result<(), Fail> {
    let alloc = rt.alloc();
    let mut link = link_of(alloc, b"abc", 0, &[])?;
    let got = read_exactly(alloc, &mut link, usize::MAX);
    expect(matches!(got, Err(ReadFault::Ended)), "not ended")?;
    expect_read(&mut link, Ok(None))
}

#[test]
fn listed_calls_and_writes_past_the_room_fail(rt: HostRuntime) -> Result<(), Fail> {
    let mut link = link_of(rt.alloc(), b"abc", 3, &[1, 3])?;
    expect_read(&mut link, Ok(Some(b'a')))?;
    expect_read(&mut link, Err(Failed))?;
    expect_written(&mut link, b"xyzw", Ok(3), b"xyz")?;
    expect(link.flush() == Err(Failed), "flushed")?;
    expect_written(&mut link, b"w", Err(Failed), b"xyz")?;
    expect_sent(&link, b"", 3)
}

fn expect_readings<C: Clock>(clock: &mut C, want: (u64, u64)) -> Result<(), Fail> {
    expect(two_readings(clock) == want, "other readings")
}

/// A clock of the first moment and a later one.
fn clock_of(alloc: Global, late: Moment) -> Result<ListClock, Fail> {
    let mut moments = Vec::new(alloc);
    moments.push(Moment::first())?;
    moments.push(late)?;
    if moments.is_empty() {
        return Err(Fail::new("no moment"));
    }
    Ok(ListClock::new(moments))
}

#[test]
fn a_list_clock_keeps_its_last_moment(rt: HostRuntime) -> Result<(), Fail> {
    let late = Moment::new(137_438_953_471).ok_or("a moment")?;
    expect(Moment::new(137_438_953_472).is_none(), "too late a moment")?;
    let mut clock = clock_of(rt.alloc(), late)?;
    expect_readings(&mut clock, (0, late.seconds()))?;
    expect_readings(&mut clock, (late.seconds(), late.seconds()))
}

fn expect_apart(
    rt: &impl Threads,
    link: &mut MemoryLink,
    clock: &mut FixedClock,
) -> Result<(), Fail> {
    let got = write_apart(rt, link, clock);
    expect(got == (Ok(1), Moment::first()), "another write or moment")
}

#[test]
fn links_and_clocks_go_into_threads(rt: HostRuntime) -> Result<(), Fail> {
    let mut link = link_of(rt.alloc(), b"abc", 2, &[])?;
    let mut clock = FixedClock::new(Moment::first());
    expect_apart(&rt, &mut link, &mut clock)?;
    let (link, mut clock) = move_apart(&rt, link, clock);
    expect(link.output() == b"xx".as_slice(), "other bytes")?;
    expect_readings(&mut clock, (0, 0))
}

/// Holds at a gate, as a connection does.
fn hold_at<G: Gate>(gate: &mut G) {
    gate.hold(0);
}

#[test]
fn an_open_gate_holds_nothing(_rt: HostRuntime) -> Result<(), Fail> {
    let mut gate = OpenGate;
    hold_at(&mut gate);
    Ok(())
}
