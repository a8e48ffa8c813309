use http_bodies::{Body, BodyStop, PIECE_SIZE, next_piece};
use http_wire::Wire;
use slow_links::{SlowLink, link_of};
use std::alloc::Global;
use std::test::Fail;
use stream_traits::{Faults, Link, MemoryLink};

/// Reads a body of at most three pieces.
fn read_pieces<L: Link>(
    alloc: Global,
    wire: &mut Wire<L>,
    body: &mut Body,
    bytes: &mut Vec<u8>,
) -> Result<(), BodyStop> {
    for _ in 0..3 {
        let piece = next_piece(alloc, wire, body)?;
        if bytes.extend_from_slice(piece.as_slice()).is_err() {
            return Err(BodyStop::Memory);
        }
        if piece.len() < PIECE_SIZE {
            break;
        }
    }
    Ok(())
}

/// Compares the input that is left, up to its end.
fn expect_rest<L: Link>(alloc: Global, wire: &mut Wire<L>, rest: &[u8]) -> Result<(), Fail> {
    let mut left = Body::of_length(rest.len() as u64);
    let found = next_piece(alloc, wire, &mut left)?;
    let mut more = Body::of_length(1);
    let end = next_piece(alloc, wire, &mut more);
    if found.as_slice() == rest && matches!(end, Err(BodyStop::Truncated)) {
        return Ok(());
    }
    Err(Fail::new("something else is left"))
}

/// Reads a whole body over a link, and compares what it carries and what is left.
fn expect_over<L: Link + Drop>(
    alloc: Global,
    link: L,
    body: Body,
    carried: &[u8],
    rest: &[u8],
) -> Result<(), Fail> {
    let mut wire = Wire::new(alloc, link);
    let mut place = body;
    let mut bytes = Vec::new(alloc);
    read_pieces(alloc, &mut wire, &mut place, &mut bytes)?;
    if !place.is_done() || bytes.as_slice() != carried {
        return Err(Fail::new("another body"));
    }
    expect_rest(alloc, &mut wire, rest)
}

/// Reads a body that stops over a link, and compares why.
fn expect_stop_over<L: Link + Drop>(
    alloc: Global,
    link: L,
    body: Body,
    stop: BodyStop,
) -> Result<(), Fail> {
    let mut wire = Wire::new(alloc, link);
    let mut place = body;
    let mut bytes = Vec::new(alloc);
    match read_pieces(alloc, &mut wire, &mut place, &mut bytes) {
        Ok(()) => Err(Fail::new("a whole body")),
        Err(other) => {
            if other == stop {
                return Ok(());
            }
            Err(Fail::new("another stop"))
        }
    }
}

/// Reads a whole body in one piece and byte for byte, and compares what was found.
fn expect_body(
    alloc: Global,
    input: &[u8],
    body: Body,
    carried: &[u8],
    rest: &[u8],
) -> Result<(), Fail> {
    expect_over(alloc, link_of(alloc, input, 0)?, body, carried, rest)?;
    let slow = SlowLink {
        link: link_of(alloc, input, 0)?,
    };
    expect_over(alloc, slow, body, carried, rest)
}

/// The same of a body that stops.
fn expect_stop(alloc: Global, input: &[u8], body: Body, stop: BodyStop) -> Result<(), Fail> {
    expect_stop_over(alloc, link_of(alloc, input, 0)?, body, stop)?;
    let slow = SlowLink {
        link: link_of(alloc, input, 0)?,
    };
    expect_stop_over(alloc, slow, body, stop)
}

/// Chunked bodies, what they carry, and what is left behind them.
const WHOLE: [(&[u8], &[u8], &[u8]); 9] = [
    (b"4\r\nhell\r\n1\r\no\r\n0\r\n\r\n", b"hello", b""),
    (b"0\r\n\r\nGET", b"", b"GET"),
    (b"000\r\n\r\n\r\n", b"", b"\r\n"),
    (
        b"5;name=value\r\nhello\r\n0;x\r\nA: b\r\nC: d\r\n\r\nnext",
        b"hello",
        b"next",
    ),
    (b"5 ;a=\"b c\"\r\nhello\r\n0\r\n\r\n", b"hello", b""),
    (b"00a\r\n0123456789\r\n0\r\n\r\n", b"0123456789", b""),
    (b"A\r\n0123456789\r\n0\r\n\r\n", b"0123456789", b""),
    (b"5\r\n0\r\n\r\n\r\n0\r\n\r\n", b"0\r\n\r\n", b""),
    (b"1\r\na\r\n0\r\nContent-Length: 9\r\n\r\n", b"a", b""),
];

/// Chunked bodies that break off, and why.
const STOPPED: [(&[u8], BodyStop); 24] = [
    (b"zz\r\nhello", BodyStop::BadChunk),
    (b"\r\n", BodyStop::BadChunk),
    (b"-1\r\n", BodyStop::BadChunk),
    (b"+5\r\nhello\r\n0\r\n\r\n", BodyStop::BadChunk),
    (b"0x5\r\nhello\r\n0\r\n\r\n", BodyStop::BadChunk),
    (b" 5\r\nhello\r\n0\r\n\r\n", BodyStop::BadChunk),
    (b"5 5\r\nhello\r\n0\r\n\r\n", BodyStop::BadChunk),
    (b"5\nhello\r\n0\r\n\r\n", BodyStop::BadChunk),
    (b"5;a\nhello\r\n0\r\n\r\n", BodyStop::BadChunk),
    (b"5;a\rb\r\nhello\r\n0\r\n\r\n", BodyStop::BadChunk),
    (b"5\r\nhello0\r\n\r\n", BodyStop::BadChunk),
    (b"5\r\nhello\n0\r\n\r\n", BodyStop::BadChunk),
    (b"5\r\nhello!\r\n0\r\n\r\n", BodyStop::BadChunk),
    (b"5\r\nhello\r0\r\n\r\n", BodyStop::BadChunk),
    (b"0\r\nA : b\r\n\r\n", BodyStop::BadChunk),
    (b"0\r\nhello\r\n\r\n", BodyStop::BadChunk),
    (b"10000000000000000\r\n", BodyStop::BadChunk),
    (b"10000000000\r\n", BodyStop::TooLarge),
    (b"fffffffffffffff\r\n", BodyStop::TooLarge),
    (b"1\r\na\r\nffffffffff\r\n", BodyStop::TooLarge),
    (b"ffffffffff\r\na", BodyStop::Truncated),
    (b"1\r\na\r\nfffffffffe\r\na", BodyStop::Truncated),
    (b"0\r\nA: b\r\n", BodyStop::Truncated),
    (b"0\r\n\r", BodyStop::Truncated),
];

#[test]
fn chunked_bodies_carry_their_chunks(rt: HostRuntime) -> Result<(), Fail> {
    for (input, body, rest) in WHOLE {
        expect_body(rt.alloc(), input, Body::chunked(), body, rest)?;
    }
    Ok(())
}

#[test]
fn chunks_that_break_their_grammar_stop_the_reading(rt: HostRuntime) -> Result<(), Fail> {
    for (input, stop) in STOPPED {
        expect_stop(rt.alloc(), input, Body::chunked(), stop)?;
    }
    Ok(())
}

/// A small body with an extension and a trailer.
const SMALL: &[u8] = b"4;x=y\r\nhell\r\n1\r\no\r\n0\r\nA: b\r\n\r\n";

#[test]
fn a_chunked_body_that_is_cut_is_truncated(rt: HostRuntime) -> Result<(), Fail> {
    expect_body(rt.alloc(), SMALL, Body::chunked(), b"hello", b"")?;
    for cut in 0..SMALL.len() {
        expect_stop(
            rt.alloc(),
            &SMALL[..cut],
            Body::chunked(),
            BodyStop::Truncated,
        )?;
    }
    Ok(())
}

#[test]
fn a_body_of_a_length_has_as_many_bytes(rt: HostRuntime) -> Result<(), Fail> {
    let alloc = rt.alloc();
    expect_body(alloc, b"hello", Body::of_length(0), b"", b"hello")?;
    expect_body(alloc, b"hello", Body::of_length(3), b"hel", b"lo")?;
    expect_body(alloc, b"hello", Body::of_length(5), b"hello", b"")?;
    expect_stop(alloc, b"hello", Body::of_length(6), BodyStop::Truncated)?;
    expect_stop(
        alloc,
        b"",
        Body::of_length(1_099_511_627_775),
        BodyStop::Truncated,
    )
}

/// The front, so many times the middle, and the end.
fn repeated(
    alloc: Global,
    front: &[u8],
    middle: &[u8],
    times: usize,
    end: &[u8],
) -> Result<Vec<u8>, Fail> {
    let mut bytes = front.to_vec(alloc)?;
    for _ in 0..times {
        bytes.extend_from_slice(middle)?;
    }
    bytes.extend_from_slice(end)?;
    Ok(bytes)
}

#[test]
fn a_chunk_line_has_1024_bytes_at_most(rt: HostRuntime) -> Result<(), Fail> {
    let alloc = rt.alloc();
    let most = repeated(alloc, b"1;", b"x", 1_020, b"\r\na\r\n0\r\n\r\n")?;
    expect_body(alloc, most.as_slice(), Body::chunked(), b"a", b"")?;
    let more = repeated(alloc, b"1;", b"x", 1_021, b"\r\na\r\n0\r\n\r\n")?;
    expect_stop(alloc, more.as_slice(), Body::chunked(), BodyStop::BadChunk)?;
    let endless = repeated(alloc, b"1;", b"x", 1_022, b"")?;
    expect_stop(
        alloc,
        endless.as_slice(),
        Body::chunked(),
        BodyStop::BadChunk,
    )?;
    let last = repeated(alloc, b"1\r\na\r\n0;", b"x", 1_021, b"\r\n\r\n")?;
    expect_stop(alloc, last.as_slice(), Body::chunked(), BodyStop::BadChunk)
}

#[test]
fn a_trailer_has_64_fields_at_most(rt: HostRuntime) -> Result<(), Fail> {
    let alloc = rt.alloc();
    let most = repeated(alloc, b"1\r\na\r\n0\r\n", b"A: b\r\n", 64, b"\r\nrest")?;
    expect_body(alloc, most.as_slice(), Body::chunked(), b"a", b"rest")?;
    let more = repeated(alloc, b"1\r\na\r\n0\r\n", b"A: b\r\n", 65, b"\r\n")?;
    expect_stop(alloc, more.as_slice(), Body::chunked(), BodyStop::BadChunk)
}

#[test]
fn a_trailer_has_16384_bytes_at_most(rt: HostRuntime) -> Result<(), Fail> {
    let alloc = rt.alloc();
    let most = repeated(alloc, b"0\r\nA:", b"b", 16_378, b"\r\n\r\nrest")?;
    expect_body(alloc, most.as_slice(), Body::chunked(), b"", b"rest")?;
    let more = repeated(alloc, b"0\r\nA:", b"b", 16_379, b"\r\n\r\n")?;
    expect_stop(alloc, more.as_slice(), Body::chunked(), BodyStop::BadChunk)
}

/// Reads four pieces, and compares their sizes.
fn expect_pieces(
    alloc: Global,
    input: &[u8],
    body: Body,
    expected: [usize; 4],
) -> Result<(), Fail> {
    let mut wire = Wire::new(alloc, link_of(alloc, input, 0)?);
    let mut place = body;
    for size in expected {
        let piece = next_piece(alloc, &mut wire, &mut place)?;
        if piece.len() != size || !piece.iter().all(|byte| *byte == b'x') {
            return Err(Fail::new("another piece"));
        }
    }
    Ok(())
}

/// The front, so many letters, and the end.
fn lettered(alloc: Global, front: &[u8], count: usize, end: &[u8]) -> Result<Vec<u8>, Fail> {
    let letters = vec![in alloc; b'x'; count]?;
    let mut bytes = front.to_vec(alloc)?;
    bytes.extend_from_slice(letters.as_slice())?;
    bytes.extend_from_slice(end)?;
    Ok(bytes)
}

#[test]
fn each_piece_is_full_but_the_last(rt: HostRuntime) -> Result<(), Fail> {
    let alloc = rt.alloc();
    let counted = lettered(alloc, b"", 200_000, b"")?;
    expect_pieces(
        alloc,
        counted.as_slice(),
        Body::of_length(100_000),
        [65_536, 34_464, 0, 0],
    )?;
    expect_pieces(
        alloc,
        counted.as_slice(),
        Body::of_length(131_072),
        [65_536, 65_536, 0, 0],
    )?;
    let chunk = lettered(alloc, b"186a0\r\n", 100_000, b"\r\n0\r\n\r\n")?;
    expect_pieces(
        alloc,
        chunk.as_slice(),
        Body::chunked(),
        [65_536, 34_464, 0, 0],
    )?;
    let full = lettered(alloc, b"10000\r\n", 65_536, b"\r\n0\r\n\r\n")?;
    expect_pieces(alloc, full.as_slice(), Body::chunked(), [65_536, 0, 0, 0])?;
    let small = repeated(alloc, b"", b"3\r\nxxx\r\n", 30_000, b"0\r\n\r\n")?;
    expect_pieces(
        alloc,
        small.as_slice(),
        Body::chunked(),
        [65_536, 24_464, 0, 0],
    )
}

#[test]
fn a_read_that_fails_is_a_fault_of_the_link(rt: HostRuntime) -> Result<(), Fail> {
    let alloc = rt.alloc();
    let input = lettered(alloc, b"186a0\r\n", 100_000, b"\r\n0\r\n\r\n")?;
    let link = MemoryLink::new(alloc, input, 0, [2u64].to_vec(alloc)?)?;
    let mut wire = Wire::new(alloc, link);
    let mut body = Body::chunked();
    let read = next_piece(alloc, &mut wire, &mut body);
    assert!(rt; matches!(read, Err(BodyStop::LinkFault)));
    assert_eq!(rt; wire.faults(), 1);
    assert!(rt; !body.is_done());
    Ok(())
}

#[test]
fn stops_have_words(rt: HostRuntime) -> Result<(), Fail> {
    let text = format!(in rt.alloc(); "{}", BodyStop::TooLarge)?;
    assert_eq!(rt; text.as_str(), "the body is too large");
    Ok(())
}
