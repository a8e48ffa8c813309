use http_heads::{Front, Head, HeadRefusal, Version, is_blank, read_front};
use std::alloc::{AllocError, Global};
use std::test::Fail;

/// What a head is to say.
struct Want {
    head: &'static [u8],
    version: Version,
    length: Option<u64>,
    chunked: bool,
    expects_continue: bool,
    closes: bool,
}

const PLAIN: Want = Want {
    head: b"GET /a?b HTTP/1.1\r\nHost: b\r\n\r\n",
    version: Version::Http11,
    length: None,
    chunked: false,
    expects_continue: false,
    closes: false,
};

const READ: [Want; 18] = [
    PLAIN,
    Want {
        head: b"\n\r\nGET /a?b HTTP/1.1\nhost:b\n\n",
        ..PLAIN
    },
    Want {
        head: b"GET /a?b HTTP/1.0\r\n\r\n",
        version: Version::Http10,
        closes: true,
        ..PLAIN
    },
    Want {
        head: b"GET /a?b HTTP/1.0\r\nHost: b\r\nHost: c\r\nContent-Length: 3\r\nExpect: 100-continue\r\n\r\n",
        version: Version::Http10,
        length: Some(3),
        closes: true,
        ..PLAIN
    },
    Want {
        head: b"GET /a?b HTTP/1.1\r\nHost: b\r\ncontent-LENGTH: 000000000000000000000000000005\r\n\r\n",
        length: Some(5),
        ..PLAIN
    },
    Want {
        head: b"GET /a?b HTTP/1.1\r\nHost: b\r\nContent-Length: \t1099511627775 \r\n\r\n",
        length: Some(1_099_511_627_775),
        ..PLAIN
    },
    Want {
        head: b"GET /a?b HTTP/1.1\r\nHost: b\r\nExpect: 100-Continue\r\nContent-Length: 1\r\n\r\n",
        length: Some(1),
        expects_continue: true,
        ..PLAIN
    },
    Want {
        head: b"GET /a?b HTTP/1.1\r\nHost: b\r\nTransfer-Encoding: chunked\r\n\r\n",
        chunked: true,
        ..PLAIN
    },
    Want {
        head: b"GET /a?b HTTP/1.1\r\ntransfer-encoding:\tChunKED \r\nHost: b\r\nExpect: 100-continue\r\n\r\n",
        chunked: true,
        expects_continue: true,
        ..PLAIN
    },
    Want {
        head: b"GET /a?b HTTP/1.1\r\nHost: b\r\nExpect: 100-continue\r\nContent-Length: 0\r\n\r\n",
        length: Some(0),
        ..PLAIN
    },
    Want {
        head: b"GET /a?b HTTP/1.1\r\nHost: b\r\nExpect: 100-continue\r\n\r\n",
        ..PLAIN
    },
    Want {
        head: b"GET /a?b HTTP/1.1\r\nHost: b\r\nExpect: 200-ok\r\nContent-Length: 1\r\n\r\n",
        length: Some(1),
        ..PLAIN
    },
    Want {
        head: b"GET /a?b HTTP/1.1\r\nHost: b\r\nConnection: close\r\n\r\n",
        closes: true,
        ..PLAIN
    },
    Want {
        head: b"GET /a?b HTTP/1.1\r\nHost: b\r\nConnection: keep-alive,\tCLOSE ,upgrade\r\n\r\n",
        closes: true,
        ..PLAIN
    },
    Want {
        head: b"GET /a?b HTTP/1.1\r\nHost: b\r\nConnection: upgrade\r\nConnection: close\r\n\r\n",
        closes: true,
        ..PLAIN
    },
    Want {
        head: b"GET /a?b HTTP/1.1\r\nHost: b\r\nConnection: closed, not close\r\n\r\n",
        ..PLAIN
    },
    Want {
        head: b"GET /a?b HTTP/1.1\r\nHost: b\r\nConnection:\r\n\r\n",
        ..PLAIN
    },
    Want {
        head: b"GET /a?b HTTP/1.1\r\nHost: b\r\nX-Connection: close\r\n\r\n",
        ..PLAIN
    },
];

const REFUSED: [(&[u8], HeadRefusal); 18] = [
    (b"GET / HTTP/1.1\r\n\r\n", HeadRefusal::BadHead),
    (
        b"GET / HTTP/1.1\r\nHost: b\r\nHost: b\r\n\r\n",
        HeadRefusal::BadHead,
    ),
    (b"GET / HTTP/1.1\r\nHost : b\r\n\r\n", HeadRefusal::BadHead),
    (
        b"GET / HTTP/1.1\r\nHost: b\r\n c\r\n\r\n",
        HeadRefusal::BadHead,
    ),
    (
        b"GET /\xff HTTP/1.1\r\nHost: b\r\n\r\n",
        HeadRefusal::BadHead,
    ),
    (b"GET / HTTP/2.0\r\nHost: b\r\n\r\n", HeadRefusal::BadHead),
    (b"GET  / HTTP/1.1\r\n", HeadRefusal::BadHead),
    (b"\rGET", HeadRefusal::BadHead),
    (
        b"GET / HTTP/1.0\r\nContent-Length: 1\r\nContent-Length: 1\r\n\r\n",
        HeadRefusal::BadHead,
    ),
    (
        b"GET / HTTP/1.0\r\nContent-Length: 1, 1\r\n\r\n",
        HeadRefusal::BadHead,
    ),
    (
        b"GET / HTTP/1.0\r\nContent-Length: +1\r\n\r\n",
        HeadRefusal::BadHead,
    ),
    (
        b"GET / HTTP/1.0\r\nContent-Length:\r\n\r\n",
        HeadRefusal::BadHead,
    ),
    (
        b"GET / HTTP/1.0\r\nContent-Length: a\r\nTransfer-Encoding: chunked\r\n\r\n",
        HeadRefusal::BadHead,
    ),
    (
        b"GET / HTTP/1.0\r\ntransfer-encoding:\r\n\r\n",
        HeadRefusal::NoLength,
    ),
    (
        b"GET / HTTP/1.0\r\nTransfer-Encoding: gzip\r\nContent-Length: 1099511627776\r\n\r\n",
        HeadRefusal::NoLength,
    ),
    (
        b"GET / HTTP/1.0\r\nContent-Length: 1099511627776\r\n\r\n",
        HeadRefusal::FileTooLarge,
    ),
    (
        b"GET / HTTP/1.0\r\nContent-Length: 18446744073709551617\r\n\r\n",
        HeadRefusal::FileTooLarge,
    ),
    (
        b"GET / HTTP/1.0\r\nContent-Length: 999999999999999999999999999999\r\n\r\n",
        HeadRefusal::FileTooLarge,
    ),
];

/// Heads that a server and what stands before it could read as bodies of two lengths.
const TWO_WAYS: [(&[u8], HeadRefusal); 12] = [
    (
        b"GET / HTTP/1.1\r\nHost: b\r\nContent-Length: 5\r\nTransfer-Encoding: chunked\r\n\r\n",
        HeadRefusal::BadHead,
    ),
    (
        b"GET / HTTP/1.1\r\nHost: b\r\nTransfer-Encoding: chunked\r\nContent-Length: 0\r\n\r\n",
        HeadRefusal::BadHead,
    ),
    (
        b"GET / HTTP/1.1\r\nHost: b\r\nTransfer-Encoding: chunked\r\nContent-Length: 1099511627776\r\n\r\n",
        HeadRefusal::BadHead,
    ),
    (
        b"GET / HTTP/1.0\r\nTransfer-Encoding: chunked\r\n\r\n",
        HeadRefusal::BadHead,
    ),
    (
        b"GET / HTTP/1.1\r\nHost: b\r\nTransfer-Encoding: chunked\r\nTransfer-Encoding: chunked\r\n\r\n",
        HeadRefusal::NoLength,
    ),
    (
        b"GET / HTTP/1.1\r\nHost: b\r\nTransfer-Encoding: chunked, gzip\r\n\r\n",
        HeadRefusal::NoLength,
    ),
    (
        b"GET / HTTP/1.1\r\nHost: b\r\nTransfer-Encoding: gzip, chunked\r\n\r\n",
        HeadRefusal::NoLength,
    ),
    (
        b"GET / HTTP/1.1\r\nHost: b\r\nTransfer-Encoding: identity\r\nTransfer-Encoding: chunked\r\n\r\n",
        HeadRefusal::NoLength,
    ),
    (
        b"GET / HTTP/1.1\r\nHost: b\r\nTransfer-Encoding: xchunked\r\nContent-Length: 5\r\n\r\n",
        HeadRefusal::NoLength,
    ),
    (
        b"GET / HTTP/1.1\r\nHost: b\r\nTransfer-Encoding: \"chunked\"\r\n\r\n",
        HeadRefusal::NoLength,
    ),
    (
        b"GET / HTTP/1.1\r\nHost: b\r\nTransfer-Encoding : chunked\r\n\r\n",
        HeadRefusal::BadHead,
    ),
    (
        b"GET / HTTP/1.1\r\nHost: b\r\nTransfer-Encoding:\r\n chunked\r\n\r\n",
        HeadRefusal::BadHead,
    ),
];

const UNFINISHED: [&[u8]; 7] = [
    b"",
    b"\r",
    b"\r\n\n",
    b"GET",
    b"GET /",
    b"GET / HTTP/1.1\r\nHost: b\r\n",
    b"GET / HTTP/1.1\r\nHost: b\r\n\r",
];

const BLANK: [(&[u8], bool); 7] = [
    (b"", true),
    (b"\n", true),
    (b"\r\n\n\r\n", true),
    (b"\r", false),
    (b"\n\r\r\n", false),
    (b"\r\nG", false),
    (b" ", false),
];

fn says(head: &Head, want: &Want) -> bool {
    head.method() == b"GET".as_slice()
        && head.target() == "/a?b"
        && head.version() == want.version
        && head.length() == want.length
        && head.is_chunked() == want.chunked
        && head.expects_continue() == want.expects_continue
        && head.closes() == want.closes
}

fn expect_read(alloc: Global, want: &Want) -> Result<(), Fail> {
    match read_front(alloc, want.head)? {
        Front::Whole { len, head } => {
            if len == want.head.len() && says(&head, want) {
                return Ok(());
            }
            Err(Fail::new("the head says something else"))
        }
        _ => Err(Fail::new("no whole head")),
    }
}

fn expect_refused(alloc: Global, bytes: &[u8], want: HeadRefusal) -> Result<(), Fail> {
    match read_front(alloc, bytes)? {
        Front::Refused(refusal) => {
            if refusal == want {
                return Ok(());
            }
            Err(Fail::new("another refusal"))
        }
        _ => Err(Fail::new("no refusal")),
    }
}

fn expect_whole(alloc: Global, bytes: &[u8], want: usize) -> Result<(), Fail> {
    match read_front(alloc, bytes)? {
        Front::Whole { len, .. } => {
            if len == want {
                return Ok(());
            }
            Err(Fail::new("another length"))
        }
        _ => Err(Fail::new("no whole head")),
    }
}

fn expect_unfinished(alloc: Global, bytes: &[u8]) -> Result<(), Fail> {
    match read_front(alloc, bytes)? {
        Front::Unfinished => Ok(()),
        _ => Err(Fail::new("not unfinished")),
    }
}

/// The front, so many times the middle, and the end.
fn repeated(
    alloc: Global,
    front: &[u8],
    middle: &[u8],
    times: usize,
    end: &[u8],
) -> Result<Vec<u8>, AllocError> {
    let mut bytes = Vec::from_slice(alloc, front)?;
    for _i in 0..times {
        bytes.extend_from_slice(middle)?;
    }
    bytes.extend_from_slice(end)?;
    Ok(bytes)
}

#[test]
fn heads_are_read(rt: HostRuntime) -> Result<(), Fail> {
    for want in &READ {
        expect_read(rt.alloc(), want)?;
    }
    expect_whole(rt.alloc(), b"GET / HTTP/1.0\n\nGET / HTTP/1.0\n\n", 16)
}

#[test]
fn other_heads_are_refused(rt: HostRuntime) -> Result<(), Fail> {
    for (bytes, refusal) in REFUSED {
        expect_refused(rt.alloc(), bytes, refusal)?;
    }
    for (bytes, refusal) in TWO_WAYS {
        expect_refused(rt.alloc(), bytes, refusal)?;
    }
    Ok(())
}

#[test]
fn fronts_of_heads_are_unfinished(rt: HostRuntime) -> Result<(), Fail> {
    for bytes in UNFINISHED {
        expect_unfinished(rt.alloc(), bytes)?;
    }
    Ok(())
}

#[test]
fn a_head_has_64_fields_at_most(rt: HostRuntime) -> Result<(), Fail> {
    let alloc = rt.alloc();
    let most = repeated(alloc, b"GET / HTTP/1.0\r\n", b"A: b\r\n", 64, b"\r\n")?;
    expect_whole(alloc, most.as_slice(), 402)?;
    let more = repeated(alloc, b"GET / HTTP/1.0\r\n", b"A: b\r\n", 65, b"\r\n")?;
    expect_refused(alloc, more.as_slice(), HeadRefusal::HeadTooLarge)
}

#[test]
fn a_head_has_16384_bytes_at_most(rt: HostRuntime) -> Result<(), Fail> {
    let alloc = rt.alloc();
    let most = repeated(
        alloc,
        b"\r\nGET / HTTP/1.0\r\nA:",
        b"b",
        16_360,
        b"\r\n\r\nrest",
    )?;
    expect_whole(alloc, most.as_slice(), 16_384)?;
    let more = repeated(
        alloc,
        b"\r\nGET / HTTP/1.0\r\nA:",
        b"b",
        16_361,
        b"\r\n\r\n",
    )?;
    expect_refused(alloc, more.as_slice(), HeadRefusal::HeadTooLarge)?;
    let lines = repeated(alloc, b"", b"\r\n", 8_191, b"\n")?;
    expect_unfinished(alloc, lines.as_slice())?;
    let lines = repeated(alloc, b"", b"\r\n", 8_192, b"GET / HTTP/1.0\r\n\r\n")?;
    expect_refused(alloc, lines.as_slice(), HeadRefusal::HeadTooLarge)
}

#[test]
fn empty_lines_are_told(rt: HostRuntime) {
    for (bytes, blank) in BLANK {
        assert!(rt; is_blank(bytes) == blank);
    }
}

#[test]
fn refusals_have_names_and_statuses(rt: HostRuntime) -> Result<(), Fail> {
    let name = format!(in rt.alloc(); "{}", HeadRefusal::HeadTooLarge)?;
    assert!(rt; name.as_str() == "HeadTooLarge");
    assert!(rt; HeadRefusal::FileTooLarge.status().as_u16() == 413);
    Ok(())
}
