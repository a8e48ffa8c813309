use backup_rules::Kind;
use partial_files::{PartialFault, read_partial, write_partial};
use std::alloc::{AllocError, Global};
use std::test::Fail;
use wire_bytes::seal;

// What stands before the rows of a partial dump of the host 3, an incremental begun at 7: magic, host, kind, start, number of
// rows, 21 bytes.
const TWO_ROWS: &[u8] = b"RPD1\0\0\0\x03\x02\0\0\0\0\0\0\0\x07\0\0\0\x02";

const ONE_ROW: &[u8] = b"RPD1\0\0\0\x03\x02\0\0\0\0\0\0\0\x07\0\0\0\x01";

const NO_ROW: &[u8] = b"RPD1\0\0\0\x03\x02\0\0\0\0\0\0\0\x07\0\0\0\0";

// The same of a full.
const FULL: &[u8] = b"RPD1\0\0\0\x03\x01\0\0\0\0\0\0\0\x07\0\0\0\x02";

// Rows of 28 bytes: kind, path, mode, uid, gid, mtime, nanos.
const DIR_A: &[u8] =
    b"\x02\x00\x01a\x00\x00\x01\xed\x00\x00\x00\x00\x00\x00\x00\x00\x00\x00\x00\x00\x00\x00\x00\x00\x3b\x9a\xc9\xff";

const DIR_B: &[u8] =
    b"\x02\x00\x01b\x00\x00\x01\xed\x00\x00\x00\x00\x00\x00\x00\x00\x00\x00\x00\x00\x00\x00\x00\x00\x00\x00\x00\x01";

// Its nanoseconds are a whole second.
const NO_ROW_B: &[u8] =
    b"\x02\x00\x01b\x00\x00\x01\xed\x00\x00\x00\x00\x00\x00\x00\x00\x00\x00\x00\x00\x00\x00\x00\x00\x3b\x9a\xca\x00";

const MARK_A: &[u8] = b"\x00\x00\x01a";

const MARK_B: &[u8] = b"\x00\x00\x01b";

// The parts of a body, the host that it is read for, and where it breaks the layout.
const CASES: &[([&[u8]; 3], u32, Option<usize>)] = &[
    ([TWO_ROWS, DIR_A, DIR_B], 3, None),
    ([FULL, DIR_A, DIR_B], 3, None),
    ([NO_ROW, b"", b""], 3, None),
    ([b"", b"", b""], 3, Some(0)),
    ([b"RPD2\0\0\0\x03", b"", b""], 3, Some(0)),
    ([TWO_ROWS, DIR_A, DIR_B], 4, Some(4)),
    ([b"RPD1\0\0\0", b"", b""], 3, Some(4)),
    ([b"RPD1\0\0\0\x03", b"", b""], 3, Some(8)),
    ([b"RPD1\0\0\0\x03", b"\0", b""], 3, Some(8)),
    ([b"RPD1\0\0\0\x03", b"\x03", b""], 3, Some(8)),
    ([b"RPD1\0\0\0\x03", b"\x02\0\0\0\0\0\0\0", b""], 3, Some(9)),
    (
        [b"RPD1\0\0\0\x03", b"\x02\0\0\0\0\0\0\0\x07", b"\0\0\0"],
        3,
        Some(17),
    ),
    ([ONE_ROW, MARK_A, b""], 3, Some(21)),
    ([TWO_ROWS, MARK_A, NO_ROW_B], 3, Some(21)),
    ([TWO_ROWS, DIR_A, MARK_B], 3, Some(49)),
    ([ONE_ROW, NO_ROW_B, b""], 3, Some(21)),
    ([TWO_ROWS, DIR_A, NO_ROW_B], 3, Some(49)),
    ([TWO_ROWS, DIR_B, DIR_A], 3, Some(49)),
    ([TWO_ROWS, DIR_A, DIR_A], 3, Some(49)),
    ([TWO_ROWS, DIR_A, b""], 3, Some(49)),
    ([ONE_ROW, DIR_A, b"\0"], 3, Some(49)),
];

fn sealed(alloc: Global, parts: &[&[u8]; 3]) -> Result<Vec<u8>, AllocError> {
    let mut body = Vec::new(alloc);
    for part in parts {
        body.extend_from_slice(part)?;
    }
    seal(body)
}

// A file with another byte at an offset.
fn with_other_byte(alloc: Global, file: &[u8], offset: usize) -> Result<Vec<u8>, AllocError> {
    let mut changed = Vec::new(alloc);
    for (at, byte) in file.iter().enumerate() {
        changed.push(if at == offset { *byte ^ 1 } else { *byte })?;
    }
    Ok(changed)
}

#[test]
fn partials_are_read_and_written(rt: HostRuntime) -> Result<(), Fail> {
    let alloc = rt.alloc();
    for (head, kind) in [(TWO_ROWS, Kind::Incr), (FULL, Kind::Full)] {
        let file = sealed(alloc, &[head, DIR_A, DIR_B])?;
        let read = read_partial(alloc, file.as_slice(), 3)?;
        assert!(rt; read.kind == kind && read.start == 7 && read.rows.len() == 2);
        let written = write_partial(alloc, 3, read.kind, read.start, &read.rows)?;
        assert_eq!(rt; written.as_slice(), file.as_slice());
    }
    Ok(())
}

#[test]
fn files_that_break_the_layout(rt: HostRuntime) -> Result<(), Fail> {
    let alloc = rt.alloc();
    for (parts, host, offset) in CASES {
        let file = sealed(alloc, parts)?;
        let fault = offset.map(PartialFault::BadPartial);
        assert_eq!(rt; read_partial(alloc, file.as_slice(), *host).err(), fault);
    }
    let unsealed = read_partial(alloc, TWO_ROWS, 3);
    assert_eq!(rt; unsealed.err(), Some(PartialFault::BadPartial(5)));
    Ok(())
}

// A changed byte breaks the seal, which stands at 77.
#[test]
fn each_changed_byte_is_refused(rt: HostRuntime) -> Result<(), Fail> {
    let alloc = rt.alloc();
    let file = sealed(alloc, &[TWO_ROWS, DIR_A, DIR_B])?;
    assert_eq!(rt; file.len(), 93);
    for offset in 0..file.len() {
        let changed = with_other_byte(alloc, file.as_slice(), offset)?;
        let read = read_partial(alloc, changed.as_slice(), 3);
        assert_eq!(rt; read.err(), Some(PartialFault::BadPartial(77)));
    }
    Ok(())
}
