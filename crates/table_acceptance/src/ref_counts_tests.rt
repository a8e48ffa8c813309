ghost use Rattle.std.specs.Prelude.{IfOk};
ghost use Rattle.attr_tables.specs.Records.{IsSound};

use attr_records::{Attr, PathName};
use attr_tables::{Record, Row, StoredFile, Table};
use disk_trait::PoolId;
use ordered_lists::Entry;
use ref_counts::*;
use std::alloc::{AllocError, Global};
use std::cmp::Ordering;
use std::test::Fail;
use wire_bytes::seal;

// The contents `a` and `b` under their MD5, as Python's `hashlib` gives it.
const A: PoolId = PoolId {
    digest: [
        0x0c, 0xc1, 0x75, 0xb9, 0xc0, 0xf1, 0xb6, 0xa8, 0x31, 0xc3, 0x99, 0xe2, 0x69, 0x77, 0x26,
        0x61,
    ],
    extension: 0,
};

const B: PoolId = PoolId {
    digest: [
        0x92, 0xeb, 0x5f, 0xfe, 0xe6, 0xae, 0x2f, 0xec, 0x3a, 0xd7, 0x1c, 0x77, 0x75, 0x31, 0x57,
        0x8f,
    ],
    extension: 0,
};

// The body of the file of the host 3 with `a` twice and `b` once, and the MD5 of the body, as `hashlib` gives it.
const BODY: &[u8; 68] =
    b"RCT1\0\0\0\x03\0\0\0\0\0\0\0\x02\x0c\xc1\x75\xb9\xc0\xf1\xb6\xa8\x31\xc3\x99\xe2\x69\x77\x26\x61\0\0\0\0\0\0\0\0\0\x02\x92\xeb\x5f\xfe\xe6\xae\x2f\xec\x3a\xd7\x1c\x77\x75\x31\x57\x8f\0\0\0\0\0\0\0\0\0\x01";

const BODY_SEAL: &[u8; 16] = b"\xc5\x90\xf2\x92\xb6\xd3\x2e\x10\x8e\xaf\xc5\x8c\x0b\xa1\xea\xfa";

fn file(content: PoolId) -> Record
    ensures { IsSound result }
{
    Record::File(StoredFile {
        attr: Attr::file_default(),
        group: 0,
        size: 1,
        content: Some(content),
    })
}

// A table with `p` alone.
fn table(alloc: Global, content: PoolId) -> Result<Table, Fail> {
    let mut table = Table::new(alloc);
    table.push(Row::new(PathName::read(alloc, b"p")?, file(content)))?;
    Ok(table)
}

fn expect_numbers(counts: &Counts, a: u64, b: u64) -> Result<(), Fail> {
    if number(counts, A) == a && number(counts, B) == b {
        Ok(())
    } else {
        Err(Fail::new("other numbers"))
    }
}

// Backups with nothing, `p` = `a`, `b` and `a`, of which the first and the last are filled; then the third is deleted.
#[test]
fn tables_are_counted(rt: HostRuntime) -> Result<(), Fail> {
    let alloc = rt.alloc();
    let tables = [
        Table::new(alloc),
        table(alloc, A)?,
        table(alloc, B)?,
        table(alloc, A)?,
    ];
    let counts = recount(alloc, &tables)?;
    expect_numbers(&counts, 2, 1)?;
    expect_numbers(&count_tables(alloc, &[table(alloc, A)?])?, 1, 0)?;
    let taken = count_tables(alloc, &[table(alloc, A)?, table(alloc, B)?])?;
    let left = take(alloc, &counts, &taken)?;
    expect_numbers(&left, 1, 0)?;
    assert_eq!(rt; left.items().len(), 1);
    let more = add(alloc, &left.copy(alloc)?, &counts)?;
    expect_numbers(&more, 3, 1)?;
    let order = CountItem::new(A, 3).compare(&CountItem::new(B, 1));
    assert_eq!(rt; order, Ordering::Less);
    expect_numbers(&add(alloc, &Counts::new(alloc), &left)?, 1, 0)?;
    Ok(())
}

#[test]
fn a_content_leaves_at_its_second_cleaning(rt: HostRuntime) -> Result<(), Fail> {
    // Whether it is protected and marked, and its mark then.
    let cases: [(bool, bool, Option<bool>); 4] = [
        (true, false, Some(false)),
        (true, true, Some(false)),
        (false, false, Some(true)),
        (false, true, None),
    ];
    for (protected, marked, mark) in cases {
        assert_eq!(rt; next_mark(protected, marked), mark);
    }
    Ok(())
}

// The file of the host 3 with another byte at an offset, sealed.
fn with_byte(alloc: Global, offset: usize, value: u8) -> Result<Vec<u8>, AllocError> {
    let mut body = Vec::new(alloc);
    for (at, byte) in BODY.iter().enumerate() {
        body.push(if at == offset { value } else { *byte })?;
    }
    seal(body)
}

#[test]
fn counts_are_written_and_read(rt: HostRuntime) -> Result<(), Fail> {
    let alloc = rt.alloc();
    let mut expected = Vec::from_slice(alloc, BODY)?;
    expected.extend_from_slice(BODY_SEAL)?;
    let counts = read_counts(alloc, 3, expected.as_slice())?;
    expect_numbers(&counts, 2, 1)?;
    let written = write_counts(alloc, 3, &counts)?;
    assert_eq!(rt; written.as_slice(), expected.as_slice());
    // Offset, byte, and where it breaks: the magic, another host, an item too many, one too few, a number of 0, an
    // item before the one before it.
    let cases: [(usize, u8, usize); 6] = [
        (0, b'r', 0),
        (7, 4, 4),
        (15, 1, 42),
        (15, 3, 68),
        (41, 0, 16),
        (16, 0x93, 42),
    ];
    for (offset, value, breaks) in cases {
        let file = with_byte(alloc, offset, value)?;
        let read = read_counts(alloc, 3, file.as_slice());
        assert_eq!(rt; read.err(), Some(CountsFault::BadIndex(breaks)));
    }
    let unsealed = read_counts(alloc, 3, BODY);
    assert_eq!(rt; unsealed.err(), Some(CountsFault::BadIndex(52)));
    Ok(())
}

#[test]
fn numbers_stay_within_their_ends(rt: HostRuntime) -> Result<(), Fail> {
    let alloc = rt.alloc();
    let whole: &[u8] = BODY;
    let mut body = Vec::from_slice(alloc, &whole[..34])?;
    body.extend_from_slice(&[0xff; 8])?;
    body.extend_from_slice(&whole[42..])?;
    let many = read_counts(alloc, 3, seal(body)?.as_slice())?;
    expect_numbers(&many, u64::MAX, 1)?;
    expect_numbers(&add(alloc, &many, &many)?, u64::MAX, 2)?;
    let few = count_tables(alloc, &[table(alloc, A)?])?;
    let left = take(alloc, &few, &many)?;
    assert_eq!(rt; left.items().len(), 0);
    Ok(())
}
