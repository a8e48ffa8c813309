use attr_records::HostName;
use backup_index::{
    HostIndex, IndexFault, IndexLayout, LineList, Rules, read_host_index, write_host_index,
};
use receipts::{Receipt, ReceiptList, SessionName, Token};
use std::alloc::{AllocError, Global};
use std::test::Fail;
use wire_bytes::seal;

// The body of the index of the host `a`, whose number is 7, with the default rules, two receipts and two backups, in the third
// layout.
const INDEX: &[u8; 218] =
    b"\x52\x48\x49\x33\x00\x00\x00\x07\x01\x61\x00\x00\x00\x00\x00\x09\x30\x60\x00\x01\x47\x60\x01\x00\x00\x00\x01\x00\x00\x00\x01\x00\x00\x00\xb4\x00\x00\x00\x06\x00\x00\x00\x01\x00\x00\x00\x1e\x00\x00\x00\x07\x00\x00\x00\x03\x01\x01\xa4\x04\x92\x3e\x00\x00\x00\x00\x01\x00\x00\x00\x01\x00\x00\x00\x00\x00\x02\x00\x01\x02\x03\x04\x05\x06\x07\x08\x09\x0a\x0b\x0c\x0d\x0e\x0f\x00\x00\x00\x00\x00\x00\x00\x03\x00\x00\x00\x00\x00\x00\x00\x05\x00\x00\x00\x00\x10\x11\x12\x13\x14\x15\x16\x17\x18\x19\x1a\x1b\x1c\x1d\x1e\x1f\x00\x00\x00\x00\x00\x00\x00\x03\x00\x00\x00\x00\x00\x00\x00\x06\x00\x00\x00\x02\x00\x00\x00\x02\x00\x00\x00\x01\x00\x00\x00\x00\x00\x00\x00\x03\x00\x00\x00\x00\x00\x00\x00\x02\x00\x00\x00\x00\x00\x00\x00\x00\x00\x00\x03\xe8\x00\x00\x00\x00\x00\x00\x04\x24\x01\x00\x00\x00\x00\x00\x02\x00\x00\x00\x00\x00\x00\x07\xd0\x00\x00\x00\x00\x00\x00\x08\x0c\x02\x01\x01";

// The MD5 (RFC 1321) of the body, as Python's `hashlib` computes it.
const INDEX_SEAL: &[u8; 16] = b"\xcf\xe6\x6c\x15\x9d\xd5\x50\xd7\x5f\xb2\x93\xa2\x4a\xf0\x8b\x87";

// Where the number of receipts, the receipts and what is behind them begin.
const COUNT: usize = 74;

const RECEIPTS: [usize; 2] = [76, 112];

const BEHIND: usize = 148;

const FIRST: Receipt = Receipt {
    token: Token {
        bytes: [0, 1, 2, 3, 4, 5, 6, 7, 8, 9, 10, 11, 12, 13, 14, 15],
    },
    name: SessionName {
        epoch: 3,
        sequence: 5,
    },
    number: 0,
};

const SECOND: Receipt = Receipt {
    token: Token {
        bytes: [
            16, 17, 18, 19, 20, 21, 22, 23, 24, 25, 26, 27, 28, 29, 30, 31,
        ],
    },
    name: SessionName {
        epoch: 3,
        sequence: 6,
    },
    number: 2,
};

fn expect(holds: bool, text: &'static str) -> Result<(), Fail> {
    if holds { Ok(()) } else { Err(Fail::new(text)) }
}

// The bytes one behind the other.
fn joined(alloc: Global, parts: &[&[u8]]) -> Result<Vec<u8>, AllocError> {
    let mut bytes = Vec::new(alloc);
    for part in parts {
        bytes.extend_from_slice(part)?;
    }
    Ok(bytes)
}

fn index_offset(alloc: Global, file: &[u8]) -> Result<usize, Fail> {
    match read_host_index(alloc, file) {
        Err(IndexFault::BadIndex(offset)) => Ok(offset),
        _ => Err(Fail::new("no break of an index")),
    }
}

// A receipt of the dump of this number, whose token ends with the number.
fn receipt_of(number: u16) -> Receipt {
    let [high, low] = number.to_be_bytes();
    Receipt {
        token: Token {
            bytes: [0, 0, 0, 0, 0, 0, 0, 0, 0, 0, 0, 0, 0, 0, high, low],
        },
        name: SessionName {
            epoch: 1,
            sequence: u64::from(number),
        },
        number: u32::from(number),
    }
}

// So many receipts were kept, one after the other.
fn kept(alloc: Global, count: u16) -> Result<ReceiptList, AllocError> {
    let mut receipts = ReceiptList::new(alloc);
    for number in 0..count {
        receipts.keep(receipt_of(number))?;
    }
    Ok(receipts)
}

#[test]
fn an_index_with_receipts_is_read_and_written(rt: HostRuntime) -> Result<(), Fail> {
    let alloc = rt.alloc();
    let file = joined(alloc, &[INDEX, INDEX_SEAL])?;
    let (layout, index) = read_host_index(alloc, file.as_slice())?;
    expect(layout == IndexLayout::Third, "another layout")?;
    let receipts = index.receipts();
    expect(
        receipts.receipts() == [FIRST, SECOND].as_slice(),
        "other receipts",
    )?;
    expect(
        index.lines().len() == 2 && index.next() == 3,
        "another index",
    )?;
    let written = write_host_index(alloc, &index.parts())?;
    expect(written.as_slice() == file.as_slice(), "other bytes")
}

#[test]
fn a_token_that_two_receipts_have_breaks_the_second(rt: HostRuntime) -> Result<(), Fail> {
    let alloc = rt.alloc();
    let body = INDEX.as_slice();
    let token = &body[RECEIPTS[0]..92];
    let twice = joined(alloc, &[&body[..RECEIPTS[1]], token, &body[128..]])?;
    let offset = index_offset(alloc, seal(twice)?.as_slice())?;
    expect(offset == RECEIPTS[1], "another offset")
}

#[test]
fn receipts_break_at_the_one_that_is_cut(rt: HostRuntime) -> Result<(), Fail> {
    let alloc = rt.alloc();
    let body = INDEX.as_slice();
    for len in COUNT..BEHIND {
        let file = seal(joined(alloc, &[&body[..len]])?)?;
        let offset = index_offset(alloc, file.as_slice())?;
        let expected = if len < RECEIPTS[0] {
            COUNT
        } else if len < RECEIPTS[1] {
            RECEIPTS[0]
        } else {
            RECEIPTS[1]
        };
        expect(offset == expected, "another offset")?;
    }
    Ok(())
}

#[test]
fn an_index_has_at_most_256_receipts(rt: HostRuntime) -> Result<(), Fail> {
    let alloc = rt.alloc();
    let body = INDEX.as_slice();
    let many = joined(alloc, &[&body[..COUNT], b"\x01\x01", &body[RECEIPTS[0]..]])?;
    let offset = index_offset(alloc, seal(many)?.as_slice())?;
    expect(offset == COUNT, "another offset")?;
    let name = HostName::read(alloc, b"a")?;
    let rules = Rules::defaults(alloc)?;
    let receipts = kept(alloc, 300)?;
    let lines = LineList::new(alloc);
    let index = HostIndex::new(7, name, rules, 0, 0, 0, receipts, lines)?;
    let file = write_host_index(alloc, &index.parts())?;
    let (_, read) = read_host_index(alloc, file.as_slice())?;
    let receipts = read.receipts();
    let first = receipts.receipts().first();
    expect(
        receipts.len() == 256 && first == Some(&receipt_of(44)),
        "other receipts",
    )
}

#[test]
fn a_commit_changes_receipts_and_lines(rt: HostRuntime) -> Result<(), Fail> {
    let alloc = rt.alloc();
    let file = joined(alloc, &[INDEX, INDEX_SEAL])?;
    let (_, mut index) = read_host_index(alloc, file.as_slice())?;
    let lines = LineList::new(alloc);
    index.set_commit(9, kept(alloc, 2)?, lines)?;
    let receipts = index.receipts();
    expect(
        receipts.len() == 2 && index.next() == 9 && index.lines().is_empty(),
        "another index",
    )
}
