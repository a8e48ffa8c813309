use disk_trait::PoolId;
use pool_index::*;
use std::alloc::{AllocError, Global};
use std::test::Fail;
use wire_bytes::seal;

// The content `hello`: its digest is its MD5 (RFC 1321).
const HELLO: IndexItem = IndexItem {
    id: PoolId {
        digest: [
            0x5d, 0x41, 0x40, 0x2a, 0xbc, 0x4b, 0x2a, 0x76, 0xb9, 0x71, 0x9d, 0x91, 0x10, 0x17,
            0xc5, 0x92,
        ],
        extension: 0,
    },
    size: 5,
    mark: false,
};

// The body of the file of the byte 5d with this item alone, and the MD5 of the body, as Python's `hashlib` gives it.
const BUCKET: &[u8; 40] =
    b"RPB1\x5d\x00\x00\x00\x00\x00\x00\x00\x01\x5dA\x40\x2a\xbcK\x2av\xb9q\x9d\x91\x10\x17\xc5\x92\x00\x00\x00\x00\x00\x00\x00\x00\x00\x05\x00";

const BUCKET_SEAL: &[u8; 16] = b"\x2d\x4d\xf6\xb9\xfa\xbe\x42\x75\x0d\x87\xb1\x2f\x2b\xc3\xa7\x25";

// The body of the one file of an older store, with `hello`, which is marked, and another item of two bytes.
const INDEX: &[u8; 66] =
    b"RPI1\x00\x00\x00\x00\x00\x00\x00\x02\x5dA\x40\x2a\xbcK\x2av\xb9q\x9d\x91\x10\x17\xc5\x92\x00\x00\x00\x00\x00\x00\x00\x00\x00\x05\x01a\x00\x00\x00\x00\x00\x00\x00\x00\x00\x00\x00\x00\x00\x00\x00\x00\x00\x00\x00\x00\x00\x00\x00\x00\x02\x00";

// The file of the byte 5d with another byte at an offset, sealed.
fn with_byte(alloc: Global, offset: usize, value: u8) -> Result<Vec<u8>, AllocError> {
    let mut body = Vec::new(alloc);
    for (at, byte) in BUCKET.iter().enumerate() {
        body.push(if at == offset { value } else { *byte })?;
    }
    seal(body)
}

#[test]
fn the_file_of_a_byte_is_written_and_read(rt: HostRuntime) -> Result<(), Fail> {
    let alloc = rt.alloc();
    let mut expected = Vec::from_slice(alloc, BUCKET)?;
    expected.extend_from_slice(BUCKET_SEAL)?;
    let written = write_bucket(alloc, 0x5d, &[HELLO])?;
    assert_eq!(rt; written.as_slice(), expected.as_slice());
    let items = read_index(alloc, Some(0x5d), written.as_slice())?;
    assert!(rt; items.as_slice() == [HELLO].as_slice());
    Ok(())
}

#[test]
fn the_one_file_of_an_older_store_is_read(rt: HostRuntime) -> Result<(), Fail> {
    let alloc = rt.alloc();
    let file = seal(Vec::from_slice(alloc, INDEX)?)?;
    let items = read_index(alloc, None, file.as_slice())?;
    assert_eq!(rt; items.len(), 2);
    assert!(rt; items[0].mark && items[0].id == HELLO.id);
    assert_eq!(rt; items[1].size, 2);
    let empty = seal(Vec::from_slice(alloc, b"RPI1\0\0\0\0\0\0\0\0")?)?;
    assert_eq!(rt; read_index(alloc, None, empty.as_slice())?.len(), 0);
    Ok(())
}

#[test]
fn files_that_break_the_layout(rt: HostRuntime) -> Result<(), Fail> {
    let alloc = rt.alloc();
    // Offset, byte, and where it breaks: the magic, another byte's file, no items, an item too few, an item of another
    // byte, a content of no bytes, a mark that is no flag.
    let cases: [(usize, u8, usize); 7] = [
        (0, b'r', 0),
        (4, 0x5e, 4),
        (12, 0, 5),
        (12, 2, 40),
        (13, 0x5e, 13),
        (38, 0, 13),
        (39, 2, 13),
    ];
    for (offset, value, breaks) in cases {
        let file = with_byte(alloc, offset, value)?;
        let read = read_index(alloc, Some(0x5d), file.as_slice());
        assert_eq!(rt; read.err(), Some(IndexFault::BadIndex(breaks)));
    }
    let unsealed = read_index(alloc, Some(0x5d), BUCKET);
    assert_eq!(rt; unsealed.err(), Some(IndexFault::BadIndex(24)));
    // The items in the other order.
    let whole: &[u8] = INDEX;
    let mut falling = Vec::from_slice(alloc, &whole[..12])?;
    falling.extend_from_slice(&whole[39..])?;
    falling.extend_from_slice(&whole[12..39])?;
    let file = seal(falling)?;
    let read = read_index(alloc, None, file.as_slice());
    assert_eq!(rt; read.err(), Some(IndexFault::BadIndex(39)));
    Ok(())
}
