use crate::told::expect;
use std::test::Fail;
use wire_bytes::*;

// A sealed table with one file `a.txt`, of mode 0644, whose content is `hello`, as Python's `hashlib` seals it.
const TABLE: [u8; 78] = [
    0x52, 0x54, 0x42, 0x31, 0x00, 0x00, 0x00, 0x01, 0x01, 0x00, 0x05, 0x61, 0x2e, 0x74, 0x78, 0x74,
    0x00, 0x00, 0x01, 0xa4, 0x00, 0x00, 0x00, 0x00, 0x00, 0x00, 0x00, 0x00, 0x00, 0x00, 0x00, 0x00,
    0x00, 0x00, 0x00, 0x00, 0x00, 0x00, 0x00, 0x00, 0x00, 0x00, 0x00, 0x05, 0x5d, 0x41, 0x40, 0x2a,
    0xbc, 0x4b, 0x2a, 0x76, 0xb9, 0x71, 0x9d, 0x91, 0x10, 0x17, 0xc5, 0x92, 0x00, 0x00, 0xf4, 0x55,
    0xe4, 0x03, 0xa2, 0x9c, 0x11, 0xe2, 0x26, 0x7c, 0xb2, 0x19, 0x38, 0xd2, 0x01, 0xff,
];

// A number of each kind: 7, 258, 2^32 + 3, -2, true, and the text `abc`.
const NUMBERS: &[u8] =
    b"\x07\x01\x02\0\0\0\x01\0\0\0\x03\xff\xff\xff\xff\xff\xff\xff\xfe\x01\x03abc";

#[test]
fn a_table_is_written_and_sealed(rt: HostRuntime) -> Result<(), Fail> {
    let mut out = Vec::new(rt.alloc());
    put_bytes(&mut out, b"RTB1\0\0\0\x01\x01")?;
    put_text16(&mut out, b"a.txt")?;
    put_u32(&mut out, 0o644)?;
    put_bytes(&mut out, &TABLE[20..62])?;
    let file = seal(out)?;
    expect(file.as_slice() == TABLE.as_slice(), "another table")
}

/// The fields of a table's head, up to the path.
fn expect_head(reader: &mut Reader<'_>) -> Result<(), Fail> {
    expect(reader.read_magic(b"RTB1") == Ok(()), "another magic")?;
    expect(reader.read_u32() == Ok(1), "another number")?;
    expect(reader.read_flag() == Ok(true), "another flag")?;
    expect(reader.read_text16() == Ok(b"a.txt"), "another path")
}

/// Behind the path are 46 bytes, which a copy of the reader reads, and the reader still has to.
fn expect_rest(reader: Reader<'_>) -> Result<(), Fail> {
    let mut ahead = reader.copy();
    expect(ahead.read_bytes(46).is_ok(), "too few bytes")?;
    expect(ahead.finish() == Ok(()), "more bytes")?;
    expect(reader.finish() == Err(TrailingBytes(16)), "at its end")
}

#[test]
fn a_sealed_table_is_read(rt: HostRuntime) -> Result<(), Fail> {
    let body = open_sealed(&TABLE).expect(&rt, "the seal is right");
    expect(body.len() == 62, "another length")?;
    let mut reader = Reader::of_sealed(&TABLE).expect(&rt, "the seal is right");
    expect_head(&mut reader)?;
    expect_rest(reader)
}

#[test]
fn numbers_are_written(rt: HostRuntime) -> Result<(), Fail> {
    let mut out = Vec::new(rt.alloc());
    put_u8(&mut out, 7)?;
    put_u16(&mut out, 258)?;
    put_u64(&mut out, 0x1_0000_0003)?;
    put_i64(&mut out, -2)?;
    put_flag(&mut out, true)?;
    put_text8(&mut out, b"abc")?;
    expect(out.as_slice() == NUMBERS, "other bytes")
}

#[test]
fn numbers_are_read(_rt: HostRuntime) -> Result<(), Fail> {
    let mut reader = Reader::new(NUMBERS);
    expect(reader.read_u8() == Ok(7), "another u8")?;
    expect(reader.read_u16() == Ok(258), "another u16")?;
    expect(reader.read_u64() == Ok(0x1_0000_0003), "another u64")?;
    expect(reader.read_i64() == Ok(-2), "another i64")?;
    expect(reader.offset() == 19, "another offset")
}

#[test]
fn what_is_broken_is_refused_at_its_place(_rt: HostRuntime) -> Result<(), Fail> {
    let broken = open_sealed(&TABLE[..77]).err();
    expect(broken == Some(BadSeal(61)), "another seal")?;
    let mut reader = Reader::new(&NUMBERS[20..]);
    expect(
        reader.read_flag() == Err(FieldFault::Foreign(0)),
        "another flag",
    )?;
    expect(
        reader.read_digest() == Err(FieldFault::Ended(0)),
        "a digest",
    )?;
    expect(reader.read_text8() == Ok(b"abc"), "another text")?;
    expect(reader.is_at_end(), "more bytes")
}
