use attr_records::HostName;
use backup_index::{
    HeadFile, HostIndex, IndexFault, IndexLayout, IndexRule, Kind, Line, LineList, MAX_HOSTS,
    NameList, NameRefusal, Rules, read_head_file, read_host_index, write_head_file,
    write_host_index,
};
use receipts::ReceiptList;
use std::alloc::{AllocError, Global};
use std::test::Fail;
use wire_bytes::seal;

// The body of the head of a store in its third epoch, with the hosts `a` and `b-1`.
const HEAD: &[u8; 22] = b"RHD1\x00\x00\x00\x00\x00\x00\x00\x03\x00\x00\x00\x02\x01a\x03b-1";
// The MD5 (RFC 1321) of the body, as Python's `hashlib` computes it; so are those below.
const HEAD_SEAL: &[u8; 16] = b"\xf4\xae\x71\x55\x00\x08\xdf\x4c\xd3\xfa\x89\x15\x1b\x08\xe8\x7a";
// Where its fields and names begin.
const HEAD_STARTS: [usize; 5] = [0, 4, 12, 16, 18];

// The body of the index of the host `a`, whose number is 7, with the default rules and two backups, in the second layout.
const INDEX: &[u8; 144] =
    b"\x52\x48\x49\x32\x00\x00\x00\x07\x01\x61\x00\x00\x00\x00\x00\x09\x30\x60\x00\x01\x47\x60\x01\x00\x00\x00\x01\x00\x00\x00\x01\x00\x00\x00\xb4\x00\x00\x00\x06\x00\x00\x00\x01\x00\x00\x00\x1e\x00\x00\x00\x07\x00\x00\x00\x03\x01\x01\xa4\x04\x92\x3e\x00\x00\x00\x00\x01\x00\x00\x00\x01\x00\x00\x00\x00\x00\x00\x00\x02\x00\x00\x00\x01\x00\x00\x00\x00\x00\x00\x00\x03\x00\x00\x00\x00\x00\x00\x00\x02\x00\x00\x00\x00\x00\x00\x00\x00\x00\x00\x03\xe8\x00\x00\x00\x00\x00\x00\x04\x24\x01\x00\x00\x00\x00\x00\x02\x00\x00\x00\x00\x00\x00\x07\xd0\x00\x00\x00\x00\x00\x00\x08\x0c\x02\x01\x01";

const INDEX_SEAL: &[u8; 16] = b"\x12\x20\x16\x96\xb2\xbb\xdf\x7b\x80\x71\x28\x2b\xa8\x05\x7b\x1b";
// The seal of the same in the third layout, which has 3 for the 2 of its magic, and behind the rules, at 74, two bytes more: that
// there are no receipts. In this layout an index is written.
const THIRD_SEAL: &[u8; 16] = b"\x2e\x73\x41\xc9\x2d\x5a\x24\x22\x9e\x76\xc7\x3c\xd8\xb5\xb5\x6c";

// Where its fields and items begin.
const INDEX_STARTS: [usize; 27] = [
    0, 4, 8, 10, 14, 18, 22, 23, 27, 31, 35, 39, 43, 47, 51, 55, 56, 61, 65, 66, 70, 74, 78, 82,
    90, 98, 121,
];

// The seal of the same in the first layout, which has 1 for the 2 of its magic and not the 13 bytes of old backups.
const FIRST_SEAL: &[u8; 16] = b"\x4c\xdc\xb4\x20\x47\x7f\x3d\xf0\x84\xdc\xaa\x13\xea\x38\xb2\x32";

const FULL: Line = Line {
    number: 0,
    start: 1000,
    end: 1060,
    kind: Kind::Full,
    filled: false,
    keep: false,
};

const FILLED: Line = Line {
    number: 0,
    start: 1000,
    end: 1060,
    kind: Kind::Full,
    filled: true,
    keep: false,
};

const INCR: Line = Line {
    number: 2,
    start: 2000,
    end: 2060,
    kind: Kind::Incr,
    filled: true,
    keep: true,
};

fn expect(holds: bool, text: &'static str) -> Result<(), Fail> {
    if holds { Ok(()) } else { Err(Fail::new(text)) }
}

// The bytes one behind the other.
fn joined(alloc: Global, parts: &[&[u8]]) -> Result<Vec<u8>, AllocError> {
    let mut bytes = Vec::new(alloc);
    for part in parts {
        bytes.extend_from_slice(part)?;
    }
    Ok(bytes)
}

fn head_offset(alloc: Global, file: &[u8]) -> Result<usize, Fail> {
    match read_head_file(alloc, file) {
        Err(IndexFault::BadIndex(offset)) => Ok(offset),
        _ => Err(Fail::new("no break of a head")),
    }
}

fn index_offset(alloc: Global, file: &[u8]) -> Result<usize, Fail> {
    match read_host_index(alloc, file) {
        Err(IndexFault::BadIndex(offset)) => Ok(offset),
        _ => Err(Fail::new("no break of an index")),
    }
}

// The offset where the last field or item begins of so many bytes.
fn start_of(starts: &[usize], len: usize) -> usize {
    let mut last = 0;
    for start in starts {
        if *start <= len {
            last = *start;
        }
    }
    last
}

fn expect_head_cut(alloc: Global, len: usize) -> Result<(), Fail> {
    let file = seal(joined(alloc, &[&HEAD[..len.min(22)]])?)?;
    let offset = head_offset(alloc, file.as_slice())?;
    expect(offset == start_of(&HEAD_STARTS, len), "another offset")
}

fn expect_index_cut(alloc: Global, len: usize) -> Result<(), Fail> {
    let file = seal(joined(alloc, &[&INDEX[..len.min(144)]])?)?;
    let offset = index_offset(alloc, file.as_slice())?;
    expect(offset == start_of(&INDEX_STARTS, len), "another offset")
}

// What stands behind the first fourteen bytes of a head, and where the whole breaks.
struct Head(&'static [u8], usize);

const HEADS: [Head; 5] = [
    Head(b"\x00\x02\x01a\x01a", 18),
    Head(b"\x04\x01", 12),
    Head(b"\x00\x01\x01A", 16),
    Head(b"\x00\x01\x00", 16),
    Head(b"\x00\x01\x01a\x00", 18),
];

fn expect_bad_head(alloc: Global, head: &Head) -> Result<(), Fail> {
    let file = seal(joined(alloc, &[&HEAD[..14], head.0])?)?;
    expect(
        head_offset(alloc, file.as_slice())? == head.1,
        "another offset",
    )
}

// An index of a byte, the byte that is put there, and where the index of a host breaks then: its magic, its name, a
// setting, a period, an old count, the next number (above 2^32, then one too few), the number of lines, a kind, a flag, a
// number that doesn't rise, the last line not filled.
struct Byte(usize, u8, usize);

const BYTES: [Byte; 13] = [
    Byte(0, b'r', 0),
    Byte(3, b'4', 0),
    Byte(9, b'A', 8),
    Byte(10, 1, 10),
    Byte(60, 0, 56),
    Byte(65, 17, 65),
    Byte(85, 1, 82),
    Byte(89, 2, 121),
    Byte(97, 1, 98),
    Byte(97, 3, 144),
    Byte(118, 3, 98),
    Byte(124, 0, 121),
    Byte(142, 0, 121),
];

fn with_byte(alloc: Global, byte: &Byte) -> Result<Vec<u8>, AllocError> {
    let mut body = INDEX.to_vec(alloc)?;
    if let Some(changed) = body.get_mut(byte.0) {
        *changed = byte.1;
    }
    seal(body)
}

fn expect_bad_byte(alloc: Global, byte: &Byte) -> Result<(), Fail> {
    let file = with_byte(alloc, byte)?;
    expect(
        index_offset(alloc, file.as_slice())? == byte.2,
        "another offset",
    )
}

fn name_of(alloc: Global, text: &[u8]) -> Result<HostName, Fail> {
    Ok(HostName::read(alloc, text)?)
}

fn list_of(alloc: Global, lines: &[Line]) -> Result<LineList, AllocError> {
    let mut list = LineList::new(alloc);
    for line in lines {
        list.push(*line)?;
    }
    list.copy(alloc)
}

// An index without lines.
fn empty_index(alloc: Global) -> Result<HostIndex, Fail> {
    let name = name_of(alloc, b"a")?;
    let rules = Rules::defaults(alloc)?;
    let receipts = ReceiptList::new(alloc);
    let lines = LineList::new(alloc);
    Ok(HostIndex::new(7, name, rules, 0, 0, 0, receipts, lines)?)
}

fn expect_index_bytes(alloc: Global, index: &HostIndex) -> Result<(), Fail> {
    let body = INDEX.as_slice();
    let rules = &body[4..74];
    let lines = &body[74..];
    let expected = joined(alloc, &[b"RHI3", rules, b"\x00\x00", lines, THIRD_SEAL])?;
    let written = write_host_index(alloc, &index.parts())?;
    expect(written.as_slice() == expected.as_slice(), "other bytes")
}

fn expect_index_read(alloc: Global, file: &[u8], layout: IndexLayout) -> Result<(), Fail> {
    let (found, index) = read_host_index(alloc, file)?;
    expect(found == layout, "another layout")?;
    expect_index_bytes(alloc, &index)
}

// The next number, lines, and the rule that they break.
struct Broken(u64, &'static [Line], IndexRule);

const BROKEN: [Broken; 4] = [
    Broken(4_294_967_297, &[], IndexRule::NextTooLarge),
    Broken(3, &[INCR, INCR], IndexRule::NotRising),
    Broken(2, &[INCR], IndexRule::NotBelowNext),
    Broken(1, &[FULL], IndexRule::LastNotFilled),
];

fn expect_broken(alloc: Global, broken: &Broken) -> Result<(), Fail> {
    let mut index = empty_index(alloc)?;
    match index.set_lines(broken.0, list_of(alloc, broken.1)?) {
        Err(rule) => expect(rule == broken.2 && index.next() == 0, "another rule"),
        Ok(()) => Err(Fail::new("no rule is broken")),
    }
}

#[test]
fn head_of_two_hosts_is_written_and_read(rt: HostRuntime) -> Result<(), Fail> {
    let alloc = rt.alloc();
    let expected = joined(alloc, &[HEAD, HEAD_SEAL])?;
    let read = read_head_file(alloc, expected.as_slice())?;
    expect(read.epoch == 3 && read.names.len() == 2, "another head")?;
    let head = HeadFile {
        epoch: 3,
        names: read.names.copy(alloc)?,
    };
    let written = write_head_file(alloc, &head)?;
    expect(written.as_slice() == expected.as_slice(), "other bytes")
}

#[test]
fn heads_break_at_the_field_that_is_cut(rt: HostRuntime) -> Result<(), Fail> {
    let alloc = rt.alloc();
    for len in 0..22 {
        expect_head_cut(alloc, len)?;
    }
    for head in &HEADS {
        expect_bad_head(alloc, head)?;
    }
    expect(head_offset(alloc, b"")? == 0, "an offset in nothing")?;
    expect(head_offset(alloc, HEAD)? == 6, "another seal")
}

#[test]
fn no_more_names_than_there_may_be(rt: HostRuntime) -> Result<(), Fail> {
    let alloc = rt.alloc();
    let mut names = NameList::new(alloc);
    for number in 0..MAX_HOSTS {
        let text = format!(in alloc; "h{number}")?;
        names.push(name_of(alloc, text.as_bytes())?)?;
    }
    let one_more = names.push(name_of(alloc, b"more")?);
    expect(one_more == Err(NameRefusal::TooMany), "one name more")?;
    let file = write_head_file(alloc, &HeadFile { epoch: 0, names })?;
    let read = read_head_file(alloc, file.as_slice())?;
    expect(read.names.len() == 1024, "another number of names")
}

#[test]
fn no_name_comes_twice(rt: HostRuntime) -> Result<(), Fail> {
    let alloc = rt.alloc();
    let mut names = NameList::new(alloc);
    names.push(name_of(alloc, b"a")?)?;
    let twice = names.push(name_of(alloc, b"a")?);
    expect(twice == Err(NameRefusal::Twice), "a name twice")?;
    expect(names.len() == 1, "another number of names")
}

#[test]
fn an_index_is_edited_and_written(rt: HostRuntime) -> Result<(), Fail> {
    let alloc = rt.alloc();
    let mut index = empty_index(alloc)?;
    index.set_rules(Rules::defaults(alloc)?);
    index.set_contacts(2, 1);
    index.append(FILLED)?;
    index.append(INCR)?;
    index.replace(0, FULL)?;
    expect_index_bytes(alloc, &index)
}

#[test]
fn edits_that_break_a_rule(rt: HostRuntime) -> Result<(), Fail> {
    let alloc = rt.alloc();
    let mut index = empty_index(alloc)?;
    index.append(FILLED)?;
    expect(index.replace(0, FULL).is_err(), "the last isn't filled")?;
    expect(index.append(FILLED).is_err(), "a number twice")?;
    expect(index.next() == 1, "another next number")?;
    let mut empty = empty_index(alloc)?;
    expect(empty.append(FULL).is_err(), "the first isn't filled")
}

#[test]
fn indexes_of_the_first_two_layouts_are_read(rt: HostRuntime) -> Result<(), Fail> {
    let alloc = rt.alloc();
    let second = joined(alloc, &[INDEX, INDEX_SEAL])?;
    expect_index_read(alloc, second.as_slice(), IndexLayout::Second)?;
    let body = INDEX.as_slice();
    let early = &body[4..61];
    let late = &body[74..];
    let first = joined(alloc, &[b"RHI1", early, late, FIRST_SEAL])?;
    expect_index_read(alloc, first.as_slice(), IndexLayout::First)
}

#[test]
fn indexes_break_at_the_field_that_is_cut(rt: HostRuntime) -> Result<(), Fail> {
    let alloc = rt.alloc();
    for len in 0..144 {
        expect_index_cut(alloc, len)?;
    }
    let longer = seal(joined(alloc, &[INDEX, b"\x00"])?)?;
    let offset = index_offset(alloc, longer.as_slice())?;
    expect(offset == 144, "another offset")
}

#[test]
fn indexes_break_at_one_other_byte(rt: HostRuntime) -> Result<(), Fail> {
    let alloc = rt.alloc();
    for byte in &BYTES {
        expect_bad_byte(alloc, byte)?;
    }
    Ok(())
}

#[test]
fn lines_that_make_no_index(rt: HostRuntime) -> Result<(), Fail> {
    let alloc = rt.alloc();
    for broken in &BROKEN {
        expect_broken(alloc, broken)?;
    }
    let mut index = empty_index(alloc)?;
    Ok(index.set_lines(4_294_967_296, LineList::new(alloc))?)
}
