use attr_records::{Attr, Dir, Link, LinkTarget, PathName};
use attr_tables::{
    Record, Row, StoredFile, Table, TableFault, TableLayout, read_table, write_table,
};
use disk_trait::PoolId;
use std::alloc::{AllocError, Global};
use std::test::Fail;
use wire_bytes::seal;

// The bodies in both layouts of a table that says of `a.txt` that it is the file `hello`, whose MD5 (RFC 1321) it names.
const FIRST: &[u8; 62] =
    b"RTB1\x00\x00\x00\x01\x01\x00\x05a.txt\x00\x00\x01\xa4\x00\x00\x00\x00\x00\x00\x00\x00\x00\x00\x00\x00\x00\x00\x00\x00\x00\x00\x00\x00\x00\x00\x00\x05\x5d\x41\x40\x2a\xbc\x4b\x2a\x76\xb9\x71\x9d\x91\x10\x17\xc5\x92\x00\x00";

const SECOND: &[u8; 70] =
    b"RTB2\x00\x00\x00\x01\x01\x00\x05a.txt\x00\x00\x01\xa4\x00\x00\x00\x00\x00\x00\x00\x00\x00\x00\x00\x00\x00\x00\x00\x00\x00\x00\x00\x00\x00\x00\x00\x00\x00\x00\x00\x00\x00\x00\x00\x05\x5d\x41\x40\x2a\xbc\x4b\x2a\x76\xb9\x71\x9d\x91\x10\x17\xc5\x92\x00\x00";
// The MD5 of the second.
const SEAL: &[u8; 16] = b"\x62\x90\x2b\xf6\x8a\xab\xc3\x54\x52\xb3\x1c\x14\xf5\x36\xd2\xed";

// A directory, a link to `../x`, a file of group 7 and a deleted path, as Python's `struct` lays them out.
const ALL_KINDS: &[u8; 134] =
    b"RTB2\x00\x00\x00\x04\x02\x00\x01a\x00\x00\x01\xed\x00\x00\x00\x01\x00\x00\x00\x02\xff\xff\xff\xff\xff\xff\xff\xfd\x00\x00\x00\x04\x03\x00\x03a/l\x00\x00\x01\xff\x00\x00\x00\x05\x00\x00\x00\x06\x00\x00\x00\x00\x00\x00\x00\x07\x3b\x9a\xc9\xff\x00\x04../x\x01\x00\x01f\x00\x00\x01\xa4\x00\x00\x00\x00\x00\x00\x00\x00\x00\x00\x00\x00\x00\x00\x00\x00\x00\x00\x00\x05\x00\x00\x00\x07\x00\x00\x00\x00\x00\x00\x00\x05\x5d\x41\x40\x2a\xbc\x4b\x2a\x76\xb9\x71\x9d\x91\x10\x17\xc5\x92\x00\x00\x00\x00\x01g";

const HELLO: [u8; 16] = *b"\x5d\x41\x40\x2a\xbc\x4b\x2a\x76\xb9\x71\x9d\x91\x10\x17\xc5\x92";

const DIR_A: &[u8] =
    b"\x02\x00\x01a\x00\x00\x01\xed\x00\x00\x00\x00\x00\x00\x00\x00\x00\x00\x00\x00\x00\x00\x00\x00";

const DIR_B: &[u8] =
    b"\x02\x00\x01b\x00\x00\x01\xed\x00\x00\x00\x00\x00\x00\x00\x00\x00\x00\x00\x00\x00\x00\x00\x00";

const DIR_A_AND_NANOS: &[u8] =
    b"\x02\x00\x01a\x00\x00\x01\xed\x00\x00\x00\x00\x00\x00\x00\x00\x00\x00\x00\x00\x00\x00\x00\x00\x3b\x9a\xc9\xff";

const DIR_B_AND_NANOS: &[u8] =
    b"\x02\x00\x01b\x00\x00\x01\xed\x00\x00\x00\x00\x00\x00\x00\x00\x00\x00\x00\x00\x00\x00\x00\x00\x00\x00\x00\x01";

const DIR_OF_A_WHOLE_SECOND: &[u8] =
    b"\x02\x00\x01a\x00\x00\x01\xed\x00\x00\x00\x00\x00\x00\x00\x00\x00\x00\x00\x00\x00\x00\x00\x00\x3b\x9a\xca\x00";

const DIR_OF_MODE_4096: &[u8] =
    b"\x02\x00\x01a\x00\x00\x10\x00\x00\x00\x00\x00\x00\x00\x00\x00\x00\x00\x00\x00\x00\x00\x00\x00";

const EMPTY_FILE_WITH_NO_SIZE: &[u8] =
    b"\x01\x00\x01a\x00\x00\x01\xa4\x00\x00\x00\x00\x00\x00\x00\x00\x00\x00\x00\x00\x00\x00\x00\x00";

// The parts of a body, and where it breaks the layout.
const CASES: [([&[u8]; 3], Option<usize>); 21] = [
    ([b"RTB1\x00\x00\x00\x00", b"", b""], None),
    ([b"RTB2\x00\x00\x00\x00", b"", b""], None),
    ([b"RTB1\x00\x00\x00\x02", DIR_A, DIR_B], None),
    (
        [b"RTB2\x00\x00\x00\x02", DIR_A_AND_NANOS, DIR_B_AND_NANOS],
        None,
    ),
    ([b"", b"", b""], Some(0)),
    ([b"RTB", b"", b""], Some(0)),
    ([b"RTB3\x00\x00\x00\x00", b"", b""], Some(0)),
    ([b"RTB1\x00\x00\x00", b"", b""], Some(4)),
    ([b"RTB2\x00\x00\x00", b"", b""], Some(4)),
    ([b"RTB1\x00\x00\x00\x02", DIR_B, DIR_A], Some(32)),
    ([b"RTB1\x00\x00\x00\x02", DIR_B, DIR_B], Some(32)),
    ([b"RTB1\x00\x00\x00\x02", DIR_B, b""], Some(32)),
    ([b"RTB1\x00\x00\x00\x01", DIR_A, b"\x00"], Some(32)),
    (
        [b"RTB2\x00\x00\x00\x02", DIR_B_AND_NANOS, DIR_A_AND_NANOS],
        Some(36),
    ),
    ([b"RTB2\x00\x00\x00\x02", DIR_B_AND_NANOS, b""], Some(36)),
    (
        [b"RTB2\x00\x00\x00\x01", DIR_A_AND_NANOS, b"\x00"],
        Some(36),
    ),
    (
        [b"RTB2\x00\x00\x00\x01", DIR_OF_A_WHOLE_SECOND, b""],
        Some(8),
    ),
    ([b"RTB1\x00\x00\x00\x01", DIR_OF_MODE_4096, b""], Some(8)),
    (
        [b"RTB1\x00\x00\x00\x01", EMPTY_FILE_WITH_NO_SIZE, b""],
        Some(8),
    ),
    ([b"RTB1\x00\x00\x00\x01", b"\x00\x00\x01.", b""], Some(8)),
    ([b"RTB1\x00\x00\x00\x01", b"\x04\x00\x01a", b""], Some(8)),
];

fn sealed(alloc: Global, parts: [&[u8]; 3]) -> Result<Vec<u8>, AllocError> {
    let mut body = Vec::new(alloc);
    for part in parts {
        body.extend_from_slice(part)?;
    }
    seal(body)
}

#[test]
fn one_file_is_read_and_written(rt: HostRuntime) -> Result<(), Fail> {
    let alloc = rt.alloc();
    let old = sealed(alloc, [FIRST, b"", b""])?;
    assert_eq!(rt; old.len(), 78);
    let read = read_table(alloc, old.as_slice())?;
    assert_eq!(rt; read.layout, TableLayout::First);
    let written = write_table(alloc, &read.table)?;
    let mut expected = Vec::from_slice(alloc, SECOND)?;
    expected.extend_from_slice(SEAL)?;
    assert_eq!(rt; written.as_slice(), expected.as_slice());
    let again = read_table(alloc, written.as_slice())?;
    assert_eq!(rt; again.layout, TableLayout::Second);
    assert_eq!(rt; again.table.len(), 1);
    let path = PathName::read(alloc, b"a.txt")?;
    assert!(rt; again.table.find(&path).is_some());
    Ok(())
}

#[test]
fn each_kind_is_written_and_read(rt: HostRuntime) -> Result<(), Fail> {
    let alloc = rt.alloc();
    let dir = Record::Dir(Dir {
        attr: Attr::new(0o755, 1, 2, -3, 4),
    });
    let link = Record::Link(Link {
        attr: Attr::new(0o777, 5, 6, 7, 999_999_999),
        target: LinkTarget::read(alloc, b"../x")?,
    });
    let content = PoolId {
        digest: HELLO,
        extension: 0,
    };
    let file = Record::File(StoredFile {
        attr: Attr::new(0o644, 0, 0, 0, 5),
        group: 7,
        size: 5,
        content: Some(content),
    });
    let mut table = Table::new(alloc);
    table.push(Row::new(PathName::read(alloc, b"a")?, dir))?;
    table.push(Row::new(PathName::read(alloc, b"a/l")?, link))?;
    table.push(Row::new(PathName::read(alloc, b"f")?, file))?;
    table.push(Row::new(PathName::read(alloc, b"g")?, Record::Deleted))?;
    let expected = sealed(alloc, [ALL_KINDS, b"", b""])?;
    let written = write_table(alloc, &table)?;
    assert_eq!(rt; written.as_slice(), expected.as_slice());
    let read = read_table(alloc, expected.as_slice())?;
    let again = write_table(alloc, &read.table.copy(alloc)?)?;
    assert_eq!(rt; again.as_slice(), expected.as_slice());
    Ok(())
}

#[test]
fn files_that_break_the_layout(rt: HostRuntime) -> Result<(), Fail> {
    let alloc = rt.alloc();
    for (parts, offset) in CASES {
        let file = sealed(alloc, parts)?;
        let fault = offset.map(TableFault::BadTable);
        assert_eq!(rt; read_table(alloc, file.as_slice()).err(), fault);
    }
    let unsealed: [(&[u8], usize); 3] = [(b"", 0), (b"fifteen bytes..", 0), (FIRST, 46)];
    for (file, offset) in unsealed {
        assert_eq!(rt;
            read_table(alloc, file).err(),
            Some(TableFault::BadTable(offset))
        );
    }
    Ok(())
}
