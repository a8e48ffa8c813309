ghost use Rattle.std.specs.Prelude.{◌≡◌, IfOk};

use attr_records::{Attr, File, Item, PathName};
use disk_trait::Bytes;
use restore_stream::{
    Frame, FrameCursor, Made, MadeList, PushFault, ReadStreamFault, WriteStreamFault, frame_bytes,
    no_stream_begins_another, read_frame, read_stream, write_stream,
};
use std::alloc::{AllocError, Global};
use std::test::Fail;
use stream_traits::{Faults, MemoryLink, Source};

// The frames of one file `a.txt` with `hello`, of mode 0644, all else 0: an entry, a piece, the end.
const ENTRY: &[u8] =
    b"E\x01\x00\x05a.txt\x00\x00\x01\xa4\x00\x00\x00\x00\x00\x00\x00\x00\x00\x00\x00\x00\x00\x00\x00\x00\x00\x00\x00\x00\x00\x00\x00\x00\x00\x00\x00\x00\x00\x00\x00\x05";

const PIECE: &[u8] = b"D\x00\x00\x00\x05hello";

const END: &[u8] = b"Z\x00\x00\x00\x01";

// A directory `a`, a link `a/l` to `../x` and an empty file `b` of group 7, as Python's `struct` lays them out.
const KINDS: &[u8] =
    b"RST2E\x02\x00\x01a\x00\x00\x01\xed\x00\x00\x00\x01\x00\x00\x00\x02\xff\xff\xff\xff\xff\xff\xff\xfd\x00\x00\x00\x04E\x03\x00\x03a/l\x00\x00\x01\xff\x00\x00\x00\x05\x00\x00\x00\x06\x00\x00\x00\x00\x00\x00\x00\x07\x3b\x9a\xc9\xff\x00\x04../xE\x01\x00\x01b\x00\x00\x01\xa4\x00\x00\x00\x00\x00\x00\x00\x00\x00\x00\x00\x00\x00\x00\x00\x00\x00\x00\x00\x00\x00\x00\x00\x07\x00\x00\x00\x00\x00\x00\x00\x00Z\x00\x00\x00\x03";

const DIR_A: &[u8] =
    b"E\x02\x00\x01a\x00\x00\x01\xed\x00\x00\x00\x00\x00\x00\x00\x00\x00\x00\x00\x00\x00\x00\x00\x00\x00\x00\x00\x00";

const DIR_B: &[u8] =
    b"E\x02\x00\x01b\x00\x00\x01\xed\x00\x00\x00\x00\x00\x00\x00\x00\x00\x00\x00\x00\x00\x00\x00\x00\x00\x00\x00\x00";

// A path that was lost.
const DELETED: &[u8] = b"X\x00\x05a.txt";

// The parts of an input, and the fault that reading it gives.
const CASES: [([&[u8]; 3], ReadStreamFault); 18] = [
    ([b"", b"", b""], ReadStreamFault::Ended),
    ([b"RS1", b"", b""], ReadStreamFault::Ended),
    ([b"RST1", END, b""], ReadStreamFault::BadStream(0)),
    ([b"RST2", b"D", b""], ReadStreamFault::BadStream(4)),
    ([b"RST2", DELETED, END], ReadStreamFault::BadStream(4)),
    ([b"RST2", DIR_A, DELETED], ReadStreamFault::BadStream(33)),
    ([b"RST2", b"E\x00", b""], ReadStreamFault::BadStream(4)),
    ([b"RST2", b"E\x04", b""], ReadStreamFault::BadStream(4)),
    ([b"RST2", b"E\x01\x13\x88a", b""], ReadStreamFault::Ended),
    (
        [b"RST2", b"E\x01\x00\x01.", b""],
        ReadStreamFault::BadStream(4),
    ),
    (
        [b"RST2", b"E\x01\x00\x03a/b", b""],
        ReadStreamFault::BadStream(4),
    ),
    (
        [b"RST2", b"E\x02\x00\x01a\x00\x00\x10\x00", b""],
        ReadStreamFault::BadStream(4),
    ),
    ([b"RST2", DIR_B, DIR_A], ReadStreamFault::BadStream(33)),
    ([b"RST2", DIR_A, DIR_A], ReadStreamFault::BadStream(33)),
    (
        [b"RST2", DIR_A, b"Z\x00\x00\x00\x02"],
        ReadStreamFault::BadStream(33),
    ),
    ([b"RST2", ENTRY, END], ReadStreamFault::BadStream(49)),
    (
        [b"RST2", ENTRY, b"D\x00\x00\x00\x04hell"],
        ReadStreamFault::BadStream(49),
    ),
    ([b"RST2", ENTRY, PIECE], ReadStreamFault::Ended),
];

fn joined(alloc: Global, parts: [&[u8]; 3]) -> Result<Vec<u8>, AllocError> {
    let mut bytes = Vec::new(alloc);
    for part in parts {
        bytes.extend_from_slice(part)?;
    }
    Ok(bytes)
}

/// A link that gives these bytes to be read and has so much room for what is written.
fn link_of(alloc: Global, input: &[u8], room: usize) -> Result<MemoryLink, AllocError>
    ensures { IfOk result (λ link. ⟦<MemoryLink as Faults>⟧.sent link ≡ ⟦<MemoryLink as Faults>⟧.written link) }
{
    let input = Vec::from_slice(alloc, input)?;
    MemoryLink::new(alloc, input, room, Vec::new(alloc))
}

fn file(bytes: Bytes) -> Item {
    Item::File(File {
        attr: Attr::file_default(),
        group: 0,
        bytes,
    })
}

fn hello(alloc: Global) -> Result<MadeList, Fail> {
    let mut tree = MadeList::new(alloc);
    let path = PathName::read(alloc, b"a.txt")?;
    tree.push(Made::new(path, file(Bytes::from_slice(alloc, b"hello")?)))?;
    Ok(tree)
}

/// What is written of a tree.
fn written(alloc: Global, tree: &MadeList, room: usize) -> Result<Vec<u8>, Fail> {
    let mut link = link_of(alloc, b"", room)?;
    write_stream(alloc, tree, &mut link)?;
    Ok(Vec::from_slice(alloc, link.output())?)
}

#[test]
fn one_file_has_three_frames(rt: HostRuntime) -> Result<(), Fail> {
    let alloc = rt.alloc();
    let tree = hello(alloc)?;
    let mut cursor = FrameCursor::new(tree.rows());
    for expected in [ENTRY, PIECE, END] {
        let frame = cursor.next_frame(alloc)?.expect(&rt, "a frame is left");
        assert_eq!(rt; frame_bytes(alloc, &frame)?.as_slice(), expected);
    }
    assert!(rt; cursor.next_frame(alloc)?.is_none());
    let bytes = written(alloc, &tree, 100)?;
    assert_eq!(rt; bytes.len(), 64);
    assert_eq!(rt; &bytes[..4], b"RST2".as_slice());
    no_stream_begins_another();
    Ok(())
}

#[test]
fn each_kind_is_read_and_written(rt: HostRuntime) -> Result<(), Fail> {
    let alloc = rt.alloc();
    let input = joined(alloc, [KINDS, b"more", b""])?;
    let mut link = link_of(alloc, input.as_slice(), 0)?;
    let tree = read_stream(alloc, &mut link)?;
    assert_eq!(rt; tree.len(), 3);
    let mut rest = [0u8; 8];
    assert_eq!(rt; link.read(&mut rest), Ok(4));
    assert_eq!(rt; &rest[..4], b"more".as_slice());
    assert_eq!(rt; written(alloc, &tree, 200)?.as_slice(), KINDS);
    let path = PathName::read(alloc, b"a/x/y")?;
    let mut tree = tree;
    let made = Made::new(path, file(Bytes::new(alloc)));
    assert_eq!(rt; tree.push(made), Err(PushFault::NotNext));
    Ok(())
}

#[test]
fn what_was_written_is_read_back(rt: HostRuntime) -> Result<(), Fail> {
    let alloc = rt.alloc();
    let tree = hello(alloc)?;
    let stream = written(alloc, &tree, 100)?;
    let input = joined(alloc, [stream.as_slice(), b"more", b""])?;
    let mut link = link_of(alloc, input.as_slice(), 0)?;
    let read = read_stream(alloc, &mut link)?;
    for (made, first) in read.rows().iter().zip(tree.rows()) {
        assert!(rt; made.path().as_slice() == first.path().as_slice());
        assert!(rt; made.item() == first.item());
    }
    assert_eq!(rt; read.len(), 1);
    let mut rest = [0u8; 8];
    assert_eq!(rt; link.read(&mut rest), Ok(4));
    Ok(())
}

#[test]
fn a_file_is_given_in_pieces(rt: HostRuntime) -> Result<(), Fail> {
    let alloc = rt.alloc();
    for (size, length) in [(65_536usize, 65_595usize), (65_537, 65_601)] {
        let mut tree = MadeList::new(alloc);
        let path = PathName::read(alloc, b"a.txt")?;
        let bytes = Bytes::from_vec(vec![in alloc; 7u8; size]?);
        tree.push(Made::new(path, file(bytes)))?;
        let stream = written(alloc, &tree, length)?;
        assert_eq!(rt; stream.len(), length);
        let mut link = link_of(alloc, stream.as_slice(), 0)?;
        let read = read_stream(alloc, &mut link)?;
        assert_eq!(rt;
            written(alloc, &read, length)?.as_slice(),
            stream.as_slice()
        );
    }
    Ok(())
}

#[test]
fn inputs_that_are_no_stream(rt: HostRuntime) -> Result<(), Fail> {
    let alloc = rt.alloc();
    for (parts, fault) in CASES {
        let input = joined(alloc, parts)?;
        let mut link = link_of(alloc, input.as_slice(), 0)?;
        assert_eq!(rt; read_stream(alloc, &mut link).err(), Some(fault));
    }
    for length in 0..KINDS.len() {
        let mut link = link_of(alloc, &KINDS[..length], 0)?;
        assert_eq!(rt;
            read_stream(alloc, &mut link).err(),
            Some(ReadStreamFault::Ended)
        );
    }
    Ok(())
}

/// The first byte of a frame, if there is one.
fn tag_of(frame: Option<Frame>) -> Option<u8> {
    match frame {
        None => None,
        Some(Frame::Deleted(_)) => Some(b'X'),
        Some(Frame::Entry { .. }) => Some(b'E'),
        Some(Frame::Piece(_)) => Some(b'D'),
        Some(Frame::End(_)) => Some(b'Z'),
    }
}

#[test]
fn a_frame_is_read_by_itself(rt: HostRuntime) -> Result<(), Fail> {
    let alloc = rt.alloc();
    let lost = Frame::Deleted(PathName::read(alloc, b"a.txt")?);
    assert_eq!(rt; frame_bytes(alloc, &lost)?.as_slice(), DELETED);
    for bytes in [DELETED, ENTRY, DIR_A, PIECE, END] {
        assert_eq!(rt; tag_of(read_frame(alloc, bytes)?), bytes.first().copied());
        for length in 0..bytes.len() {
            assert!(rt; read_frame(alloc, &bytes[..length])?.is_none());
        }
        let more = joined(alloc, [bytes, b"Z", b""])?;
        assert!(rt; read_frame(alloc, more.as_slice())?.is_none());
    }
    for bytes in [
        b"X\x00\x00".as_slice(),
        b"X\x00\x01.",
        b"D\x00\x00\x00\x00",
        b"Y",
    ] {
        assert!(rt; read_frame(alloc, bytes)?.is_none());
    }
    Ok(())
}

#[test]
fn a_failed_call_is_told(rt: HostRuntime) -> Result<(), Fail> {
    let alloc = rt.alloc();
    let tree = hello(alloc)?;
    for call in 0..3u64 {
        let fails = vec![in alloc; call]?;
        let input = Vec::from_slice(alloc, KINDS)?;
        let mut link = MemoryLink::new(alloc, input, 100, fails)?;
        assert_eq!(rt;
            read_stream(alloc, &mut link).err(),
            Some(ReadStreamFault::ReadFault)
        );
        let fails = vec![in alloc; call]?;
        let mut link = MemoryLink::new(alloc, Vec::new(alloc), 100, fails)?;
        let fault = WriteStreamFault::WriteFault;
        assert_eq!(rt; write_stream(alloc, &tree, &mut link), Err(fault));
    }
    Ok(())
}
