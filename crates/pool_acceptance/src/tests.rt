//! Tests of the pool.

use disk_trait::{Disk, DiskRoom, FileId, MemoryDisk, PoolId};
use intent_journal::Journal;
use pool_name::{FirstByteNamer, Md5Namer, Namer};
use pool_store::{Pool, PoolFault};
use std::alloc::Global;
use std::test::Fail;

/// The content `hello`, whose digest is its MD5 (RFC 1321).
const HELLO: PoolId = PoolId {
    digest: *b"\x5d\x41\x40\x2a\xbc\x4b\x2a\x76\xb9\x71\x9d\x91\x10\x17\xc5\x92",
    extension: 0,
};

/// The file of the byte 5d, whose one item is `hello`, unmarked. The last 16 bytes are the MD5 of those before.
const BUCKET: &[u8; 56] =
    b"RPB1\x5d\x00\x00\x00\x00\x00\x00\x00\x01\x5d\x41\x40\x2a\xbc\x4b\x2a\x76\xb9\x71\x9d\x91\x10\x17\xc5\x92\x00\x00\x00\x00\x00\x00\x00\x00\x00\x05\x00\x2d\x4d\xf6\xb9\xfa\xbe\x42\x75\x0d\x87\xb1\x2f\x2b\xc3\xa7\x25";

/// The one file of an older store with the same item.
const INDEX: &[u8; 55] =
    b"RPI1\x00\x00\x00\x00\x00\x00\x00\x01\x5d\x41\x40\x2a\xbc\x4b\x2a\x76\xb9\x71\x9d\x91\x10\x17\xc5\x92\x00\x00\x00\x00\x00\x00\x00\x00\x00\x05\x00\xc1\x8f\x0c\xad\x12\xae\xf4\xa2\x4f\xf3\xa4\xe7\x0b\xc6\xa6\xaa";

/// A journal over a disk with these files.
fn journal_of(alloc: Global, files: &[(FileId, &[u8])]) -> Result<Journal<MemoryDisk>, Fail> {
    let room = DiskRoom {
        changes: 200_000,
        bytes: 2_000_000,
    };
    let mut disk = MemoryDisk::new(alloc, Vec::new(alloc), room)?;
    for (file, bytes) in files {
        disk.write(*file, bytes)?;
    }
    match Journal::open(alloc, disk) {
        Ok(journal) => Ok(journal),
        Err(_) => Err(Fail::new("the journal was not opened")),
    }
}

/// The pool of a journal.
fn open<N: Namer>(
    alloc: Global,
    journal: &mut Journal<MemoryDisk>,
    namer: N,
) -> Result<Result<Pool<N>, PoolFault>, Fail> {
    if journal.halted() {
        return Err(Fail::new("the journal is halted"));
    }
    Ok(Pool::open(alloc, journal, namer))
}

/// The pool of a journal whose files tell an index.
fn opened<N: Namer>(
    alloc: Global,
    journal: &mut Journal<MemoryDisk>,
    namer: N,
) -> Result<Pool<N>, Fail> {
    match open(alloc, journal, namer)? {
        Ok(pool) => Ok(pool),
        Err(fault) => Err(Fail::new(format_args!("{fault}"))),
    }
}

/// Takes a content in.
fn take_in<N: Namer>(
    alloc: Global,
    pool: &mut Pool<N>,
    journal: &mut Journal<MemoryDisk>,
    content: &[u8],
) -> Result<Result<PoolId, PoolFault>, Fail> {
    if journal.halted() || content.is_empty() {
        return Err(Fail::new("the journal is halted, or the content empty"));
    }
    Ok(pool.match_or_stage(alloc, journal, content))
}

/// Makes these bytes the file of a stage.
fn put_stage(journal: &mut Journal<MemoryDisk>, stage: u64, bytes: &[u8]) -> Result<(), Fail> {
    match journal.stage(FileId::Stage(stage), bytes) {
        Ok(()) => Ok(()),
        Err(_) => Err(Fail::new("the stage was not written")),
    }
}

/// Takes in the content that was put into a stage.
fn take_stage_in<N: Namer>(
    alloc: Global,
    pool: &mut Pool<N>,
    journal: &mut Journal<MemoryDisk>,
    stage: u64,
    content: &[u8],
) -> Result<Result<PoolId, PoolFault>, Fail> {
    if journal.halted() || content.is_empty() {
        return Err(Fail::new("the journal is halted, or the content empty"));
    }
    let digest = pool.namer().name(content);
    let size = content.len() as u64;
    Ok(pool.match_or_stage_file(alloc, journal, stage, size, digest))
}

/// The extension that a content gets.
fn extension_of<N: Namer>(
    alloc: Global,
    pool: &mut Pool<N>,
    journal: &mut Journal<MemoryDisk>,
    content: &[u8],
) -> Result<u16, Fail> {
    match take_in(alloc, pool, journal, content)? {
        Ok(id) => Ok(id.extension),
        Err(fault) => Err(Fail::new(format_args!("{fault}"))),
    }
}

/// What a read of a content gives: its bytes, or those that were found if it is damaged.
fn read<N: Namer>(
    alloc: Global,
    pool: &Pool<N>,
    journal: &mut Journal<MemoryDisk>,
    id: PoolId,
) -> Result<Result<Vec<u8>, Vec<u8>>, Fail> {
    if journal.halted() {
        return Err(Fail::new("the journal is halted"));
    }
    match pool.read(alloc, journal, id) {
        Ok(bytes) => Ok(Ok(Vec::from_slice(alloc, bytes.as_slice())?)),
        Err(
            PoolFault::Damaged {
                id: _,
                found: Some(bytes),
            },
        ) => Ok(Err(Vec::from_slice(alloc, bytes.as_slice())?)),
        Err(fault) => Err(Fail::new(format_args!("{fault}"))),
    }
}

/// Whether the pool says that a name holds a content.
fn holds<N: Namer>(
    alloc: Global,
    pool: &Pool<N>,
    journal: &mut Journal<MemoryDisk>,
    id: PoolId,
    content: &[u8],
) -> Result<bool, Fail> {
    if journal.halted() {
        return Err(Fail::new("the journal is halted"));
    }
    match pool.holds(alloc, journal, id, content) {
        Ok(same) => Ok(same),
        Err(fault) => Err(Fail::new(format_args!("{fault}"))),
    }
}

/// An index by hand, in either form, lists `hello`, in the fifth bucket; an altered file of it is told with its bytes.
#[test]
fn an_index_by_hand_is_opened(rt: HostRuntime) -> Result<(), Fail> {
    let alloc = rt.alloc();
    let forms: [(FileId, &[u8]); 2] = [
        (FileId::PoolBucket(0x5d), BUCKET),
        (FileId::PoolIndex, INDEX),
    ];
    let contents: [(&[u8], bool); 2] = [(b"hello", true), (b"hellO", false)];
    for form in forms {
        for (content, whole) in contents {
            let mut journal = journal_of(alloc, &[form, (FileId::Pool(HELLO), content)])?;
            let pool = opened(alloc, &mut journal, Md5Namer)?;
            let stats = pool.stats();
            assert!(rt; stats.files == 1 && stats.bytes == 5 && stats.marked == 0);
            assert_eq!(rt; pool.bucket_items(alloc, 5)?.as_slice().len(), 1);
            assert_eq!(rt; pool.bucket_items(alloc, 13)?.as_slice().len(), 0);
            let found = read(alloc, &pool, &mut journal, HELLO)?;
            assert_eq!(rt; found.is_ok(), whole);
            let (Ok(bytes) | Err(bytes)) = found;
            assert_eq!(rt; bytes.as_slice(), content);
        }
    }
    Ok(())
}

/// Files that tell no index are foreign: both forms at once, a listed content without a file, and a file that is cut.
#[test]
fn files_that_tell_no_index_are_foreign(rt: HostRuntime) -> Result<(), Fail> {
    let alloc = rt.alloc();
    let content: (FileId, &[u8]) = (FileId::Pool(HELLO), b"hello");
    let bucket: (FileId, &[u8]) = (FileId::PoolBucket(0x5d), BUCKET);
    let index: (FileId, &[u8]) = (FileId::PoolIndex, INDEX);
    let cut: (FileId, &[u8]) = (FileId::PoolBucket(0x5d), &BUCKET.as_slice()[..55]);
    let other: (FileId, &[u8]) = (FileId::PoolBucket(0x5e), BUCKET);
    let cases: [(&[(FileId, &[u8])], FileId); 5] = [
        (&[bucket, index, content], FileId::PoolIndex),
        (&[bucket], FileId::Pool(HELLO)),
        (&[index], FileId::Pool(HELLO)),
        (&[cut, content], FileId::PoolBucket(0x5d)),
        (&[other, content], FileId::PoolBucket(0x5e)),
    ];
    for (files, wrong) in cases {
        let mut journal = journal_of(alloc, files)?;
        match open(alloc, &mut journal, Md5Namer)? {
            Ok(_) => return Err(Fail::new("the pool was opened")),
            Err(PoolFault::Foreign { file, found: _ }) => assert!(rt; file == wrong),
            Err(fault) => return Err(Fail::new(format_args!("{fault}"))),
        }
    }
    Ok(())
}

/// A commit that adds nothing writes the one file of an older store anew, by the first bytes of the digests.
#[test]
fn the_one_file_of_an_older_store_is_taken_over(rt: HostRuntime) -> Result<(), Fail> {
    let alloc = rt.alloc();
    let mut journal = journal_of(
        alloc,
        &[(FileId::PoolIndex, INDEX), (FileId::Pool(HELLO), b"hello")],
    )?;
    let mut pool = opened(alloc, &mut journal, Md5Namer)?;
    let change = pool.settle(alloc, &[])?;
    match journal.commit(alloc, change.changes()) {
        Ok(()) => pool.accept(change),
        Err(_) => return Err(Fail::new("no commit")),
    }
    let mut disk = journal.close();
    assert!(rt; disk.read(alloc, FileId::PoolIndex)?.is_none());
    match disk.read(alloc, FileId::PoolBucket(0x5d))? {
        Some(bytes) => assert_eq!(rt; bytes.as_slice(), BUCKET.as_slice()),
        None => return Err(Fail::new("no file of the byte")),
    }
    Ok(())
}

/// Contents of one digest get one extension after the other, a content that is there the one it has; each is read back.
#[test]
fn contents_of_one_digest_have_extensions(rt: HostRuntime) -> Result<(), Fail> {
    let alloc = rt.alloc();
    let mut journal = journal_of(alloc, &[])?;
    let mut pool = opened(alloc, &mut journal, FirstByteNamer)?;
    let puts: [(&[u8], u16); 5] = [(b"a", 0), (b"ab", 1), (b"a", 0), (b"b", 0), (b"ab", 1)];
    for (content, extension) in puts {
        assert_eq!(rt;
            extension_of(alloc, &mut pool, &mut journal, content)?,
            extension
        );
        let id = PoolId {
            digest: FirstByteNamer.name(content),
            extension,
        };
        match read(alloc, &pool, &mut journal, id)? {
            Ok(bytes) => assert_eq!(rt; bytes.as_slice(), content),
            Err(_) => return Err(Fail::new("damaged")),
        }
    }
    Ok(())
}

/// Contents of one digest, of one, two and three pieces, some of them longer by a byte than others, are told apart whether
/// they come from a stage or from memory.
#[test]
fn a_stage_is_compared_and_copied_piece_by_piece(rt: HostRuntime) -> Result<(), Fail> {
    let alloc = rt.alloc();
    let mut journal = journal_of(alloc, &[])?;
    let mut pool = opened(alloc, &mut journal, FirstByteNamer)?;
    let digest = FirstByteNamer.name(&[7]);
    let rows: [(usize, u16); 7] = [
        (1, 0),
        (65_535, 1),
        (65_536, 2),
        (65_537, 3),
        (131_072, 4),
        (131_073, 5),
        (150_000, 6),
    ];
    for (length, extension) in &rows {
        let content = vec![in alloc; 7u8; *length]?;
        put_stage(&mut journal, 3, content.as_slice())?;
        let id = PoolId {
            digest,
            extension: *extension,
        };
        for _ in 0..2 {
            match take_stage_in(alloc, &mut pool, &mut journal, 3, content.as_slice())? {
                Ok(found) => assert!(rt; found == id),
                Err(fault) => return Err(Fail::new(format_args!("{fault}"))),
            }
        }
        assert_eq!(rt;
            extension_of(alloc, &mut pool, &mut journal, content.as_slice())?,
            *extension
        );
        match read(alloc, &pool, &mut journal, id)? {
            Ok(bytes) => assert_eq!(rt; bytes.as_slice(), content.as_slice()),
            Err(_) => return Err(Fail::new("damaged")),
        }
    }
    Ok(())
}

/// The file of a listed name is damaged: its content gets the next extension, and from then on that one, from memory and
/// from a stage. Reads of the listed name go on answering what was found. A stage whose file is shorter than what was put
/// into it, or absent, is foreign.
#[test]
fn a_damaged_file_is_passed_over(rt: HostRuntime) -> Result<(), Fail> {
    let alloc = rt.alloc();
    let mut journal = journal_of(
        alloc,
        &[
            (FileId::PoolBucket(0x5d), BUCKET),
            (FileId::Pool(HELLO), b"hellO"),
            (FileId::Stage(0), b"hello"),
            (FileId::Stage(1), b"worl"),
        ],
    )?;
    let mut pool = opened(alloc, &mut journal, Md5Namer)?;
    assert_eq!(rt; extension_of(alloc, &mut pool, &mut journal, b"hello")?, 1);
    assert_eq!(rt; extension_of(alloc, &mut pool, &mut journal, b"hello")?, 1);
    let stages: [(u64, &[u8], Option<u16>); 3] = [
        (0, b"hello", Some(1)),
        (1, b"world", None),
        (2, b"other", None),
    ];
    for (stage, content, extension) in stages {
        match take_stage_in(alloc, &mut pool, &mut journal, stage, content)? {
            Ok(id) => assert!(rt; Some(id.extension) == extension),
            Err(PoolFault::Foreign { file, found: _ }) => {
                assert!(rt; extension.is_none() && file == FileId::Stage(stage));
            }
            Err(fault) => return Err(Fail::new(format_args!("{fault}"))),
        }
    }
    assert!(rt; !holds(alloc, &pool, &mut journal, HELLO, b"hello")?);
    assert!(rt; holds(alloc, &pool, &mut journal, HELLO, b"hellO")?);
    match read(alloc, &pool, &mut journal, HELLO)? {
        Err(found) => assert_eq!(rt; found.as_slice(), b"hellO".as_slice()),
        Ok(_) => return Err(Fail::new("a damaged content was read")),
    }
    Ok(())
}

/// A name holds the bytes of its file and no others, while it is live or staged.
#[test]
fn a_name_holds_its_bytes_alone(rt: HostRuntime) -> Result<(), Fail> {
    let alloc = rt.alloc();
    let doomed = PoolId {
        digest: HELLO.digest,
        extension: 1,
    };
    let unused = PoolId {
        digest: HELLO.digest,
        extension: 2,
    };
    let mut journal = journal_of(
        alloc,
        &[
            (FileId::PoolBucket(0x5d), BUCKET),
            (FileId::Pool(HELLO), b"hello"),
            (FileId::Pool(doomed), b"hello"),
        ],
    )?;
    let pool = opened(alloc, &mut journal, Md5Namer)?;
    assert!(rt; pool.has(HELLO) && !pool.has(doomed) && !pool.has(unused));
    let cases: [(PoolId, &[u8], bool); 7] = [
        (HELLO, b"hello", true),
        (HELLO, b"hellO", false),
        (HELLO, b"hell", false),
        (HELLO, b"hello!", false),
        (HELLO, b"", false),
        (doomed, b"hello", false),
        (unused, b"hello", false),
    ];
    for (id, content, same) in cases {
        assert_eq!(rt; holds(alloc, &pool, &mut journal, id, content)?, same);
    }
    Ok(())
}

/// A pool whose every name of a digest is used takes no content of that digest until a sweep took the files away that
/// nothing lists; other digests aren't touched.
#[test]
fn a_chain_is_full_until_it_is_swept(rt: HostRuntime) -> Result<(), Fail> {
    let alloc = rt.alloc();
    let digest = FirstByteNamer.name(b"a");
    let room = DiskRoom {
        changes: 200_000,
        bytes: 200_000,
    };
    let mut disk = MemoryDisk::new(alloc, Vec::new(alloc), room)?;
    for extension in 0..=u16::MAX {
        disk.write(FileId::Pool(PoolId { digest, extension }), b"x")?;
    }
    let mut journal = match Journal::open(alloc, disk) {
        Ok(journal) => journal,
        Err(_) => return Err(Fail::new("the journal was not opened")),
    };
    let mut pool = opened(alloc, &mut journal, FirstByteNamer)?;
    match take_in(alloc, &mut pool, &mut journal, b"a")? {
        Err(PoolFault::ChainFull) => {}
        _ => return Err(Fail::new("the chain was not full")),
    }
    assert_eq!(rt; extension_of(alloc, &mut pool, &mut journal, b"b")?, 0);
    if journal.halted() {
        return Err(Fail::new("the journal is halted"));
    }
    match pool.sweep(&mut journal) {
        Ok(()) => {}
        Err(fault) => return Err(Fail::new(format_args!("{fault}"))),
    }
    assert_eq!(rt; extension_of(alloc, &mut pool, &mut journal, b"a")?, 0);
    let mut disk = journal.close();
    assert_eq!(rt; disk.list(alloc)?.as_slice().len(), 2);
    Ok(())
}
