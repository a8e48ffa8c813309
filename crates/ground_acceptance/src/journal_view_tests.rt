ghost use Rattle.std.specs.Prelude.{◌≡◌, IfOk};
ghost use Rattle.intent_journal.specs.Changes.{AreChanges};

use disk_trait::{Bytes, Choice, Disk, DiskRoom, FileId, MemoryDisk, PoolId};
use intent_journal::{Change, Changes, Journal, OpenJournalFault};
use journal_view::{
    append, barrier, commit, crash, drop_data, get, list, open, read_at, read_data, reopen, stage,
};
use std::alloc::{AllocError, Global};
use std::test::Fail;

const TABLE: FileId = FileId::Table(3, 4_000_000_000);

const ID: PoolId = PoolId {
    digest: [7; 16],
    extension: 3,
};

const ROOM: DiskRoom = DiskRoom {
    changes: 100,
    bytes: 10_000,
};

const CHOICES: [Choice; 4] = [
    Choice::Written,
    Choice::Absent,
    Choice::One(0x4F),
    Choice::One(0xFF),
];

// The changes to 2 of `changes_to`, sealed as Python's `hashlib` does it.
const INTENT: [u8; 64] = [
    0x52, 0x49, 0x4e, 0x31, 0, 0, 0, 0, 0, 0, 0, 3, 1, 1, 0, 0, 0, 0, 0, 0, 0, 1, 2, 5, 0, 0, 0, 3,
    0xee, 0x6b, 0x28, 0x00, 1, 0, 0, 0, 0, 0, 0, 0, 1, 2, 6, 0, 0, 0, 1, 2, 0xaf, 0x88, 0x55, 0xc2,
    0xd7, 0x9f, 0xc5, 0x28, 0x8c, 0x3d, 0xa1, 0x8b, 0xe8, 0x06, 0x55, 0x4a,
];

// The other tags: host 7 gets no bytes, the pool's index goes, bucket 255 gets `ab`, the partial dump of host 1,023 goes.
const OTHER_INTENT: [u8; 66] = [
    0x52, 0x49, 0x4e, 0x31, 0, 0, 0, 0, 0, 0, 0, 4, 4, 0, 0, 0, 7, 1, 0, 0, 0, 0, 0, 0, 0, 0, 7, 2,
    8, 0, 0, 0, 0xff, 1, 0, 0, 0, 0, 0, 0, 0, 2, 0x61, 0x62, 9, 0, 0, 3, 0xff, 2, 0xc0, 0x4c, 0xd4,
    0xe1, 0x38, 0x51, 0xcb, 0x35, 0x66, 0xd2, 0xe0, 0xcb, 0x74, 0xd3, 0x68, 0x1f,
];

/// A file gets one byte, or goes.
fn change_to(alloc: Global, file: FileId, byte: Option<u8>) -> Result<Change, AllocError>
    ensures { IfOk result (λ change. change.file ≡ file) }
{
    match byte {
        None => Ok(Change { file, bytes: None }),
        Some(byte) => Ok(Change {
            file,
            bytes: Some(Bytes::from_slice(alloc, &[byte])?),
        }),
    }
}

/// The changes of three files to one byte each; at 2 the third of them goes.
fn changes_to(alloc: Global, byte: u8) -> Result<Changes, AllocError>
    ensures { IfOk result AreChanges }
{
    let last = if byte == 2 { None } else { Some(byte) };
    let head = change_to(alloc, FileId::Head, Some(byte))?;
    let table = change_to(alloc, TABLE, Some(byte))?;
    let counts = change_to(alloc, FileId::Counts(1), last)?;
    Ok(Changes::from_vec(Vec::from_array(alloc, [head, table, counts])?))
}

/// The byte of a file, 0 where it is absent.
fn byte_of<D: Disk>(alloc: Global, journal: &mut Journal<D>, file: FileId) -> u8 {
    match journal.get(alloc, file) {
        Ok(Some(bytes)) => *bytes.as_slice().first().unwrap_or(&99),
        Ok(None) => 0,
        Err(_) => 98,
    }
}

/// Which commit the files are of; 99 where they are of none.
fn state_of<D: Disk>(alloc: Global, journal: &mut Journal<D>) -> u8 {
    let head = byte_of(alloc, journal, FileId::Head);
    let table = byte_of(alloc, journal, TABLE);
    let counts = byte_of(alloc, journal, FileId::Counts(1));
    if table == head && counts == (if head == 2 { 0 } else { head }) {
        head
    } else {
        99
    }
}

/// A journal of the image that a crash at the moment leaves, and which commit its files are of.
fn open_image(
    alloc: Global,
    disk: &MemoryDisk,
    moment: usize,
    choice: Choice,
) -> Result<(u8, Option<MemoryDisk>), AllocError> {
    if moment > disk.moment() {
        return Ok((97, None));
    }
    match Journal::open(alloc, disk.image(alloc, moment, choice)?) {
        Ok(mut journal) => {
            let state = state_of(alloc, &mut journal);
            Ok((state, Some(journal.close())))
        }
        Err(_) => Ok((96, None)),
    }
}

/// Whether each image of an opened disk is of this commit.
fn is_always_of(alloc: Global, disk: &MemoryDisk, state: u8) -> Result<bool, AllocError> {
    for moment in 0..=disk.moment() {
        for choice in CHOICES {
            if open_image(alloc, disk, moment, choice)?.0 != state {
                return Ok(false);
            }
        }
    }
    Ok(true)
}

/// Whether the image of a crash is of one of these commits, and what a second crash leaves of its opening is too.
fn is_recovered(
    alloc: Global,
    disk: &MemoryDisk,
    moment: usize,
    choice: Choice,
    commits: (u8, u8),
) -> Result<bool, AllocError> {
    let (state, opened) = open_image(alloc, disk, moment, choice)?;
    match opened {
        Some(opened) if commits.0 <= state && state <= commits.1 => {
            is_always_of(alloc, &opened, state)
        }
        _ => Ok(false),
    }
}

/// Whether each crash at these moments leaves one of these commits.
fn are_recovered(
    alloc: Global,
    disk: &MemoryDisk,
    moments: (usize, usize),
    commits: (u8, u8),
) -> Result<bool, AllocError> {
    for moment in moments.0..=moments.1 {
        for choice in CHOICES {
            if !is_recovered(alloc, disk, moment, choice, commits)? {
                return Ok(false);
            }
        }
    }
    Ok(true)
}

#[test]
fn each_crash_leaves_before_or_after(rt: HostRuntime) -> Result<(), Fail> {
    let alloc = rt.alloc();
    let disk = MemoryDisk::new(alloc, Vec::new(alloc), ROOM)?;
    let mut journal = Journal::open(alloc, disk).ok().expect(&rt, "no journal");
    assert!(rt; journal.commit(alloc, &changes_to(alloc, 1)?).is_ok());
    let first = journal.close();
    let start = first.moment();
    let mut journal = Journal::open(alloc, first).ok().expect(&rt, "no journal");
    assert!(rt; journal.stage(FileId::Pool(ID), b"hello").is_ok());
    assert!(rt; journal.commit(alloc, &changes_to(alloc, 2)?).is_ok());
    let disk = journal.close();
    let end = disk.moment();
    assert!(rt; are_recovered(alloc, &disk, (0, start), (0, 1))?);
    assert!(rt; are_recovered(alloc, &disk, (start, end), (1, 2))?);
    assert!(rt; are_recovered(alloc, &disk, (end, end), (2, 2))?);
    Ok(())
}

/// Two commits, of which a call may fail: the commit that they came to and the one that was promised. A journal that
/// didn't halt at a fault, or wasn't opened again, is at 97 and 96.
fn run_with_fault(alloc: Global, call: u64) -> Result<(u8, u8), AllocError> {
    let fails = Vec::from_array(alloc, [call])?;
    let mut journal = match Journal::open(alloc, MemoryDisk::new(alloc, fails, ROOM)?) {
        Ok(journal) => journal,
        Err(_) => return Ok((0, 0)),
    };
    let mut promised = 0;
    for byte in [1u8, 2u8] {
        if journal.commit(alloc, &changes_to(alloc, byte)?).is_ok() {
            promised = byte;
        } else if !journal.halted() || journal.get(alloc, FileId::Head).is_ok() {
            return Ok((97, 0));
        } else if journal.reopen(alloc).is_err() {
            return Ok((96, 0));
        }
    }
    Ok((state_of(alloc, &mut journal), promised))
}

#[test]
fn each_fault_halts_until_it_is_reopened(rt: HostRuntime) -> Result<(), Fail> {
    let alloc = rt.alloc();
    for call in 0..24u64 {
        let (state, promised) = run_with_fault(alloc, call)?;
        assert!(rt;
            state == promised || (promised < state && state < 3),
            "call {call}: {state}, {promised}"
        );
    }
    Ok(())
}

/// A disk with these bytes in Intent, and Gate open.
fn disk_with(alloc: Global, intent: &[u8]) -> Result<MemoryDisk, AllocError> {
    let mut disk = MemoryDisk::new(alloc, Vec::new(alloc), ROOM)?;
    let _ = disk.write(FileId::Intent, intent);
    let _ = disk.write(FileId::Gate, b"O");
    let _ = disk.write(FileId::PoolIndex, b"old");
    Ok(disk)
}

/// The bytes of Intent that an opening finds to be foreign.
fn foreign_bytes(alloc: Global, disk: MemoryDisk) -> Option<Bytes> {
    match Journal::open(alloc, disk) {
        Ok(_journal) => None,
        Err((_disk, fault)) => match fault {
            OpenJournalFault::Foreign { file: _file, found } => found,
            _fault => None,
        },
    }
}

/// The call of a first commit that makes an open Gate durable: behind two of the opening, the write of Intent and its sync, and
/// the write of Gate.
const GATE_SYNC: u64 = 5;

/// Whether the disk has these bytes in Intent, and this one in Gate.
fn is_laid_out(alloc: Global, disk: &mut MemoryDisk, intent: &[u8], gate: u8) -> bool {
    match (
        disk.read(alloc, FileId::Intent),
        disk.read(alloc, FileId::Gate),
    ) {
        (Ok(Some(found)), Ok(Some(byte))) => {
            found.as_slice() == intent && byte.as_slice() == [gate].as_slice()
        }
        _ => false,
    }
}

/// The disk of a journal that made the changes to 2, or failed this of its calls.
fn disk_after(alloc: Global, fails: &[u64]) -> Result<Option<MemoryDisk>, AllocError> {
    let disk = MemoryDisk::new(alloc, Vec::from_slice(alloc, fails)?, ROOM)?;
    match Journal::open(alloc, disk) {
        Ok(mut journal) => {
            let done = journal.commit(alloc, &changes_to(alloc, 2)?);
            if done.is_ok() == fails.is_empty() {
                Ok(Some(journal.close()))
            } else {
                Ok(None)
            }
        }
        Err(_) => Ok(None),
    }
}

#[test]
fn intent_and_gate_are_laid_out(rt: HostRuntime) -> Result<(), Fail> {
    let alloc = rt.alloc();
    let mut cut = disk_after(alloc, &[GATE_SYNC])?.expect(&rt, "no fault");
    assert!(rt; is_laid_out(alloc, &mut cut, &INTENT, b'O'));
    let opened = Journal::open(alloc, cut).ok().expect(&rt, "no journal");
    let mut opened = opened.close();
    assert!(rt; is_laid_out(alloc, &mut opened, b"", b'C'));
    let mut done = disk_after(alloc, &[])?.expect(&rt, "no commit");
    assert!(rt; is_laid_out(alloc, &mut done, b"", b'C'));
    Ok(())
}

#[test]
fn an_open_gate_makes_intent_count(rt: HostRuntime) -> Result<(), Fail> {
    let alloc = rt.alloc();
    let disk = disk_with(alloc, &OTHER_INTENT)?;
    let mut journal = Journal::open(alloc, disk).ok().expect(&rt, "no journal");
    assert_eq!(rt; byte_of(alloc, &mut journal, FileId::Host(7)), 99);
    assert_eq!(rt; byte_of(alloc, &mut journal, FileId::PoolIndex), 0);
    assert_eq!(rt; byte_of(alloc, &mut journal, FileId::PoolBucket(255)), 0x61);
    assert_eq!(rt; byte_of(alloc, &mut journal, FileId::Partial(1023)), 0);
    let mut broken = OTHER_INTENT;
    broken[50] = 0;
    let found = foreign_bytes(alloc, disk_with(alloc, &broken)?);
    assert_eq!(rt;
        found.expect(&rt, "a broken seal is foreign").as_slice(),
        broken.as_slice()
    );
    Ok(())
}

#[test]
fn a_store_goes_through_its_calls(rt: HostRuntime) -> Result<(), Fail> {
    let alloc = rt.alloc();
    let disk = MemoryDisk::new(alloc, Vec::new(alloc), ROOM)?;
    let mut journal = open(alloc, disk).ok().expect(&rt, "no journal");
    let piece = FileId::Stage(1);
    assert!(rt; stage(&mut journal, FileId::Pool(ID), b"hello").is_ok());
    assert!(rt; stage(&mut journal, piece, b"he").is_ok());
    assert!(rt; append(&mut journal, piece, b"llo").is_ok());
    assert!(rt; barrier(&mut journal).is_ok());
    let found = read_at(&mut journal, alloc, piece, 1, 3).expect(&rt, "read");
    assert_eq!(rt; found.expect(&rt, "there").as_slice(), b"ell".as_slice());
    assert!(rt; drop_data(&mut journal, piece).is_ok());
    assert!(rt; commit(&mut journal, alloc, &changes_to(alloc, 1)?).is_ok());
    let found = read_data(&mut journal, alloc, ID).expect(&rt, "read");
    assert_eq!(rt; found.expect(&rt, "there").as_slice(), b"hello".as_slice());
    let files = list(&mut journal, alloc).expect(&rt, "listed");
    assert!(rt; files.has(TABLE) && files.has(FileId::Pool(ID)) && !files.has(piece));
    assert!(rt; reopen(&mut journal, alloc).is_ok());
    assert_eq!(rt; journal.faults(), 0);
    Ok(())
}
