use crate::told::expect;
use disk_trait::*;
use std::alloc::Global;
use std::test::Fail;
use std::thread;
use std::thread::Threads;

const TABLE: FileId = FileId::Table(3, 4_000_000_000);

const STAGE: FileId = FileId::Stage(7);

const AMPLE: DiskRoom = DiskRoom {
    changes: 100,
    bytes: 1_000,
};

/// Which of five calls went well: a write of three bytes, a sync, an append of two, a read, a sync.
fn outcomes<D: Disk>(alloc: Global, disk: &mut D) -> [bool; 5] {
    let head = disk.write(FileId::Head, b"abc").is_ok();
    let synced = disk.sync().is_ok();
    let table = disk.append(TABLE, b"de").is_ok();
    let read = disk.read(alloc, FileId::Head).is_ok();
    [head, synced, table, read, disk.sync().is_ok()]
}

/// The same in a thread of its own, which takes the disk and gives it back.
fn outcomes_beside<R: Threads, D: Disk + Send + Drop>(
    rt: &R,
    alloc: Global,
    disk: D,
) -> ([bool; 5], D) {
    let calls = move || {
        let mut disk = disk;
        let seen = outcomes(alloc, &mut disk);
        (seen, disk)
    };
    let (seen, ()) = thread::join(rt, calls, || ());
    seen
}

/// The bytes of a file, and none where it is absent.
fn bytes_of<D: Disk>(alloc: Global, disk: &mut D, file: FileId) -> Result<Bytes, DiskError> {
    let found = disk.read(alloc, file)?;
    Ok(found.unwrap_or(Bytes::new(alloc)))
}

/// Fails where a file holds other bytes; an absent one holds none.
fn expect_bytes(
    alloc: Global,
    disk: &mut MemoryDisk,
    file: FileId,
    want: &[u8],
) -> Result<(), Fail> {
    let found = bytes_of(alloc, disk, file)?;
    expect(found.as_slice() == want, "other bytes")
}

/// Two calls that fail, the room for changes and for bytes, which calls go well, and what Head and the table hold then.
type Asked = ([u64; 2], u64, u64, [bool; 5], &'static str, &'static str);

const ASKED: &[Asked] = &[
    ([9, 9], 9, 9, [true, true, true, true, true], "abc", "de"),
    ([3, 0], 9, 9, [false, true, true, false, true], "", "de"),
    ([4, 2], 9, 9, [true, true, false, true, false], "abc", ""),
    ([9, 9], 2, 9, [true, true, false, true, false], "abc", ""),
    ([9, 1], 2, 9, [true, false, true, true, false], "abc", "de"),
    ([9, 9], 9, 4, [true, true, false, true, true], "abc", ""),
    ([9, 9], 0, 9, [false, false, false, true, false], "", ""),
];

/// A disk without files, two of whose calls fail.
fn failing_disk(alloc: Global, row: &Asked) -> Result<MemoryDisk, Fail> {
    let fails = Vec::from_array(alloc, row.0)?;
    let room = DiskRoom {
        changes: row.1,
        bytes: row.2,
    };
    Ok(MemoryDisk::new(alloc, fails, room)?)
}

fn expect_asked(rt: &impl Threads, alloc: Global, row: &Asked) -> Result<(), Fail> {
    let (seen, mut disk) = outcomes_beside(rt, alloc, failing_disk(alloc, row)?);
    let failed = row.3.iter().filter(|good| !**good).count();
    expect(seen == row.3, "other calls fail")?;
    expect(disk.faults() == failed as u64, "another count of faults")?;
    expect_bytes(alloc, &mut disk, FileId::Head, row.4.as_bytes())?;
    expect_bytes(alloc, &mut disk, TABLE, row.5.as_bytes())
}

#[test]
fn fails_the_listed_calls_and_what_is_past_its_room(rt: HostRuntime) -> Result<(), Fail> {
    for row in ASKED {
        expect_asked(&rt, rt.alloc(), row)?;
    }
    Ok(())
}

/// A disk without files.
fn blank_disk(alloc: Global) -> Result<MemoryDisk, Fail> {
    Ok(MemoryDisk::new(alloc, Vec::new(alloc), AMPLE)?)
}

fn write(disk: &mut MemoryDisk, file: FileId, bytes: &[u8]) -> Result<(), Fail> {
    disk.write(file, bytes)?;
    Ok(())
}

fn append(disk: &mut MemoryDisk, file: FileId, bytes: &[u8]) -> Result<(), Fail> {
    disk.append(file, bytes)?;
    Ok(())
}

fn remove(disk: &mut MemoryDisk, file: FileId) -> Result<(), Fail> {
    disk.remove(file)?;
    Ok(())
}

fn sync(disk: &mut MemoryDisk) -> Result<(), Fail> {
    disk.sync()?;
    Ok(())
}

/// A place in the stage, how many bytes are asked from there, and what is found.
const PIECES: &[(u64, usize, &str)] = &[
    (1, 3, "bcd"),
    (0, 9, "abcde"),
    (4, 1, "e"),
    (5, 2, ""),
    (9, 2, ""),
];

fn expect_piece(
    alloc: Global,
    disk: &mut MemoryDisk,
    row: &(u64, usize, &str),
) -> Result<(), Fail> {
    let found = disk.read_at(alloc, STAGE, row.0, row.1)?;
    let found = found.unwrap_or(Bytes::new(alloc));
    expect(found.as_slice() == row.2.as_bytes(), "another piece")
}

/// Fails where the stage is there, or any file but Head.
fn expect_head_alone(alloc: Global, disk: &mut MemoryDisk) -> Result<(), Fail> {
    expect(disk.read(alloc, STAGE)?.is_none(), "still there")?;
    expect(
        disk.read_at(alloc, STAGE, 0, 1)?.is_none(),
        "a piece of it is still there",
    )?;
    let list = disk.list(alloc)?;
    expect(
        list.as_slice().len() == 1 && list.has(FileId::Head),
        "other files",
    )
}

#[test]
fn a_removed_file_is_absent_and_a_piece_is_found(rt: HostRuntime) -> Result<(), Fail> {
    let alloc = rt.alloc();
    let mut disk = blank_disk(alloc)?;
    write(&mut disk, STAGE, b"abc")?;
    append(&mut disk, STAGE, b"de")?;
    for row in PIECES {
        expect_piece(alloc, &mut disk, row)?;
    }
    write(&mut disk, FileId::Head, b"x")?;
    remove(&mut disk, STAGE)?;
    remove(&mut disk, TABLE)?;
    expect_head_alone(alloc, &mut disk)
}

/// What Head, the table and the stage hold, `-` for an absent one, each with a blank before it.
fn held(alloc: Global, disk: &mut MemoryDisk) -> Result<Vec<u8>, Fail> {
    let mut seen = Vec::new(alloc);
    for file in [FileId::Head, TABLE, STAGE] {
        seen.push(b' ')?;
        match disk.read(alloc, file)? {
            Some(bytes) => seen.extend_from_slice(bytes.as_slice())?,
            None => seen.push(b'-')?,
        }
    }
    Ok(seen)
}

/// What the image at a moment holds, and what an image of that image holds after a write of the stage.
fn expect_image(
    alloc: Global,
    disk: &MemoryDisk,
    moment: usize,
    choice: Choice,
    want: &str,
) -> Result<(), Fail> {
    if moment > disk.moment() {
        return Err(Fail::new("a moment to come"));
    }
    let mut image = disk.image(alloc, moment, choice)?;
    if held(alloc, &mut image)?.as_slice() != want.as_bytes() {
        return Err(Fail::new("another image"));
    }
    image.write(STAGE, b"z")?;
    let mut next = image.image(alloc, 0, Choice::Absent)?;
    if held(alloc, &mut next)?.as_slice() != want.as_bytes() {
        return Err(Fail::new("another image of the image"));
    }
    Ok(())
}

/// A disk with eight moments, one of whose calls failed.
fn changed_disk(alloc: Global) -> Result<MemoryDisk, Fail> {
    let fails = Vec::from_array(alloc, [4])?;
    let mut disk = MemoryDisk::new(alloc, fails, AMPLE)?;
    write(&mut disk, FileId::Head, b"a")?;
    sync(&mut disk)?;
    write(&mut disk, TABLE, b"t")?;
    append(&mut disk, FileId::Head, b"b")?;
    expect(disk.write(STAGE, b"s").is_err(), "no call fails")?;
    remove(&mut disk, FileId::Head)?;
    sync(&mut disk)?;
    expect(disk.moment() == 7, "other moments")?;
    Ok(disk)
}

/// What the image at each moment holds: as written, without what isn't certain, and with one byte in its place.
const IMAGES: &[[&str; 3]] = &[
    [" - - -", " - - -", " - - -"],
    [" a - -", " - - -", " ! - -"],
    [" a - -", " a - -", " a - -"],
    [" a t -", " a - -", " a ! -"],
    [" ab t -", " - - -", " ! ! -"],
    [" ab t -", " - - -", " ! ! !"],
    [" - t -", " - - -", " ! ! !"],
    [" - t -", " - t -", " - t -"],
];

#[test]
fn images_at_each_moment_with_each_choice(rt: HostRuntime) -> Result<(), Fail> {
    let alloc = rt.alloc();
    let disk = changed_disk(alloc)?;
    for (moment, [written, absent, one]) in IMAGES.iter().enumerate() {
        expect_image(alloc, &disk, moment, Choice::Written, written)?;
        expect_image(alloc, &disk, moment, Choice::Absent, absent)?;
        expect_image(alloc, &disk, moment, Choice::One(b'!'), one)?;
    }
    Ok(())
}

/// Fails where an image isn't the one of this moment and this choice, or holds anything else than that.
fn expect_given(
    alloc: Global,
    disk: &MemoryDisk,
    image: &ScriptImage,
    moment: usize,
    choice: Choice,
) -> Result<(), Fail> {
    if image.moment != moment || image.choice != choice || moment > disk.moment() {
        return Err(Fail::new("an image of another moment or choice"));
    }
    let mut given = image.disk.image(alloc, 0, Choice::Written)?;
    let mut asked = disk.image(alloc, moment, choice)?;
    if held(alloc, &mut given)?.as_slice() != held(alloc, &mut asked)?.as_slice() {
        return Err(Fail::new("another image"));
    }
    Ok(())
}

/// How many images are handed out, each with its moment and its choice, and with what the image holds that is asked for by these.
fn images_given(alloc: Global, disk: &MemoryDisk, choices: &[Choice]) -> Result<usize, Fail> {
    let mut images = disk.script_images(choices);
    for count in 0..100usize {
        let Some(image) = images.next(alloc)? else {
            return Ok(count);
        };
        let moment = count.checked_div(choices.len()).unwrap_or(0);
        let place = count.checked_rem(choices.len()).unwrap_or(0);
        let choice = choices.get(place).copied().unwrap_or(Choice::Written);
        expect_given(alloc, disk, &image, moment, choice)?;
    }
    Err(Fail::new("images without an end"))
}

fn expect_images(
    alloc: Global,
    disk: &MemoryDisk,
    choices: &[Choice],
    count: usize,
) -> Result<(), Fail> {
    expect(
        images_given(alloc, disk, choices)? == count,
        "another count of images",
    )
}

#[test]
fn images_one_by_one_are_those_of_each_moment_with_each_choice(
    rt: HostRuntime,
) -> Result<(), Fail> {
    let alloc = rt.alloc();
    let disk = changed_disk(alloc)?;
    let three = [Choice::Written, Choice::Absent, Choice::One(b'!')];
    expect_images(alloc, &disk, &three, 24)?;
    expect_images(alloc, &disk, &[Choice::Absent], 8)?;
    expect_images(alloc, &disk, &[], 0)?;
    expect_images(alloc, &blank_disk(alloc)?, &three, 3)
}

/// A disk of 100,000 tables, each of which was written and extended.
fn large_disk(alloc: Global) -> Result<MemoryDisk, Fail> {
    let room = DiskRoom {
        changes: 200_000,
        bytes: 200_000,
    };
    let mut disk = MemoryDisk::new(alloc, Vec::new(alloc), room)?;
    for number in 0..100_000 {
        write(&mut disk, FileId::Table(number % 7, number), b"x")?;
        append(&mut disk, FileId::Table(number % 7, number), b"y")?;
    }
    Ok(disk)
}

#[test]
fn a_disk_of_100_000_files(rt: HostRuntime) -> Result<(), Fail> {
    let alloc = rt.alloc();
    let mut disk = large_disk(alloc)?;
    let list = disk.list(alloc)?;
    expect(list.as_slice().len() == 100_000, "other files")?;
    let mut image = disk.image(alloc, disk.moment(), Choice::Written)?;
    for file in list.as_slice() {
        expect_bytes(alloc, &mut image, *file, b"xy")?;
    }
    Ok(())
}
