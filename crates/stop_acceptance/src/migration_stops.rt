//! The command `migrate` over a store that has tables of both layouts, and each stop in it.

use disk_trait::{Choice, Disk, FileId, MemoryDisk};
use pool_name::Md5Namer;
use std::alloc::{AllocError, Global};
use std::test::Fail;
use store_talks::Note;
use store_talks::scripts::Step::{Ask, Dump};
use store_talks::scripts::{At, Put, Script, expect_script};
use store_talks::talks::{
    CHOICES, HOST, Machine, NOW, START, blank_disk, expect, expect_files, image_of, pipe,
    put_request, run_words,
};
use wire_bytes::seal;

/// Two backups, each filled, of which a file is read.
const DAYS: &[At] = &[
    At(1_690_000_000, Ask(HOST)),
    At(1_690_000_000, Dump(0, "full", &[Put("a.txt", "hello")])),
    At(
        START,
        Dump(1, "full", &[Put("a.txt", "hello"), Put("b", "later")]),
    ),
];

/// The body of the older backup's table in each layout: `a.txt` is a file of mode 0644 and of the five bytes of `hello`.
const FIRST: &[u8; 62] =
    b"RTB1\x00\x00\x00\x01\x01\x00\x05a.txt\x00\x00\x01\xa4\x00\x00\x00\x00\x00\x00\x00\x00\x00\x00\x00\x00\x00\x00\x00\x00\x00\x00\x00\x00\x00\x00\x00\x05\x5d\x41\x40\x2a\xbc\x4b\x2a\x76\xb9\x71\x9d\x91\x10\x17\xc5\x92\x00\x00";

const SECOND: &[u8; 70] =
    b"RTB2\x00\x00\x00\x01\x01\x00\x05a.txt\x00\x00\x01\xa4\x00\x00\x00\x00\x00\x00\x00\x00\x00\x00\x00\x00\x00\x00\x00\x00\x00\x00\x00\x00\x00\x00\x00\x00\x00\x00\x00\x00\x00\x00\x00\x05\x5d\x41\x40\x2a\xbc\x4b\x2a\x76\xb9\x71\x9d\x91\x10\x17\xc5\x92\x00\x00";

const TABLE: FileId = FileId::Table(0, 0);

/// What is asked before a migration and after each stop. A stop changes none of the answers.
const QUESTIONS: [&str; 6] = [
    "GET /hosts",
    "GET /hosts/pc1/backups",
    "GET /stats",
    "GET /hosts/pc1/backups/0/list",
    "GET /hosts/pc1/backups/0/file?path=a.txt",
    "GET /hosts/pc1/backups/1/list",
];

/// What a store answers to all questions, and its disk.
fn answers_of(rt: &impl Machine, disk: MemoryDisk) -> Result<(Vec<u8>, MemoryDisk), Fail> {
    let alloc = rt.alloc();
    let mut input = Vec::new(alloc);
    for ask in QUESTIONS {
        put_request(&mut input, alloc, ask, "")?;
    }
    let done = pipe(rt, disk, Md5Namer, NOW, input)?;
    expect(done.note == Note::Nothing, "not opened")?;
    let said = Vec::from_slice(alloc, done.link.output())?;
    Ok((said, done.disk))
}

/// The file of a body.
fn file_of(alloc: Global, body: &[u8]) -> Result<Vec<u8>, AllocError> {
    seal(Vec::from_slice(alloc, body)?)
}

/// Fails where the older backup's table is another one than that of this body.
fn expect_table(alloc: Global, disk: &mut MemoryDisk, body: &[u8]) -> Result<(), Fail> {
    let file = file_of(alloc, body)?;
    expect_files(alloc, disk, &[(TABLE, Some(file.as_slice()))])
}

/// The disk of both backups, of which the older one's table is of the first layout.
fn old_disk(rt: &impl Machine) -> Result<MemoryDisk, Fail> {
    let alloc = rt.alloc();
    let mut script = Script::new(alloc);
    script.add_all(DAYS)?;
    let mut disk = expect_script(rt, blank_disk(alloc, &[])?, script)?;
    expect_table(alloc, &mut disk, SECOND)?;
    let first = file_of(alloc, FIRST)?;
    let laid = disk.write(TABLE, first.as_slice()).is_ok() && disk.sync().is_ok();
    expect(laid, "the table isn't laid")?;
    Ok(disk)
}

/// Migrates, fails where something else is said than the number of hosts, and gives the disk back.
fn migrated(rt: &impl Machine, disk: MemoryDisk, said: &[u8]) -> Result<MemoryDisk, Fail> {
    let words = "backup_server migrate --store store";
    let done = run_words(rt, disk, Md5Namer, words, NOW, Vec::new(rt.alloc()))?;
    let is_said = done.note == Note::Nothing && done.link.output() == said;
    expect(is_said, "something else is said")?;
    Ok(done.disk)
}

/// Fails where an image of a stop answers otherwise than before, or isn't migrated then.
fn expect_image(
    rt: &impl Machine,
    disk: &MemoryDisk,
    moment: usize,
    choice: Choice,
    before: &[u8],
) -> Result<(), Fail> {
    let alloc = rt.alloc();
    let (said, opened) = answers_of(rt, image_of(alloc, disk, moment, choice)?)?;
    expect(said.as_slice() == before, "a stop leaves other answers")?;
    let mut again = migrated(rt, opened, b"migrated 1\n")?;
    expect_table(alloc, &mut again, SECOND)
}

/// Each stop is tried with each choice of what uncertain files hold.
#[test]
fn a_stopped_migration_changes_no_answer(rt: HostRuntime) -> Result<(), Fail> {
    let alloc = rt.alloc();
    let (before, old) = answers_of(&rt, old_disk(&rt)?)?;
    let start = old.moment();
    let mut disk = migrated(&rt, old, b"migrated 1\n")?;
    expect_table(alloc, &mut disk, SECOND)?;
    for moment in start..=disk.moment() {
        for choice in CHOICES {
            expect_image(&rt, &disk, moment, choice, before.as_slice())?;
        }
    }
    Ok(())
}

#[test]
fn a_store_without_hosts_has_nothing_to_be_migrated(rt: HostRuntime) -> Result<(), Fail> {
    let _disk = migrated(&rt, blank_disk(rt.alloc(), &[])?, b"migrated 0\n")?;
    Ok(())
}
