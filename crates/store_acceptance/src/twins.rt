//! Two contents of one digest.

use disk_trait::{Choice, FileId, MemoryDisk, PoolId};
use pool_name::FirstByteNamer;
use std::test::Fail;
use store_talks::talks::{
    ABSENT, CHOICES, DONE, HOST, MADE, Machine, NOW, Row, Says, blank_disk, expect, expect_files,
    expect_talk, image_of, place_answered,
};

/// Both contents begin with the byte that is their digest.
const KEPT: &[Row] = &[
    HOST,
    Row(
        "POST /hosts/pc1/dumps?kind=full",
        "",
        Says::Json(MADE, "{\"dump\":\"1-0\"}"),
    ),
    Row("PUT /dumps/1-0/entry?path=x&kind=file", "ax", DONE),
    Row("PUT /dumps/1-0/entry?path=y&kind=file", "ay", DONE),
    Row(
        "POST /dumps/1-0/commit",
        "",
        Says::Json(MADE, "{\"number\":0}"),
    ),
];

const READ_X: &str = "GET /hosts/pc1/backups/0/file?path=x";

const READ_Y: &str = "GET /hosts/pc1/backups/0/file?path=y";

const NO_HOST: Says = Says::Json(ABSENT, "{\"refused\":\"NoHost\"}");

const NO_BACKUP: Says = Says::Json(ABSENT, "{\"refused\":\"NoBackup\"}");

/// What reads are answered: both contents, in the last place.
const ANSWERS: [&[Row]; 3] = [
    &[Row(READ_X, "", NO_HOST), Row(READ_Y, "", NO_HOST)],
    &[Row(READ_X, "", NO_BACKUP), Row(READ_Y, "", NO_BACKUP)],
    &[
        Row(READ_X, "", Says::Bytes(b"ax")),
        Row(READ_Y, "", Says::Bytes(b"ay")),
    ],
];

const BOTH: usize = 2;

const DIGEST: [u8; 16] = *b"a\0\0\0\0\0\0\0\0\0\0\0\0\0\0\0";

/// The files of the two in the pool.
const FILES: [(FileId, Option<&[u8]>); 2] = [
    (
        FileId::Pool(PoolId {
            digest: DIGEST,
            extension: 0,
        }),
        Some(b"ax"),
    ),
    (
        FileId::Pool(PoolId {
            digest: DIGEST,
            extension: 1,
        }),
        Some(b"ay"),
    ),
];

/// The place of what reads of an image are answered, which is the same after another opening.
fn read_after(
    rt: &impl Machine,
    disk: &MemoryDisk,
    moment: usize,
    choice: Choice,
) -> Result<usize, Fail> {
    let image = image_of(rt.alloc(), disk, moment, choice)?;
    let (place, disk) = place_answered(rt, image, FirstByteNamer, &ANSWERS)?;
    let (again, _) = place_answered(rt, disk, FirstByteNamer, &ANSWERS)?;
    expect(place == again, "another opening reads otherwise")?;
    Ok(place)
}

/// Each stop leaves both contents or none, and both once they are committed.
#[test]
fn contents_of_one_digest_are_told_apart(rt: HostRuntime) -> Result<(), Fail> {
    let alloc = rt.alloc();
    let blank = blank_disk(alloc, &[])?;
    let mut disk = expect_talk(&rt, blank, FirstByteNamer, NOW, KEPT)?;
    expect_files(alloc, &mut disk, &FILES)?;
    let end = disk.moment();
    for moment in 0..=end {
        for choice in CHOICES {
            let place = read_after(&rt, &disk, moment, choice)?;
            expect(moment < end || place == BOTH, "not durable")?;
        }
    }
    Ok(())
}
