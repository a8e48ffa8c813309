use disk_trait::{FileId, PoolId};
use file_names::*;
use std::alloc::Global;
use std::test::Fail;

const CONTENT: PoolId = PoolId {
    digest: [
        0x5d, 0x41, 0x40, 0x2a, 0xbc, 0x4b, 0x2a, 0x76, 0xb9, 0x71, 0x9d, 0x91, 0x10, 0x17, 0xc5,
        0x92,
    ],
    extension: 10,
};

const NAMES: [(FileId, &[u8]); 14] = [
    (FileId::Head, b"head"),
    (FileId::Intent, b"intent"),
    (FileId::Gate, b"gate"),
    (FileId::Host(0), b"host-0"),
    (FileId::Host(4_294_967_295), b"host-4294967295"),
    (FileId::Table(3, 0), b"table-3-0"),
    (FileId::Counts(17), b"counts-17"),
    (FileId::PoolIndex, b"pool-index"),
    (FileId::PoolBucket(0), b"pool-index-0"),
    (FileId::PoolBucket(255), b"pool-index-255"),
    (FileId::Partial(9), b"partial-9"),
    (
        FileId::Pool(CONTENT),
        b"pool-5d41402abc4b2a76b9719d911017c592-10",
    ),
    (FileId::Stage(0), b"stage-0"),
    (FileId::Stage(u64::MAX), b"stage-18446744073709551615"),
];

const OTHERS: [&[u8]; 22] = [
    b"",
    b"lock",
    b"Head",
    b"head ",
    b"heads",
    b"host-",
    b"host-00",
    b"host-01",
    b"host-+1",
    b"host-4294967296",
    b"table-1",
    b"table-1-",
    b"table-01-1",
    b"table-1-1-1",
    b"pool-index-256",
    b"pool-index-07",
    b"stage-18446744073709551616",
    b"pool-5D41402abc4b2a76b9719d911017c592-10",
    b"pool-5d41402abc4b2a76b9719d911017c592-65536",
    b"pool-5d41402abc4b2a76b9719d911017c592",
    b"pool-5d41402abc4b2a76b9719d911017c5-10",
    b"pool-5d41402abc4b2a76b9719d911017c592-010",
];

/// Fails if a file has another name, or the name is another file's.
fn expect_named(alloc: Global, file: FileId, name: &[u8]) -> Result<(), Fail> {
    let text = format!(in alloc; "{file}")?;
    if text.as_bytes() == name && file_named(name) == Some(file) {
        return Ok(());
    }
    Err(Fail::new(format_args!("{file}")))
}

#[test]
fn names_both_ways(rt: HostRuntime) -> Result<(), Fail> {
    for (file, name) in NAMES {
        expect_named(rt.alloc(), file, name)?;
    }
    for name in OTHERS {
        if file_named(name).is_some() {
            return Err(Fail::new("a name of no file is taken"));
        }
    }
    Ok(())
}
