ghost use Rattle.std.specs.Prelude.{◌≡◌, false, IfOk};

use disk_trait::{Disk, DiskRoom, FileId, MemoryDisk, PoolId};
use host_counts::*;
use intent_journal::Journal;
use ref_counts::{Counts, number};
use std::alloc::Global;
use std::test::Fail;

const ROOM: DiskRoom = DiskRoom {
    changes: 100,
    bytes: 10_000,
};

// The content `a` under its MD5, as Python's `hashlib` gives it.
const A: PoolId = PoolId {
    digest: [
        0x0c, 0xc1, 0x75, 0xb9, 0xc0, 0xf1, 0xb6, 0xa8, 0x31, 0xc3, 0x99, 0xe2, 0x69, 0x77, 0x26,
        0x61,
    ],
    extension: 0,
};

// The files of host 0 with `a` twice and of host 1 with nothing, with their MD5 as `hashlib` gives it.
const FIRST: &[u8; 58] =
    b"\x52\x43\x54\x31\x00\x00\x00\x00\x00\x00\x00\x00\x00\x00\x00\x01\x0c\xc1\x75\xb9\xc0\xf1\xb6\xa8\x31\xc3\x99\xe2\x69\x77\x26\x61\x00\x00\x00\x00\x00\x00\x00\x00\x00\x02\x69\x86\x97\x04\x55\x9f\x5f\x72\x78\x1c\x25\xb1\x62\x8d\x7b\x00";

const SECOND: &[u8; 32] =
    b"\x52\x43\x54\x31\x00\x00\x00\x01\x00\x00\x00\x00\x00\x00\x00\x00\xf2\x73\xb3\x7a\x11\xa9\x30\xcc\xd7\xc6\xbe\xc2\x21\x9a\xf2\x9c";

// What stands in the file of a host.
#[derive(Clone, Copy)]
enum Stored {
    First,
    Second,
    Cut,
    Nothing,
}

// What stands in the files of the hosts 0 and 1, and the host whose file is refused.
struct Case(Stored, Stored, Option<u32>);

const CASES: [Case; 5] = [
    Case(Stored::First, Stored::Second, None),
    Case(Stored::Nothing, Stored::Second, Some(0)),
    Case(Stored::First, Stored::Nothing, Some(1)),
    Case(Stored::First, Stored::First, Some(1)),
    Case(Stored::Cut, Stored::Second, Some(0)),
];

fn expect(holds: bool, text: &'static str) -> Result<(), Fail> {
    if holds { Ok(()) } else { Err(Fail::new(text)) }
}

fn bytes_of(stored: Stored) -> Option<&'static [u8]> {
    match stored {
        Stored::First => Some(FIRST.as_slice()),
        Stored::Second => Some(SECOND.as_slice()),
        Stored::Cut => Some(b"RCT1".as_slice()),
        Stored::Nothing => None,
    }
}

fn put(disk: &mut MemoryDisk, host: u32, stored: Stored) -> Result<(), Fail> {
    match bytes_of(stored) {
        Some(bytes) => expect(
            disk.write(FileId::Counts(host), bytes).is_ok(),
            "not written",
        ),
        None => Ok(()),
    }
}

fn journal_of(alloc: Global, case: &Case) -> Result<Journal<MemoryDisk>, Fail>
    ensures { IfOk result (λ journal. journal.halted ≡ false) }
{
    let mut disk = MemoryDisk::new(alloc, Vec::new(alloc), ROOM)?;
    put(&mut disk, 0, case.0)?;
    put(&mut disk, 1, case.1)?;
    match journal_view::open(alloc, disk) {
        Ok(journal) => Ok(journal),
        Err(_) => Err(Fail::new("no journal")),
    }
}

fn expect_held(held: &HostCounts) -> Result<(), Fail> {
    match (held.of_host(0), held.of_host(1), held.of_host(2)) {
        (Some(first), Some(second), None) => expect(
            number(first, A) == 2 && number(second, A) == 0,
            "other counts",
        ),
        _ => Err(Fail::new("other hosts")),
    }
}

fn expect_case(alloc: Global, case: &Case) -> Result<(), Fail> {
    let mut journal = journal_of(alloc, case)?;
    match (read_all(alloc, &mut journal, 2), case.2) {
        (Ok(held), None) => expect_held(&held),
        (Err(HostCountsFault::Foreign { file, .. }), Some(host)) => {
            expect(file.is_same(FileId::Counts(host)), "another file")
        }
        _ => Err(Fail::new("read or not")),
    }
}

#[test]
fn counts_of_hosts_are_read(rt: HostRuntime) -> Result<(), Fail> {
    let alloc = rt.alloc();
    for case in &CASES {
        expect_case(alloc, case)?;
    }
    Ok(())
}

#[test]
fn counts_are_put_and_changed(rt: HostRuntime) -> Result<(), Fail> {
    let alloc = rt.alloc();
    let mut held = HostCounts::new(alloc)?;
    held.push(Counts::new(alloc));
    held.push(Counts::new(alloc));
    let mut journal = journal_of(alloc, &CASES[0])?;
    let first = read_counts_of(alloc, &mut journal, 0)?;
    held.set(0, first);
    expect(!held.is_full() && held.as_slice().len() == 2, "other hosts")?;
    expect_held(&held)
}
