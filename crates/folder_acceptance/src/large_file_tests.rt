//! A large file of a folder goes by a stage. That it comes back as it was is tried over real folders (tests/folders.sh): one in
//! memory has none.

use crate::folders::{expect, folder, mixed};
use crate::hosts::{dump, new_host};
use crate::strange::{Odd, new_strange};
use backup_rules::Kind;
use std::alloc::Global;
use std::test::Fail;

/// How many calls a dump of mixed entries and a file of so many bytes makes.
fn calls_of_dump(alloc: Global, size: u64) -> Result<u64, Fail> {
    let mut host = new_host(alloc, "pc1")?;
    let mut folder = new_strange(folder(alloc, mixed())?, Odd::There(size));
    let before = host.port.calls;
    let number = dump(alloc, &mut host, &mut folder, Kind::Full)?;
    expect(number == 0, "another number")?;
    Ok(host.port.calls.saturating_sub(before))
}

/// The dump is opened, six entries are put, and it is committed; between these is the file: by one put, or by a stage that is
/// opened, gets 1,025 pieces, and is put.
#[test]
fn file_above_64_mib_goes_by_a_stage(rt: HostRuntime) -> Result<(), Fail> {
    let whole = calls_of_dump(rt.alloc(), 67_108_864)?;
    expect(whole == 9, "other calls of a file of 64 MiB")?;
    let staged = calls_of_dump(rt.alloc(), 67_108_865)?;
    expect(staged == 1_035, "other calls of a larger file")
}
