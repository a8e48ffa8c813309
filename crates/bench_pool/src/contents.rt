//! The contents that are put into a pool, and its disk.

use crate::fault::Fault;
use crate::sizes::Sizes;
use disk_trait::{Disk, DiskRoom, FileId, MemoryDisk, PoolId};
use pool_name::{Md5Namer, Namer};
use std::alloc::Global;

/// The content of a number: 32 bytes, of which the first eight are the number.
pub fn content_of(number: u64) -> [u8; 32] {
    let mut content = [0x55; 32];
    for (at, byte) in number.to_be_bytes().into_iter().enumerate() {
        if at < 32 {
            content[at] = byte;
        }
    }
    content
}

/// An empty disk with room for these contents and the index of them.
pub fn new_disk(alloc: Global, sizes: Sizes) -> Result<MemoryDisk, Fault> {
    let room = DiskRoom {
        changes: sizes.contents.saturating_add(4096),
        bytes: sizes.contents.saturating_mul(96).saturating_add(100_000),
    };
    Ok(MemoryDisk::new(alloc, Vec::new(alloc), room)?)
}

/// A disk with a file of each content, which no index lists.
pub fn disk_of_files(alloc: Global, sizes: Sizes) -> Result<MemoryDisk, Fault> {
    let mut disk = new_disk(alloc, sizes)?;
    for number in 0..sizes.contents {
        let content = content_of(number);
        let digest = Md5Namer.name(&content);
        let extension = 0;
        disk.write(FileId::Pool(PoolId { digest, extension }), &content)?;
    }
    Ok(disk)
}
