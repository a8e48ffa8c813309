//! A crash of a disk in memory.

ghost use Rattle.std.specs.Prelude.{◌≤◌, IfOk};
ghost use Rattle.journal_view.specs.Chain.{Crashed};

use disk_trait::{Choice, Disk, MemoryDisk};
use std::alloc::{AllocError, Global};

/// A disk in memory as a crash at a moment left it, since an earlier one.
pub fn crash(
    alloc: Global,
    start: &MemoryDisk,
    stop: &MemoryDisk,
    moment: usize,
    choice: Choice,
) -> Result<MemoryDisk, AllocError>
    requires later { ⟦<MemoryDisk as Disk>⟧.moment start.now ≤ moment }
    requires there { moment ≤ ⟦<MemoryDisk as Disk>⟧.moment stop.now }
    ensures { IfOk result (Crashed ⟦<MemoryDisk as Disk>⟧ start.now stop.now) }
{
    match stop.image(alloc, moment, choice) {
        Ok(next) => Ok(next),
        Err(fault) => Err(fault),
    }
}
