ghost use Rattle.std.specs.Prelude.{◌≡◌};

use crate::note::Note;
use disk_trait::Disk;
use serve_workers::Worker;

/// How a run ended: what the program says of it, which has the status, and the disk, the link and the workers, handed back.
#[derive(Drop)]
pub struct Done<D: Disk, L, T, C, G> {
    pub note: Note,
    pub disk: D,
    pub link: L,
    pub workers: Vec<Worker<T, C, G>>,
}

impl<D: Disk, L, T, C, G> Done<D, L, T, C, G> {
    /// Puts it together.
    pub(crate) fn new(
        note: Note,
        disk: D,
        link: L,
        workers: Vec<Worker<T, C, G>>,
    ) -> Done<D, L, T, C, G>
        ensures { result ≡ record { note = note; disk = disk; link = link; workers = workers } }
    {
        Done {
            note,
            disk,
            link,
            workers,
        }
    }
}

/// How a run over the one link ended.
#[derive(Drop)]
pub struct DoneOnLink<D: Disk, L> {
    pub note: Note,
    pub disk: D,
    pub link: L,
}

impl<D: Disk, L> DoneOnLink<D, L> {
    /// With the workers, who are as they were.
    pub fn with_workers<T, C, G>(self, workers: Vec<Worker<T, C, G>>) -> Done<D, L, T, C, G>
        ensures { result ≡ record { note = self.note; disk = self.disk; link = self.link; workers = workers } }
    {
        let DoneOnLink { note, disk, link } = self;
        Done::new(note, disk, link, workers)
    }
}

/// How a run of workers ended.
#[derive(Drop)]
pub struct DoneAtDoors<D: Disk, T, C, G> {
    pub note: Note,
    pub disk: D,
    pub workers: Vec<Worker<T, C, G>>,
}

impl<D: Disk, T, C, G> DoneAtDoors<D, T, C, G> {
    /// With the link, which is as it was.
    pub fn with_link<L>(self, link: L) -> Done<D, L, T, C, G>
        ensures { result ≡ record { note = self.note; disk = self.disk; link = link; workers = self.workers } }
    {
        let DoneAtDoors {
            note,
            disk,
            workers,
        } = self;
        Done::new(note, disk, link, workers)
    }
}
