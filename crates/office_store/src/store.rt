//! The store.

ghost use Rattle.std.specs.Prelude.{◌≡◌, ⊤};

use disk_trait::Disk;
use pool_name::Namer;
use store_parts::StoreParts;

/// The office of backups, durable on a disk.
///
/// Each event is one step of `office_model`: after its answer what it did is durable, and a crash at any moment leaves the
/// office as it was before the event or as it is after. A fault of the disk in a commit halts the store: the disk has one of
/// two offices, and each event is answered `Halted` until a `Reopen` finds which.
pub struct Store<D: Disk, N: Namer> {
    pub(crate) parts: StoreParts<D, N>,
    pub(crate) namer: N,
    ghost plain: { ⊤ },
}

impl<D: Disk, N: Namer> Store<D, N> {
    /// What it holds.
    pub(crate) fn into_parts(self) -> StoreParts<D, N>
        ensures { result ≡ self.parts }
    {
        let Store { parts, namer: _ } = self;
        parts
    }
}

/// Written out: what is in it is then dropped here, for the prover too, and not in each crate above.
impl<D: Disk + Drop, N: Namer> Drop for Store<D, N> {
    fn drop(self) {
        let Store { parts: _, namer: _ } = self;
    }
}
