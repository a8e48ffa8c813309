//! The changes that are committed.

ghost use Rattle.std.specs.Prelude.{IfOk};
ghost use Rattle.intent_journal.specs.Changes.{AreChanges};

use crate::fault::Fault;
use crate::sizes::Sizes;
use disk_trait::{Bytes, FileId};
use intent_journal::{Change, Changes};
use std::alloc::Global;

/// The changes of the indices of the first hosts, to the same bytes.
pub fn changes_of(alloc: Global, sizes: Sizes) -> Result<Changes, Fault>
    ensures { IfOk result AreChanges }
{
    let mut changes = Changes::new(alloc);
    for host in 0..sizes.files {
        let file = FileId::Host(host);
        if changes.names_file(file) {
            return Err(Fault::Twice);
        }
        let bytes = Bytes::from_vec(vec![in alloc; 0x55u8; sizes.bytes]?);
        changes.push(Change {
            file,
            bytes: Some(bytes),
        })?;
    }
    Ok(changes)
}
