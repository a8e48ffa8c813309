//! Changes of a catalog that aren't made yet.

ghost use Rattle.std.specs.Prelude.{◌≡◌, []};

use crate::named::NamedHost;
use backup_index::{HostIndex, LineList, Rules};
use intent_journal::Changes;
use receipts::ReceiptList;
use std::alloc::Global;
use std::mem;

/// What a change makes of a catalog.
#[derive(Drop)]
pub(crate) enum CatalogEdit {
    AddHost {
        named: NamedHost,
        index: HostIndex,
    },
    SetRules {
        host: usize,
        rules: Rules,
    },
    SetContacts {
        host: usize,
        good: u32,
        bad: u32,
    },
    SetLines {
        host: usize,
        next: u64,
        lines: LineList,
    },
    SetCommit {
        host: usize,
        next: u64,
        receipts: ReceiptList,
        lines: LineList,
    },
    SetEpoch {
        epoch: u64,
    },
}

/// A change of a catalog that isn't made yet: it is made by `accept`, after the journal's commit.
#[derive(Drop)]
pub struct CatalogChange {
    pub(crate) edit: CatalogEdit,
    pub(crate) changes: Changes,
}

impl CatalogChange {
    /// The changes of its files, for a commit.
    pub fn changes(&self) -> &Changes
        ensures { result.now ≡ self.now.changes }
    {
        &self.changes
    }

    /// Takes the changes of its files out, to be committed with others; takes no memory.
    pub fn take_changes(&mut self, alloc: Global) -> Changes
        ensures changes { result ≡ self.old.changes }
        ensures edit { self.new.edit ≡ self.old.edit }
        ensures none { self.new.changes ≡ [] }
    {
        mem::replace(&mut self.changes, Changes::new(alloc))
    }
}
