//! The view that is kept for the next read.

ghost use Rattle.std.specs.Prelude.{◌≡◌, ℕ, List, Option, Some, None, true, false, take, IfSome, IfErr, OnOk, OnErr, IsErrOf, slice_get};
ghost use Rattle.std.specs.Option.{option_copied};
ghost use Rattle.fault_counts.specs.Counts.{Counted};
ghost use Rattle.disk_trait.specs.Files.{Files};
ghost use Rattle.backup_rules.specs.declared.lines.Line.{Line as LineValue};
ghost use Rattle.attr_records.specs.Trees.{node_at};
ghost use Rattle.merge_view.specs.Runs.{within_rows};
ghost use Rattle.merge_view.specs.Views.{Rows, IsWhole};
ghost use Rattle.journal_view.specs.View.{told, Quiet};

use crate::fault::ViewFault;
use crate::tables::read_tree;
use attr_records::PathName;
use attr_tables::{Record, Row};
use backup_rules::Line;
use disk_trait::Disk;
use intent_journal::Journal;
use merge_view::within;
use shared_tables::SharedTable;
use std::alloc::Global;

/// The tree of a backup, decoded. Others may hold its rows, too, and go on holding them when another view is kept.
#[derive(Debug, Drop)]
pub struct KeptView {
    host: u32,
    number: u32,
    rows: SharedTable,
}

/// The view that was asked for last, if any.
#[derive(Debug, Drop)]
pub struct Views {
    kept: Option<KeptView>,
}

impl Views {
    ghost use Rattle.backup_views.specs.Stored.{AreTables, tree_from, depth_of};
    ghost use Rattle.backup_views.specs.Faults.{SaysOneDamaged};
    ghost use Rattle.backup_views.specs.Kept.{Trees, IsKept, HasView, AreRowsRead, rows_of};

    /// Keeps none. It takes no memory.
    pub fn new() -> Views
        ensures { result.kept ≡ None }
    {
        Views { kept: None }
    }

    /// Forgets what is kept, as a change of the tables that it was read from asks for.
    pub fn forget(&mut self)
        ensures { self.new.kept ≡ None }
    {
        self.kept = None;
    }

    /// Whether the view of this backup is kept.
    pub fn has(&self, host: u32, number: u32) -> bool
        ensures { result ≡ true → HasView self.now host number }
    {
        match &self.kept {
            Some(kept) => kept.host == host && kept.number == number,
            None => false,
        }
    }

    /// Keeps the view of the first of these backups of a host, which are given from the one asked for up to the newest. If it
    /// is kept already, nothing is read. If there are none, nothing happens. After a refusal the view from before is kept.
    pub fn load<D: Disk>(
        &mut self,
        alloc: Global,
        journal: &mut Journal<D>,
        host: u32,
        lines: &[Line],
    ) -> Result<(), ViewFault>
        requires { journal.old.halted ≡ false }
        ensures has { OnOk result ((line : LineValue) → slice_get lines.now 0 ≡ Some line → HasView self.new host line.number) }
        ensures kept { (all : Files) (stored : List Rows) (trees : Trees) → told journal.old ≡ Some all → AreTables all host lines.now stored
            → ((line : LineValue) → slice_get lines.now 0 ≡ Some line → trees host line.number ≡ tree_from lines.now stored)
            → IsKept self.old.kept trees → IsKept self.new.kept trees }
        ensures read { OnOk result ((all : Files) → told journal.old ≡ Some all → AreRowsRead self.old all host lines.now (rows_of self.new.kept)) }
        ensures err { OnErr result (self.new.kept ≡ self.old.kept) }
        ensures damaged { IfErr result (SaysOneDamaged (told journal.old) host (take (depth_of lines.now) lines.now)) }
        ensures quiet { Quiet journal.old journal.new }
        ensures counted { Counted (D.fault_count journal.old.disk) (D.fault_count journal.new.disk) (IsErrOf result ViewFault.Disk) }
    {
        let [line, ..] = lines else {
            return Ok(());
        };
        if self.has(host, line.number) {
            return Ok(());
        }
        let tree = read_tree(alloc, journal, host, lines)?;
        let rows = match SharedTable::new(alloc, tree) {
            Ok(rows) => rows,
            Err(_) => return Err(ViewFault::Memory),
        };
        self.kept = Some(KeptView {
            host,
            number: line.number,
            rows,
        });
        Ok(())
    }

    /// The rows of the view that is kept, for a further holder, which takes no memory; None if none is kept, or if too many
    /// hold them to be counted.
    pub fn share(&self) -> Option<SharedTable>
        ensures { IfSome result (λ rows. rows ≡ rows_of self.now.kept) }
    {
        match &self.kept {
            Some(kept) => match kept.rows.share() {
                Ok(rows) => Some(rows),
                Err(_) => None,
            },
            None => None,
        }
    }

    /// The rows of the view that is kept, none if none is.
    pub fn rows(&self) -> &[Row]
        ensures { result.now ≡ rows_of self.now.kept }
    {
        match &self.kept {
            Some(kept) => kept.rows.rows(),
            None => &[],
        }
    }

    /// The rows of a directory and of all below it in the view that is kept: a search, and no memory.
    pub fn within(&self, directory: &[u8]) -> &[Row]
        ensures { result.now ≡ within_rows directory.now (rows_of self.now.kept) }
    {
        match &self.kept {
            Some(kept) => within(kept.rows.rows(), directory),
            None => &[],
        }
    }

    /// What the view that is kept has at a path: a search, and no memory.
    pub fn find(&self, path: &PathName) -> Option<&Record>
        ensures { option_copied result ≡ node_at (rows_of self.now.kept) path.now }
    {
        match &self.kept {
            Some(kept) => kept.rows.find(path),
            None => None,
        }
    }
}
