ghost use Rattle.std.specs.Prelude.{◌≡◌, ◌↔◌, [], ◌∷◌, ◌++◌, true, false, length, IsTrue, OnOk, OnErr, IfOk, IfErr, Some};
ghost use Rattle.std.specs.Option.{option_copied};
ghost use Rattle.attr_records.specs.Paths.{path_cmp};
ghost use Rattle.ordered_lists.specs.Order.{IsInOrder};
ghost use Rattle.attr_records.specs.Trees.{node_at};
ghost use Rattle.ordered_lists.specs.Order.{is_after};

use crate::records::Record;
use crate::rows::Row;
use attr_records::{PathName, compare};
use std::alloc::{AllocError, Global};
use std::marker::Model;

/// What rows in order say of a path, by halving them.
pub fn find<'a>(rows: &'a [Row], path: &[u8]) -> Option<&'a Record>
    requires { IsInOrder path_cmp rows.now }
    ensures { option_copied result ≡ node_at rows.now path.now }
{
    match ordered_lists::find(rows, |row: &Row| compare(row.path().as_slice(), path)) {
        Some(row) => Some(row.node()),
        None => None,
    }
}

/// Whether a path comes after that of the last row, if there is one.
pub fn is_after(rows: &[Row], path: &PathName) -> bool
    ensures { result ≡ is_after path_cmp rows.now path.now }
{
    match rows {
        [] => true,
        [.., last] => compare(last.path().as_slice(), path.as_slice()).is_lt(),
    }
}

/// Why a row was not appended.
#[derive(Clone, Copy, Debug, PartialEq, Eq)]
pub enum PushFault {
    /// Its path doesn't come after that of the last row.
    NotRising,
    /// There was no memory for it.
    Memory,
}

/// Rows in the order of their paths, one for each path.
#[derive(Debug)]
pub struct Table {
    rows: Vec<Row>,
}

impl Model for Table {
    ghost use Rattle.std.specs.Prelude.{List, ℕ};
    ghost use Rattle.attr_records.specs.Paths.{path_cmp};
    ghost use Rattle.ordered_lists.specs.Order.{IsInOrder};
    ghost use Rattle.attr_tables.specs.declared.records.Record.{Record};

    ghost Value = { List (List ℕ × Record) };

    ghost view = { λ t. t.rows.items };

    ghost invariant = { λ t. IsInOrder path_cmp t.rows.items };
}

/// Written out: what is in it is then dropped here, for the prover too, and not in each crate above.
impl Drop for Table {
    fn drop(self) {
        let Table { rows: _ } = self;
    }
}

impl Table {
    /// No rows; takes no memory.
    pub fn new(alloc: Global) -> Table
        ensures { result ≡ [] }
    {
        Table {
            rows: Vec::new(alloc),
        }
    }

    /// The table of rows in order, which takes no memory.
    pub fn from_rows(rows: Vec<Row>) -> Table
        requires { IsInOrder path_cmp rows.items }
        ensures { result ≡ rows.items }
    {
        Table { rows }
    }

    /// The rows, which takes no memory.
    pub fn into_rows(self) -> Vec<Row>
        ensures rows { result.items ≡ self }
        ensures in_order { IsInOrder path_cmp result.items }
    {
        let Table { rows } = self;
        rows
    }

    pub fn rows(&self) -> &[Row]
        ensures rows { result.now ≡ self.now }
        ensures in_order { IsInOrder path_cmp self.now }
    {
        self.rows.as_slice()
    }

    pub fn len(&self) -> usize
        ensures { result ≡ length self.now }
    {
        self.rows.len()
    }

    pub fn is_empty(&self) -> bool
        ensures { IsTrue result ↔ (self.now ≡ []) }
    {
        self.rows.is_empty()
    }

    /// What the table says of a path.
    pub fn find(&self, path: &PathName) -> Option<&Record>
        ensures { option_copied result ≡ node_at self.now path.now }
    {
        find(self.rows.as_slice(), path.as_slice())
    }

    /// Appends a row; refused exactly if its path doesn't come after theirs, or for want
    /// of memory.
    pub fn push(&mut self, row: Row) -> Result<(), PushFault>
        ensures ok { OnOk result (self.new ≡ self.old ++ row ∷ []) }
        ensures rising { OnOk result (is_after path_cmp self.old row.0 ≡ true) }
        ensures err { OnErr result (self.new ≡ self.old) }
        ensures not_rising { IfErr result (λ fault. fault ≡ PushFault.NotRising → is_after path_cmp self.old row.0 ≡ false) }
    {
        if !is_after(self.rows.as_slice(), row.path()) {
            return Err(PushFault::NotRising);
        }
        if self.rows.reserve(1).is_err() {
            return Err(PushFault::Memory);
        }
        match self.rows.push(row) {
            Ok(()) => Ok(()),
            Err(_) => unreachable!(),
        }
    }

    /// An equal table, or want of memory.
    pub fn copy(&self, alloc: Global) -> Result<Table, AllocError>
        ensures { IfOk result (λ copy. copy ≡ self.now) }
    {
        let mut rows = Vec::new(alloc);
        for row in self.rows.as_slice() {
            rows.push(row.copy(alloc)?)?;
        }
        Ok(Table { rows })
    }
}
