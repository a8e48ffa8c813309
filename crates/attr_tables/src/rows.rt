ghost use Rattle.std.specs.Prelude.{◌≡◌, IfOk};
ghost use Rattle.attr_tables.specs.Records.{IsSound};

use crate::records::Record;
use attr_records::PathName;
use ordered_lists::Entry;
use std::alloc::{AllocError, Global};
use std::cmp::Ordering;
use std::marker::Model;

/// A path and what a table says of it.
#[derive(Debug)]
pub struct Row {
    path: PathName,
    node: Record,
}

impl Model for Row {
    ghost use Rattle.std.specs.Prelude.{List, ℕ};
    ghost use Rattle.attr_tables.specs.declared.records.Record.{Record};
    ghost use Rattle.attr_tables.specs.Records.{IsSound};

    ghost Value = { List ℕ × Record };

    ghost view = { λ r. (r.path, r.node) };

    ghost invariant = { λ r. IsSound r.node };
}

/// Written out: what is in it is then dropped here, for the prover too, and not in each crate above.
impl Drop for Row {
    fn drop(self) {
        let Row { path: _, node: _ } = self;
    }
}

impl Row {
    pub fn new(path: PathName, node: Record) -> Row
        requires { IsSound node }
        ensures { result ≡ (path, node) }
    {
        Row { path, node }
    }

    pub fn path(&self) -> &PathName
        ensures { result.now ≡ self.now.0 }
    {
        &self.path
    }

    pub fn node(&self) -> &Record
        ensures value { result.now ≡ self.now.1 }
        ensures sound { IsSound self.now.1 }
    {
        &self.node
    }

    /// The path and what is said of it, which takes no memory.
    pub fn into_parts(self) -> (PathName, Record)
        ensures value { result ≡ self }
        ensures sound { IsSound result.1 }
    {
        let Row { path, node } = self;
        (path, node)
    }

    /// An equal row, or want of memory.
    pub fn copy(&self, alloc: Global) -> Result<Row, AllocError>
        ensures { IfOk result (λ copy. copy ≡ self.now) }
    {
        Ok(Row {
            path: self.path.copy(alloc)?,
            node: self.node.copy(alloc)?,
        })
    }
}

impl Entry for Row {
    ghost use Rattle.std.specs.Prelude.{List, ℕ};
    ghost use Rattle.attr_records.specs.Paths.{path_cmp};
    ghost use Rattle.attr_records.specs.PathLaws.{path_cmp_total};
    ghost use Rattle.attr_tables.specs.declared.records.Record.{Record};

    ghost Key = { List ℕ };

    ghost Held = { Record };

    ghost entry = { λ row. row };

    ghost order = { path_cmp };

    ghost total = { path_cmp_total };

    fn compare(&self, other: &Row) -> Ordering {
        self.path.cmp(&other.path)
    }
}
