ghost use Rattle.std.specs.Prelude.{◌≡◌, length, IfOk};
ghost use Rattle.std.specs.Option.{option_copied};
ghost use Rattle.attr_records.specs.Paths.{path_cmp};
ghost use Rattle.attr_records.specs.Trees.{node_at};
ghost use Rattle.ordered_lists.specs.Order.{IsInOrder};

use attr_records::PathName;
use attr_tables::{Record, Row, Table};
use std::alloc::{AllocError, Global};
use std::marker::Model;
use std::sync::Arc;

/// A table that may have several holders. Nobody can change it.
#[derive(Debug, Drop)]
pub struct SharedTable {
    table: Arc<Table>,
}

impl Model for SharedTable {
    ghost use Rattle.std.specs.Prelude.{List, ℕ};
    ghost use Rattle.std.specs.Arc.{arc_value};
    ghost use Rattle.attr_tables.specs.declared.records.Record.{Record};

    ghost Value = { List (List ℕ × Record) };

    ghost view = { λ shared. arc_value shared.table };
}

impl SharedTable {
    /// The first holder of a table, or want of memory.
    pub fn new(alloc: Global, table: Table) -> Result<SharedTable, AllocError>
        ensures { IfOk result (λ shared. shared ≡ table) }
    {
        let table = Arc::new(alloc, table)?;
        Ok(SharedTable { table })
    }

    /// A further holder of the same table, which takes no memory; refused if there are too many to be counted.
    pub fn share(&self) -> Result<SharedTable, AllocError>
        ensures { IfOk result (λ shared. shared ≡ self.now) }
    {
        let table = self.table.clone()?;
        Ok(SharedTable { table })
    }

    /// The rows, in the order of their paths.
    pub fn rows(&self) -> &[Row]
        ensures rows { result.now ≡ self.now }
        ensures in_order { IsInOrder path_cmp self.now }
    {
        self.table.rows()
    }

    /// How many rows there are.
    pub fn len(&self) -> usize
        ensures { result ≡ length self.now }
    {
        self.table.len()
    }

    /// What the table says of a path, by halving.
    pub fn find(&self, path: &PathName) -> Option<&Record>
        ensures { option_copied result ≡ node_at self.now path.now }
    {
        self.table.find(path)
    }
}
