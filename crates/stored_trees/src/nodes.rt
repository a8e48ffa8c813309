ghost use Rattle.std.specs.Prelude.{◌≡◌, List, ℕ, Some, IfOk};
ghost use Rattle.std.specs.Option.{option_copied, option_map};
ghost use Rattle.disk_trait.specs.declared.ids.PoolId.{PoolId};
ghost use Rattle.attr_records.specs.Paths.{path_cmp};
ghost use Rattle.attr_records.specs.Trees.{node_at};
ghost use Rattle.ordered_lists.specs.Order.{IsInOrder};
ghost use Rattle.stored_trees.specs.Resolved.{resolved, resolved_entry, resolved_item, content_in, bytes_of};

use attr_records::{File, Item, PathName};
use attr_tables::{Record, Table};
use disk_trait::Bytes;
use std::alloc::{AllocError, Global};

/// The node of a stored record with the bytes of its content, None for a deletion mark; or want of memory.
pub fn resolve(alloc: Global, stored: &Record, bytes: Bytes) -> Result<Option<Item>, AllocError>
    ensures { IfOk result (λ node. (contents : PoolId → List ℕ) → bytes ≡ bytes_of contents (content_in stored.now) → node ≡ resolved_entry contents stored.now) }
{
    match stored {
        Record::File(file) => Ok(Some(Item::File(File {
            attr: file.attr,
            group: file.group,
            bytes,
        }))),
        Record::Dir(dir) => Ok(Some(Item::Dir(*dir))),
        Record::Link(link) => Ok(Some(Item::Link(link.copy(alloc)?))),
        Record::Deleted => Ok(None),
    }
}

/// The record at a path of a table, by halving: its node is what the table's tree has there.
pub fn find<'a>(table: &'a Table, path: &PathName) -> Option<&'a Record>
    ensures record { option_copied result ≡ node_at table.now path.now }
    ensures node { (contents : PoolId → List ℕ) → option_map (resolved_item contents) (option_copied result) ≡ node_at (resolved contents table.now) path.now }
{
    table.find(path)
}
