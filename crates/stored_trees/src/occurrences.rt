ghost use Rattle.std.specs.Prelude.{◌≡◌, ◌≤◌, Bool, true, List, ℕ, length};
ghost use Rattle.disk_trait.specs.declared.ids.PoolId.{PoolId};
ghost use Rattle.attr_records.specs.Items.{contents};
ghost use Rattle.stored_trees.specs.Resolved.{resolved, AreTold, IsOneToOne};
ghost use Rattle.stored_trees.specs.Occurrences.{names, occurrences, times};

use attr_tables::{Record, Row};
use disk_trait::PoolId;

/// Whether a stored record names an id.
pub fn names(stored: &Record, id: &PoolId) -> bool
    ensures { result ≡ names id.now stored.now }
{
    match stored {
        Record::File(file) => match file.content {
            Some(content) => content == *id,
            None => false,
        },
        _ => false,
    }
}

/// How many rows name an id. Their tree has its content as often.
pub fn count_occurrences(rows: &[Row], id: &PoolId) -> usize
    ensures value { result ≡ occurrences id.now rows.now }
    ensures resolved { (given : PoolId → Bool) (told : PoolId → List ℕ) → IsOneToOne (λ id. given id ≡ true) told → given id.now ≡ true
        → AreTold (λ id. given id ≡ true) told rows.now → result ≡ times (told id.now) (contents (resolved told rows.now)) }
{
    let mut count = 0;
    for row in rows {
        if names(row.node(), id) {
            count += 1;
        }
    }
    count
}
