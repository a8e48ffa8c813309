//! The laws as clauses of calls that do nothing. `given` is a test of ids, `contents` tells the bytes of each.

ghost use Rattle.std.specs.Prelude.{◌≡◌, ◌≤◌, Bool, true, false, List, ℕ, Some, length};
ghost use Rattle.disk_trait.specs.declared.ids.PoolId.{PoolId};
ghost use Rattle.attr_records.specs.Items.{is_dir as is_dir_item};
ghost use Rattle.attr_records.specs.Trees.{IsTree, node_at};
ghost use Rattle.attr_tables.specs.declared.records.Record.{Record};
ghost use Rattle.attr_tables.specs.Records.{is_dir, is_same_record};
ghost use Rattle.merge_view.specs.Views.{Rows, IsWhole};
ghost use Rattle.stored_trees.specs.Resolved.{resolved, AreTold, IsOneToOne};
ghost use Rattle.change_laws.specs.Changes.{brought, topmost, lost_rows, changed_rows, without_all, AreThere, AreAllowed};
ghost use Rattle.change_laws.specs.SameItems.{is_same_item};

/// The older of two trees' rows, without what the newer lost and with what it changed, are the newer. Each of the removals,
/// in order, finds its path. None of the puts behind them, in order, breaks a rule, if the newer tree keeps the limits: at
/// most 1,048,576 paths, and no record that is `large`, whatever this is judged by.
pub fn rows_law()
    ensures brought { (newer older : Rows) → IsTree is_dir newer → IsTree is_dir older → brought is_dir is_same_record newer older ≡ newer }
    ensures removals { (newer older : Rows) → IsTree is_dir newer → IsTree is_dir older → AreThere (topmost (lost_rows is_dir newer older)) older }
    ensures puts { (large : Record → Bool) (newer older : Rows) → IsTree is_dir newer → IsTree is_dir older → length newer ≤ 1048576
        → ((path : List ℕ) (node : Record) → node_at newer path ≡ Some node → large node ≡ false)
        → AreAllowed is_dir large (changed_rows is_same_record newer older) (without_all (topmost (lost_rows is_dir newer older)) older) }
{}

/// What is removed and put between rows is what is removed and put between their trees.
pub fn resolved_law()
    ensures removals { (contents : PoolId → List ℕ) (newer older : Rows) → IsWhole newer → IsWhole older
        → resolved contents (topmost (lost_rows is_dir newer older)) ≡ topmost (lost_rows is_dir_item (resolved contents newer) (resolved contents older)) }
    ensures changes { (given : PoolId → Bool) (contents : PoolId → List ℕ) → IsOneToOne (λ id. given id ≡ true) contents
        → (newer older : Rows) → IsWhole newer → IsWhole older → AreTold (λ id. given id ≡ true) contents newer → AreTold (λ id. given id ≡ true) contents older
        → resolved contents (changed_rows is_same_record newer older) ≡ changed_rows is_same_item (resolved contents newer) (resolved contents older) }
{}
