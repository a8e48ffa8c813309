//! The laws as clauses of calls that do nothing.

ghost use Rattle.std.specs.Prelude.{◌≡◌, ◌≤◌, Bool, true, false, List, ℕ, Some, length};
ghost use Rattle.attr_records.specs.declared.nodes.Item.{Item};
ghost use Rattle.attr_records.specs.Items.{Tree, is_dir};
ghost use Rattle.attr_records.specs.Trees.{IsTree, node_at};
ghost use Rattle.change_laws.specs.Changes.{brought, topmost, lost_rows, changed_rows, without_all, AreThere, AreAllowed};
ghost use Rattle.change_laws.specs.SameItems.{is_same_item};

/// The test decides whether two nodes are one.
pub fn same_item_law()
    ensures same { (a b : Item) → is_same_item a b ≡ true → a ≡ b }
    ensures itself { (a : Item) → is_same_item a a ≡ true }
{}

/// The older of two trees, without what the newer lost and with what it changed, is the newer. Each of the removals, in
/// order, finds its path. None of the puts behind them, in order, breaks a rule, if the newer tree keeps the limits: at
/// most 1,048,576 paths, and no node that is `large`, whatever this is judged by.
pub fn since_law()
    ensures brought { (newer older : Tree) → IsTree is_dir newer → IsTree is_dir older → brought is_dir is_same_item newer older ≡ newer }
    ensures removals { (newer older : Tree) → IsTree is_dir newer → IsTree is_dir older → AreThere (topmost (lost_rows is_dir newer older)) older }
    ensures puts { (large : Item → Bool) (newer older : Tree) → IsTree is_dir newer → IsTree is_dir older → length newer ≤ 1048576
        → ((path : List ℕ) (node : Item) → node_at newer path ≡ Some node → large node ≡ false)
        → AreAllowed is_dir large (changed_rows is_same_item newer older) (without_all (topmost (lost_rows is_dir newer older)) older) }
{}
