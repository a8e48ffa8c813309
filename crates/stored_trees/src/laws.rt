//! The laws as clauses of calls that do nothing. `given` is a test of ids, `contents` tells the bytes of each.

ghost use Rattle.std.specs.Prelude.{◌≡◌, Bool, true, false, List, ℕ};
ghost use Rattle.disk_trait.specs.declared.ids.PoolId.{PoolId};
ghost use Rattle.attr_records.specs.Paths.{path_cmp};
ghost use Rattle.attr_records.specs.Trees.{with_node, without};
ghost use Rattle.ordered_lists.specs.Order.{IsInOrder};
ghost use Rattle.attr_tables.specs.declared.records.Record.{Record};
ghost use Rattle.attr_tables.specs.Records.{is_same_record};
ghost use Rattle.merge_view.specs.Views.{Rows, IsWhole, is_mark, view, reverse};
ghost use Rattle.stored_trees.specs.Resolved.{resolved, resolved_entries, resolved_item, IsTold, AreTold, IsOneToOne};
ghost use Rattle.stored_trees.specs.TreeViews.{is_same_item, tree_view, tree_reverse};

/// A view of rows is the view of their trees.
pub fn view_law()
    ensures { (contents : PoolId → List ℕ) (tree entries : Rows) → IsInOrder path_cmp tree → IsInOrder path_cmp entries
        → resolved contents (view tree entries) ≡ tree_view (resolved contents tree) (resolved_entries contents entries) }
{}

/// The reverse rows of whole rows are the reverse entries of their trees.
pub fn reverse_law()
    ensures { (given : PoolId → Bool) (contents : PoolId → List ℕ) → IsOneToOne (λ id. given id ≡ true) contents
        → (older newer : Rows) → IsWhole older → IsWhole newer → AreTold (λ id. given id ≡ true) contents older → AreTold (λ id. given id ≡ true) contents newer
        → resolved_entries contents (reverse older newer) ≡ tree_reverse (resolved contents older) (resolved contents newer) }
{}

/// A put of a record is the put of its node.
pub fn put_law()
    ensures { (contents : PoolId → List ℕ) (rows : Rows) (path : List ℕ) (node : Record)
        → resolved contents (with_node rows path node) ≡ with_node (resolved contents rows) path (resolved_item contents node) }
{}

/// A removal from rows is the removal from their tree.
pub fn remove_law()
    ensures { (contents : PoolId → List ℕ) (rows : Rows) (path : List ℕ)
        → resolved contents (without rows path) ≡ without (resolved contents rows) path }
{}

/// Two records are one exactly if their nodes are.
pub fn equality_law()
    ensures { (given : PoolId → Bool) (contents : PoolId → List ℕ) → IsOneToOne (λ id. given id ≡ true) contents
        → (a b : Record) → IsTold (λ id. given id ≡ true) contents a → IsTold (λ id. given id ≡ true) contents b → is_mark a ≡ false → is_mark b ≡ false
        → is_same_record a b ≡ is_same_item (resolved_item contents a) (resolved_item contents b) }
{}

/// Rows of one tree and one set of deletion marks are the same rows.
pub fn rows_law()
    ensures { (given : PoolId → Bool) (contents : PoolId → List ℕ) → IsOneToOne (λ id. given id ≡ true) contents
        → (rows other : Rows) → AreTold (λ id. given id ≡ true) contents rows → AreTold (λ id. given id ≡ true) contents other
        → resolved_entries contents rows ≡ resolved_entries contents other → rows ≡ other }
{}

/// If the contents of given ids stay the same, rows of these ids keep their tree, and stay told.
pub fn kept_law()
    ensures tree { (given : PoolId → Bool) (before now : PoolId → List ℕ) → ((id : PoolId) → given id ≡ true → before id ≡ now id)
        → (rows : Rows) → AreTold (λ id. given id ≡ true) before rows → resolved before rows ≡ resolved now rows }
    ensures told { (given other : PoolId → Bool) (before now : PoolId → List ℕ) → ((id : PoolId) → given id ≡ true → (other id ≡ true) × (before id ≡ now id))
        → (rows : Rows) → AreTold (λ id. given id ≡ true) before rows → AreTold (λ id. other id ≡ true) now rows }
{}
