//! The laws as clauses of calls that do nothing. `given` is a test of ids, `told` tells the content of each.

ghost use Rattle.std.specs.Prelude.{◌≡◌, ◌+◌, ◌<◌, ◌↔◌, ◌++◌, [], ◌∷◌, Bool, true, ℕ, List, if◌then◌else◌};
ghost use Rattle.disk_trait.specs.declared.ids.PoolId.{PoolId};
ghost use Rattle.merge_view.specs.Views.{reverse};
ghost use Rattle.stored_trees.specs.Occurrences.{occurrences};
ghost use Rattle.stored_trees.specs.Resolved.{IsOneToOne};
ghost use Rattle.ref_counts.specs.Numbers.{Items, AreCounts, number, total};
ghost use Rattle.ref_counts.specs.Stored.{Backup, StoredHost, stored, counted, AreWhole, IsNamedIn, IsHeldIn, AreAllToldIn, with_new, older_tables};

/// What is counted of a host names an id exactly if the tree of a backup or of the partial names it, and so if one has its content.
pub fn bridge_law()
    ensures named { (id : PoolId) (host : StoredHost) → AreWhole host.backups → (0 < total id (counted host)) ↔ IsNamedIn id host }
    ensures held { (given : PoolId → Bool) (told : PoolId → List ℕ) → IsOneToOne (λ id. given id ≡ true) told
        → (id : PoolId) (host : StoredHost) → given id ≡ true → AreAllToldIn (λ id. given id ≡ true) told host → AreWhole host.backups
        → (0 < total id (counted host)) ↔ IsHeldIn told (told id) host }
{}

/// A commit changes the former newest backup's table alone, and adds one; so the numbers change by these tables' alone.
pub fn commit_law()
    ensures before { (older : List Backup) (newest : Backup) → stored (older ++ newest ∷ []) ≡ older_tables older newest ++ newest.rows ∷ [] }
    ensures after { (older : List Backup) (newest new : Backup) (stays : Bool) → stored (with_new older newest stays new)
        ≡ older_tables older newest ++ (if stays then newest.rows else reverse newest.rows new.rows) ∷ new.rows ∷ [] }
    ensures total { (id : PoolId) (older : List Backup) (newest new : Backup) (stays : Bool)
        → total id (stored (with_new older newest stays new)) + occurrences id newest.rows ≡ total id (stored (older ++ newest ∷ []))
        + (occurrences id (if stays then newest.rows else reverse newest.rows new.rows) + occurrences id new.rows) }
{}

/// Counts with the same number at each id are the same.
pub fn same_counts_law()
    ensures { (counts other : Items) → AreCounts counts → AreCounts other → ((id : PoolId) → number counts id ≡ number other id) → counts ≡ other }
{}
