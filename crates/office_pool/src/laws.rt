//! What a pool is to an office.

ghost use Rattle.std.specs.Prelude.{◌≡◌, [], Bool, true, List, ℕ, length};
ghost use Rattle.disk_trait.specs.declared.ids.PoolId.{PoolId};
ghost use Rattle.disk_trait.specs.Files.{Files};
ghost use Rattle.disk_trait.specs.Images.{FileSet};
ghost use Rattle.pool_changes.specs.Slots.{Slots, is_live, is_given, size_of};
ghost use Rattle.pool_changes.specs.Indexed.{AreGiven, relisted_by};
ghost use Rattle.pool_changes.specs.Listed.{index_of};
ghost use Rattle.pool_store.specs.Pools.{IsCertain};
ghost use Rattle.pool_store.specs.Fits.{Fits};
ghost use Rattle.merge_view.specs.Views.{Rows};
ghost use Rattle.stored_trees.specs.Resolved.{IsOneToOne};
ghost use Rattle.ref_counts.specs.Stored.{StoredHost};
ghost use Rattle.office_model.specs.Office.{Durable};
ghost use Rattle.office_files.specs.Pooled.{contents_of};
ghost use Rattle.office_files.specs.Stands.{Stands};
ghost use Rattle.office_changes.specs.Commits.{is_named, IsListedWith};
ghost use Rattle.office_pool.specs.AddedLaws.{is_among};

/// A pool without staged names, by whose live names files stand for an office, fits the files.
pub fn pool_fits_an_opened_office()
    ensures { (digest_of : List ℕ → List ℕ) (slots : Slots) (backups : List StoredHost) (files : Files) (office : Durable) (uncertain : FileSet)
        → ((id : PoolId) → is_given (slots id) ≡ true → is_live (slots id) ≡ true) → IsCertain slots uncertain
        → Stands digest_of (index_of slots) backups files office → Fits digest_of slots uncertain files }
{}

/// Live and staged names of a pool that fits: different ones hold different contents, none of them empty, of their digests and sizes.
pub fn given_names_are_told()
    ensures one { (digest_of : List ℕ → List ℕ) (slots : Slots) (uncertain : FileSet) (files : Files) → Fits digest_of slots uncertain files
        → IsOneToOne (λ id. is_given (slots id) ≡ true) (contents_of files) }
    ensures digest { (digest_of : List ℕ → List ℕ) (slots : Slots) (uncertain : FileSet) (files : Files) → Fits digest_of slots uncertain files
        → (id : PoolId) → is_given (slots id) ≡ true → id.digest ≡ digest_of (contents_of files id) }
    ensures size { (digest_of : List ℕ → List ℕ) (slots : Slots) (uncertain : FileSet) (files : Files) → Fits digest_of slots uncertain files
        → (id : PoolId) → is_given (slots id) ≡ true → size_of (slots id) ≡ length (contents_of files id) }
{}

/// If the names that are added are those of rows, the index then lists the names of the rows, unmarked, beside what it listed.
pub fn added_names_are_listed()
    ensures { (ids : List PoolId) (slots : Slots) (rows : Rows) (contents : PoolId → List ℕ) → AreGiven slots ids
        → ((id : PoolId) → is_among ids id ≡ is_named id rows)
        → ((id : PoolId) → is_named id rows ≡ true → size_of (slots id) ≡ length (contents id))
        → IsListedWith rows contents (index_of slots) (index_of (relisted_by ids [] [] [] slots)) }
{}
