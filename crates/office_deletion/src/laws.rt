//! A host after a deletion.

ghost use Rattle.std.specs.Prelude.{◌≡◌, ◌<◌, ◌∷◌, [], true, false, Bool, List, ℕ, Some, None, length, count_by, is_some, slice_get, slice_set};
ghost use Rattle.std.specs.List.{remove};
ghost use Rattle.disk_trait.specs.declared.ids.PoolId.{PoolId};
ghost use Rattle.disk_trait.specs.declared.ids.FileId.{FileId};
ghost use Rattle.disk_trait.specs.declared.ids.FileId.TheVariants.{Table as TableFile, Pool as PoolFile};
ghost use Rattle.disk_trait.specs.Names.{is_metadata};
ghost use Rattle.disk_trait.specs.Files.{Files};
ghost use Rattle.pool_index.specs.Index.{Index};
ghost use Rattle.ref_counts.specs.Stored.{StoredHost};
ghost use Rattle.office_model.specs.Office.{Durable, Host, Backup, AreBackups, IsSoundDurable, backup_index};
ghost use Rattle.office_model.specs.Parts.{lines_of, with_last, filled_as};
ghost use Rattle.office_model.specs.events.Expire.{unflagged};
ghost use Rattle.office_model.specs.laws.ExpireLaws.{FlagsFit};
ghost use Rattle.office_files.specs.Pooled.{contents_of, IsListed};
ghost use Rattle.office_files.specs.Hosts.{StandsHost};
ghost use Rattle.office_files.specs.Stands.{Stands};
ghost use Rattle.office_changes.specs.ChangeLaws.{is_of_host};
ghost use Rattle.office_deletion.specs.DeletionLaws.{left_backups, shortened, IsDeletion};
ghost use Rattle.office_deletion.specs.ExpiryLaws.{flagged_numbers};

/// A host after a deletion: files stand for it with the backups that are left, and no other table of it is there.
pub fn host_after_a_deletion()
    ensures stands { (index : Index) (numbers : List ℕ) (files image : Files) (number : ℕ) (host new : Host) (shown : StoredHost)
        → ((id : PoolId) → IsListed index id → contents_of files id ≡ contents_of image id)
        → StandsHost (IsListed index) (contents_of files) files number host shown
        → ((n : ℕ) → is_some (backup_index host.backups n) ≡ false → files (TableFile number n) ≡ None)
        → IsDeletion numbers files image number host new shown
        → StandsHost (IsListed index) (contents_of image) image number new
        (shortened numbers (lines_of host.backups) shown) }
    ensures beyond { (index : Index) (numbers : List ℕ) (files image : Files) (number : ℕ) (host new : Host) (shown : StoredHost)
        → ((id : PoolId) → IsListed index id → contents_of files id ≡ contents_of image id)
        → StandsHost (IsListed index) (contents_of files) files number host shown
        → ((n : ℕ) → is_some (backup_index host.backups n) ≡ false → files (TableFile number n) ≡ None)
        → IsDeletion numbers files image number host new shown
        → (n : ℕ) → is_some (backup_index new.backups n) ≡ false → image (TableFile number n) ≡ None }
{}

/// The model's deletion of one backup leaves the backups of other numbers, the last of them filled.
pub fn one_backup_is_deleted()
    ensures { (backups : List Backup) (index : ℕ) (backup : Backup)
        → ((i j : ℕ) (a b : Backup) → i < j → slice_get backups i ≡ Some a → slice_get backups j ≡ Some b → a.line.number < b.line.number)
        → slice_get backups index ≡ Some backup
        → with_last (filled_as true) (remove backups index) ≡ left_backups (backup.line.number ∷ []) backups }
{}

/// What the model leaves of the backups of a host, some of which are flagged, are the backups of other numbers: the newest
/// isn't flagged, and so stays filled.
pub fn flagged_backups_are_deleted()
    ensures left { (next : ℕ) (flags : List Bool) (backups : List Backup) → AreBackups next backups → FlagsFit flags backups
        → unflagged flags backups ≡ left_backups (flagged_numbers flags (lines_of backups)) backups }
    ensures counted { (flags : List Bool) (backups : List Backup) → length flags ≡ length (lines_of backups)
        → length (flagged_numbers flags (lines_of backups)) ≡ count_by (λ flag. flag) flags }
{}

/// If one host's files have a deletion, and others the same bytes, files stand for the office with that host in its place.
pub fn office_after_a_deletion()
    ensures { (digest_of : List ℕ → List ℕ) (index : Index) (stored : List StoredHost) (files image : Files) (office : Durable)
        (number : ℕ) (host new : Host) (numbers : List ℕ) (shown : StoredHost)
        → slice_get office.hosts number ≡ Some host → new.name ≡ host.name → slice_get stored number ≡ Some shown
        → ((file : FileId) → is_metadata file ≡ true → is_of_host number file ≡ false → image file ≡ files file)
        → ((id : PoolId) → IsListed index id → image (PoolFile id) ≡ files (PoolFile id))
        → IsDeletion numbers files image number host new shown
        → IsSoundDurable (record office { hosts = slice_set office.hosts number new })
        → Stands digest_of index stored files office
        → Stands digest_of index
        (slice_set stored number (shortened numbers (lines_of host.backups) shown))
        image (record office { hosts = slice_set office.hosts number new }) }
{}
