//! What follows from the definitions alone.

ghost use Rattle.std.specs.Prelude.{List, ℕ, Some};
ghost use Rattle.disk_trait.specs.Files.{no_files};
ghost use Rattle.disk_trait.specs.Images.{FileSet, IsWithin, nothing};
ghost use Rattle.office_model.specs.Office.{blank};
ghost use Rattle.store_opening.specs.Opens.{IsOf};

/// A disk without files, of which none is uncertain, is that of the office without hosts.
pub fn disk_without_files_is_blank()
    ensures { (digest_of : List ℕ → List ℕ) (uncertain : FileSet) → IsWithin uncertain nothing
        → IsOf digest_of (Some no_files) uncertain blank blank }
{}
