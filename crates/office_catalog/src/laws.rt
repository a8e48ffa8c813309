//! What follows from the definitions alone.

ghost use Rattle.std.specs.Prelude.{◌≡◌, ℕ, List, Option, Some};
ghost use Rattle.disk_trait.specs.declared.ids.FileId.{FileId};
ghost use Rattle.disk_trait.specs.declared.ids.FileId.TheVariants.{Head, Host};
ghost use Rattle.disk_trait.specs.Files.{Files};
ghost use Rattle.office_catalog.specs.Known.{Known};
ghost use Rattle.office_catalog.specs.Held.{HoldsCatalog, IsForeign};

use one_way_layouts::{head_is_of_one_value, host_is_of_one_value};

/// Files hold one catalog at most.
pub fn files_hold_one_catalog()
    ensures { (files : Files) (a b : Known) → HoldsCatalog files a → HoldsCatalog files b → a ≡ b }
{
    head_is_of_one_value();
    host_is_of_one_value();
}

/// Files hold a catalog by Head and the Host files alone.
pub fn no_other_file_counts()
    ensures { (files others : Files) (known : Known) → others Head ≡ files Head → ((host : ℕ) → others (Host host) ≡ files (Host host))
        → HoldsCatalog files known → HoldsCatalog others known }
{}

/// In files that hold a catalog no opening finds a foreign one.
pub fn held_files_are_not_foreign()
    ensures { (files : Files) (known : Known) (file : FileId) (found : Option (List ℕ)) → HoldsCatalog files known → IsForeign (Some files) file found → ⊥ }
{
    head_is_of_one_value();
    host_is_of_one_value();
}
