//! The laws, each for a kind of file.

ghost use Rattle.std.specs.Prelude.{◌≡◌, List, Option, ℕ};
ghost use Rattle.backup_index.specs.declared.head.HeadFile.{HeadFile as Head};
ghost use Rattle.backup_index.specs.declared.layouts.IndexLayout.{IndexLayout};
ghost use Rattle.backup_index.specs.Head.{IsHead};
ghost use Rattle.backup_index.specs.Index.{Index, IsStored};
ghost use Rattle.attr_tables.specs.declared.file.TableFile.{TableFile as Table};
ghost use Rattle.attr_tables.specs.Layout.{IsTable};
ghost use Rattle.attr_tables.specs.Tables.{table_file};
ghost use Rattle.partial_files.specs.declared.partial.PartialFile.{PartialFile as Partial};
ghost use Rattle.partial_files.specs.Layout.{IsPartial};
ghost use Rattle.partial_files.specs.Partials.{partial_file};
ghost use Rattle.pool_index.specs.declared.item.IndexItem.{IndexItem as Item};
ghost use Rattle.pool_index.specs.Layout.{IsIndex, index_file};
ghost use Rattle.one_way_layouts.specs.Files.{head_file, host_file};

/// No two heads have one file.
pub fn head_is_of_one_value()
    ensures { (a b : Head) → IsHead a → IsHead b → head_file a ≡ head_file b → a ≡ b }
{}

/// No two indices of hosts have one file, be it in one layout or in two.
pub fn host_is_of_one_value()
    ensures { (a b : IndexLayout × Index) → IsStored a → IsStored b → host_file a.0 a.1 ≡ host_file b.0 b.1 → a ≡ b }
{}

/// No two tables have one file, be it in one layout or in two.
pub fn table_is_of_one_value()
    ensures { (a b : Table) → IsTable a.layout a.table → IsTable b.layout b.table → table_file a.layout a.table ≡ table_file b.layout b.table → a ≡ b }
{}

/// No two partial dumps of a host have one file.
pub fn partial_is_of_one_value()
    ensures { (host : ℕ) (a b : Partial) → IsPartial a → IsPartial b → partial_file host a ≡ partial_file host b → a ≡ b }
{}

/// No two lists of pooled contents have one file: those of a byte, and those of the one file of older stores.
pub fn pool_index_is_of_one_value()
    ensures { (byte : Option ℕ) (a b : List Item) → IsIndex byte a → IsIndex byte b → index_file byte a ≡ index_file byte b → a ≡ b }
{}
