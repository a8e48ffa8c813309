//! What follows from the definitions alone.

ghost use Rattle.std.specs.Prelude.{◌≡◌, true, List, Some};
ghost use Rattle.disk_trait.specs.declared.ids.FileId.{FileId};
ghost use Rattle.disk_trait.specs.Names.{is_metadata};
ghost use Rattle.disk_trait.specs.Files.{Files};
ghost use Rattle.disk_trait.specs.Images.{FileSet, nothing};
ghost use Rattle.intent_journal.specs.declared.changes.Change.{Change};
ghost use Rattle.intent_journal.specs.Changes.{IsIntent};
ghost use Rattle.intent_journal.specs.Layout.{intent_file};
ghost use Rattle.intent_journal.specs.Overlay.{ComesTo};
ghost use Rattle.journal_view.specs.Found.{IsOpenable, IsFoundIn};
ghost use Rattle.journal_view.specs.Chain.{AreRestartsOf, EachFindsOf};

use disk_trait::Disk;
use intent_journal::Journal;

/// Intent's bytes are of one list of changes.
pub fn intent_is_of_one_list()
    ensures { (a b : List Change) → IsIntent a → IsIntent b → intent_file a ≡ intent_file b → a ≡ b }
{}

/// Two maps that one image comes to have one metadata.
pub fn image_comes_to_one_metadata()
    ensures { (files others : Files) (u v : FileSet) (image : Files) → ComesTo files u image → ComesTo others v image
        → (asked : FileId) → is_metadata asked ≡ true → others asked ≡ files asked }
{}

/// An opening finds one thing in an image.
pub fn opening_finds_one_thing()
    ensures { (image found other : Files) → IsFoundIn image found → IsFoundIn image other → found ≡ other }
{}

/// Openings, each of them cut short by a crash or not, one after the other: whatever each leaves
/// can be opened, and nothing is found but what could be found at first.
pub fn openings_and_crashes<D: Disk>(journal: &Journal<D>)
    ensures { (all : Files) (disks : List D) → D.files journal.now.disk ≡ Some all
        → IsOpenable (D.files journal.now.disk) (D.uncertain journal.now.disk)
        → AreRestartsOf journal.now disks → EachFindsOf journal.now disks }
{}
