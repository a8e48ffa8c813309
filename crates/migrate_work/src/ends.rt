//! How a migration ends, and what is said of it.

ghost use Rattle.std.specs.Prelude.{◌≡◌};
ghost use Rattle.migrate_work.specs.Texts.{migrated_line};

use itoa::Buffer;
use office_model::Refusal;
use short_text::ShortText;

/// How a migration ended.
#[derive(Debug, Drop)]
pub enum MigrationEnd {
    /// All hosts, of which there are so many, were migrated.
    Done(u64),
    /// The last call was refused.
    Refused(Refusal),
    /// There was no memory for the names of the hosts, and nothing else was called.
    Memory,
}

/// The line of a migration.
#[tactic(auto, unfolding(crate::specs::Texts::migrated_line))]
fn line(count: u64) -> ShortText
    ensures { result ≡ migrated_line count }
{
    let mut buffer = Buffer::new();
    let mut text = ShortText::new();
    text.push(b"migrated ");
    text.push(buffer.format(count).as_bytes());
    text.push(b"\n");
    text
}

impl MigrationEnd {
    ghost use Rattle.std.specs.Prelude.{◌≡◌};
    ghost use Rattle.migrate_work.specs.Texts.{text_of};

    /// What is said at the end, with its line feed: the number of hosts. Nothing is said of a migration that was cut off.
    pub fn text(&self) -> Option<ShortText>
        ensures { result ≡ text_of self.now }
    {
        match self {
            MigrationEnd::Done(count) => Some(line(*count)),
            MigrationEnd::Refused(_) | MigrationEnd::Memory => None,
        }
    }
}
