//! What is said of a demo.

ghost use Rattle.std.specs.Prelude.{◌≡◌, ◌+◌, ◌≤◌, ◌++◌, length, decimal};
ghost use Rattle.short_text.specs.Limits.{short_text_limit};
ghost use Rattle.hex.specs.Hex.{encode_lower};
ghost use Rattle.demo_work.specs.Texts.{backup_lines, pool_lines, summary_text, text_of};

use crate::ends::{DemoEnd, Summary};
use short_text::ShortText;

/// Appends a name and a number.
fn push_named(text: &mut ShortText, name: &[u8], number: u64)
    requires { length text.old + length name.now + 20 ≤ short_text_limit }
    ensures value { text.new ≡ text.old ++ name.now ++ decimal number }
    ensures len { length text.new ≤ length text.old + length name.now + 20 }
{
    text.push(name);
    text.push_number(number);
}

/// Appends bytes in hex.
fn push_hex(text: &mut ShortText, bytes: [u8; 16])
    requires { length text.old + 32 ≤ short_text_limit }
    ensures value { text.new ≡ text.old ++ encode_lower bytes }
    ensures len { length text.new ≡ length text.old + 32 }
{
    let mut digits = [0u8; 32];
    let Ok(()) = hex::encode_to_slice(&bytes, &mut digits) else {
        unreachable!()
    };
    text.push(&digits);
}

/// Appends the lines of the number, the hosts and the backups.
#[tactic(auto, unfolding(crate::specs::Texts::backup_lines))]
fn push_backup_lines(text: &mut ShortText, summary: &Summary)
    requires { length text.old ≤ 100 }
    ensures value { text.new ≡ text.old ++ backup_lines summary.now }
    ensures len { length text.new ≤ length text.old + 200 }
{
    push_named(text, b"demo ", summary.number);
    text.push(b"\nhosts 4\n");
    push_named(text, b"backups ", summary.backups);
    push_named(text, b" filled ", summary.filled);
    text.push(b"\n");
}

/// Appends the lines of the pool and of the check.
#[tactic(auto, unfolding(crate::specs::Texts::pool_lines))]
fn push_pool_lines(text: &mut ShortText, summary: &Summary)
    requires { length text.old ≤ 300 }
    ensures { text.new ≡ text.old ++ pool_lines summary.now }
{
    push_named(text, b"pool files ", summary.files);
    push_named(text, b" bytes ", summary.bytes);
    push_named(text, b" marked ", summary.marked);
    text.push(b"\ncheck ");
    push_hex(text, summary.check);
    text.push(b"\n");
}

/// The five lines.
fn summary_text(summary: &Summary) -> ShortText
    ensures { result ≡ summary_text summary.now }
{
    let mut text = ShortText::new();
    push_backup_lines(&mut text, summary);
    push_pool_lines(&mut text, summary);
    text
}

impl DemoEnd {
    ghost use Rattle.std.specs.Prelude.{◌≡◌};
    ghost use Rattle.demo_work.specs.Texts.{text_of};

    /// What is said at the end, if all was called: five lines, each with its line feed. Nothing is said of a demo that ended early.
    pub fn text(&self) -> Option<ShortText>
        ensures { result ≡ text_of self.now }
    {
        match self {
            DemoEnd::Done(summary) => Some(summary_text(summary)),
            DemoEnd::Occupied | DemoEnd::Refused(_) | DemoEnd::Memory => None,
        }
    }
}
