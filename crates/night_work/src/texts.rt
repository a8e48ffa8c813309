//! What is said of a night.

ghost use Rattle.std.specs.Prelude.{◌≡◌, ◌+◌, ◌≤◌, ◌++◌, length, decimal, codes};
ghost use Rattle.std.specs.Fmt.{signed_decimal};
ghost use Rattle.short_text.specs.Limits.{short_text_limit};
ghost use Rattle.night_work.specs.Texts.{night_line, text_of};

use crate::ends::{Night, NightEnd};
use itoa::Buffer;
use short_text::ShortText;

/// Appends a count in decimal.
fn push_count(text: &mut ShortText, name: &[u8], count: u128)
    requires { length text.old + length name.now + 40 ≤ short_text_limit }
    ensures value { text.new ≡ text.old ++ name.now ++ decimal count }
    ensures len { length text.new ≤ length text.old + length name.now + 40 }
{
    let mut buffer = Buffer::new();
    text.push(name);
    text.push(buffer.format(count).as_bytes());
}

/// Appends the number of a day in decimal.
fn push_day(text: &mut ShortText, day: i64)
    requires { length text.old + 40 ≤ short_text_limit }
    ensures value { text.new ≡ text.old ++ signed_decimal day }
    ensures len { length text.new ≤ length text.old + 40 }
{
    let mut buffer = Buffer::new();
    text.push(buffer.format(day).as_bytes());
}

/// The line of a night.
#[tactic(auto, unfolding(crate::specs::Texts::night_line))]
fn line(night: &Night) -> ShortText
    ensures { result ≡ night_line night.now }
{
    let mut text = ShortText::new();
    text.push(b"night ");
    push_day(&mut text, night.day);
    push_count(&mut text, b": expired ", night.expired);
    push_count(&mut text, b", marked ", night.marked);
    push_count(&mut text, b", unmarked ", night.unmarked);
    push_count(&mut text, b", removed ", night.removed);
    text.push(b"\n");
    text
}

/// What is said if it isn't time.
fn not_now() -> ShortText
    ensures { result ≡ codes "not now\n" }
{
    let mut text = ShortText::new();
    text.push(b"not now\n");
    text
}

impl NightEnd {
    ghost use Rattle.std.specs.Prelude.{◌≡◌};
    ghost use Rattle.night_work.specs.Texts.{text_of};

    /// What is said at the end, with its line feed: the line of the night, or that it isn't time. Nothing is said of a night that
    /// was cut off.
    pub fn text(&self) -> Option<ShortText>
        ensures { result ≡ text_of self.now }
    {
        match self {
            NightEnd::Done(night) => Some(line(night)),
            NightEnd::NotNow => Some(not_now()),
            NightEnd::Refused(_) | NightEnd::Memory => None,
        }
    }
}
