//! Objects of a few members, written into a short text.

ghost use Rattle.std.specs.Prelude.{◌≡◌, ◌+◌, ◌≤◌, ◌++◌, [], ◌∷◌, length};
ghost use Rattle.short_text.specs.Limits.{short_text_limit};
ghost use Rattle.reply_bodies.specs.Objects.{Text as TextValue, Count, comma, flag_text, text_field, number_field, flag_field, object_text};

use short_text::ShortText;

/// Appends a comma, if a member stands before.
fn push_comma(text: &mut ShortText, later: bool)
    requires { length text.old + 1 ≤ short_text_limit }
    ensures value { text.new ≡ text.old ++ comma later }
    ensures len { length text.new ≤ length text.old + 1 }
{
    if later {
        text.push(b",");
    }
}

/// Appends a member whose value is a text of plain bytes.
#[tactic(auto, unfolding(crate::specs::Objects::text_field))]
pub fn push_text(text: &mut ShortText, later: bool, key: &[u8], value: &[u8])
    requires { length text.old + length key.now + length value.now + 6 ≤ short_text_limit }
    ensures value { text.new ≡ text.old ++ text_field later key.now value.now }
    ensures len { length text.new ≤ length text.old + length key.now + length value.now + 6 }
{
    push_comma(text, later);
    text.push(b"\"");
    text.push(key);
    text.push(b"\":\"");
    text.push(value);
    text.push(b"\"");
}

/// Appends a member whose value is a number.
#[tactic(auto, unfolding(crate::specs::Objects::number_field))]
pub fn push_count(text: &mut ShortText, later: bool, key: &[u8], number: u64)
    requires { length text.old + length key.now + 24 ≤ short_text_limit }
    ensures value { text.new ≡ text.old ++ number_field later key.now number }
    ensures len { length text.new ≤ length text.old + length key.now + 24 }
{
    push_comma(text, later);
    text.push(b"\"");
    text.push(key);
    text.push(b"\":");
    text.push_number(number);
}

/// Appends `true` or `false`.
fn push_bool(text: &mut ShortText, flag: bool)
    requires { length text.old + 5 ≤ short_text_limit }
    ensures value { text.new ≡ text.old ++ flag_text flag }
    ensures len { length text.new ≤ length text.old + 5 }
{
    if flag {
        text.push(b"true");
    } else {
        text.push(b"false");
    }
}

/// Appends a member whose value is a flag.
#[tactic(auto, unfolding(crate::specs::Objects::flag_field))]
pub fn push_flag(text: &mut ShortText, later: bool, key: &[u8], flag: bool)
    requires { length text.old + length key.now + 9 ≤ short_text_limit }
    ensures value { text.new ≡ text.old ++ flag_field later key.now flag }
    ensures len { length text.new ≤ length text.old + length key.now + 9 }
{
    push_comma(text, later);
    text.push(b"\"");
    text.push(key);
    text.push(b"\":");
    push_bool(text, flag);
}

/// The object without members.
#[tactic(auto, unfolding(crate::specs::Objects::object_text))]
pub fn empty() -> ShortText
    ensures { result ≡ object_text [] }
{
    let mut text = ShortText::new();
    text.push(b"{}");
    text
}

/// An object of one text.
#[tactic(auto, unfolding(crate::specs::Objects::object_text))]
pub fn named(key: &[u8], name: &[u8]) -> ShortText
    requires key { length key.now ≤ 16 }
    requires name { length name.now ≤ 64 }
    ensures { result ≡ object_text ((key.now, TextValue name.now) ∷ []) }
{
    let mut text = ShortText::new();
    text.push(b"{");
    push_text(&mut text, false, key, name);
    text.push(b"}");
    text
}

/// An object of one number.
#[tactic(auto, unfolding(crate::specs::Objects::object_text))]
pub fn counted(key: &[u8], number: u64) -> ShortText
    requires { length key.now ≤ 16 }
    ensures { result ≡ object_text ((key.now, Count number) ∷ []) }
{
    let mut text = ShortText::new();
    text.push(b"{");
    push_count(&mut text, false, key, number);
    text.push(b"}");
    text
}
