//! The members of an object.

ghost use Rattle.std.specs.Prelude.{◌≡◌, option_map};
ghost use Rattle.serde_json.specs.View.{view};
ghost use Rattle.listing_back.specs.Members.{number_at, text_at, session_of};

use http_query::read_number;
use office_model::SessionName;
use serde_json::Value;

/// The number of 32 bits at a key.
pub(crate) fn number_at(value: &Value, key: &str) -> Option<u32>
    ensures { result ≡ number_at key.now (view value.now) }
{
    u32::try_from(value.get(key).and_then(Value::as_u64)?).ok()
}

/// The text at a key.
pub(crate) fn text_at<'a>(value: &'a Value, key: &str) -> Option<&'a str>
    ensures { option_map (λ text. text.now) result ≡ text_at key.now (view value.now) }
{
    value.get(key).and_then(Value::as_str)
}

/// The session whose name a text is.
#[tactic(auto, unfolding(listing_back::specs::Members::session_of))]
pub(crate) fn session_of(text: &str) -> Option<SessionName>
    ensures { result ≡ session_of text.now }
{
    let (epoch, sequence) = match text.split_once('-') {
        Some((epoch, sequence)) => (epoch, sequence),
        None => (text, ""),
    };
    let epoch = read_number(epoch.as_bytes(), u64::MAX)?;
    let sequence = read_number(sequence.as_bytes(), u64::MAX)?;
    Some(SessionName { epoch, sequence })
}
