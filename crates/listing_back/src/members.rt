//! The members of an object.

ghost use Rattle.std.specs.Prelude.{◌≡◌, option_map};
ghost use Rattle.serde_json.specs.View.{view};
ghost use Rattle.listing_back.specs.Members.{count_at, number_at, flag_at, text_at, kind_of, session_of, maybe_session_in};

use backup_rules::Kind;
use http_query::read_number;
use office_model::SessionName;
use serde_json::Value;

/// The number of 64 bits at a key.
pub(crate) fn count_at(value: &Value, key: &str) -> Option<u64>
    ensures { result ≡ count_at key.now (view value.now) }
{
    value.get(key).and_then(Value::as_u64)
}

/// The number of 32 bits at a key.
pub(crate) fn number_at(value: &Value, key: &str) -> Option<u32>
    ensures { result ≡ number_at key.now (view value.now) }
{
    u32::try_from(count_at(value, key)?).ok()
}

/// The flag at a key.
pub(crate) fn flag_at(value: &Value, key: &str) -> Option<bool>
    ensures { result ≡ flag_at key.now (view value.now) }
{
    value.get(key).and_then(Value::as_bool)
}

/// The text at a key.
pub(crate) fn text_at<'a>(value: &'a Value, key: &str) -> Option<&'a str>
    ensures { option_map (λ text. text.now) result ≡ text_at key.now (view value.now) }
{
    value.get(key).and_then(Value::as_str)
}

/// The kind of a backup that a text names.
pub(crate) fn kind_of(text: &str) -> Option<Kind>
    ensures { result ≡ kind_of text.now }
{
    if text == "full" {
        Some(Kind::Full)
    } else if text == "incr" {
        Some(Kind::Incr)
    } else {
        None
    }
}

/// The session whose name a text is.
#[tactic(auto, unfolding(crate::specs::Members::session_of))]
pub(crate) fn session_of(text: &str) -> Option<SessionName>
    ensures { result ≡ session_of text.now }
{
    let (epoch, sequence) = match text.split_once('-') {
        Some((epoch, sequence)) => (epoch, sequence),
        None => (text, ""),
    };
    let epoch = read_number(epoch.as_bytes(), u64::MAX)?;
    let sequence = read_number(sequence.as_bytes(), u64::MAX)?;
    Some(SessionName { epoch, sequence })
}

/// The session that a value names, or none of null.
pub(crate) fn maybe_session_in(value: &Value) -> Option<Option<SessionName>>
    ensures { result ≡ maybe_session_in (view value.now) }
{
    match value {
        Value::Null => Some(None),
        Value::String(text) => Some(Some(session_of(text.as_str())?)),
        _ => None,
    }
}
