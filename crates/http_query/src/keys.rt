ghost use Rattle.std.specs.Prelude.{◌≡◌, map, not, nat_eq};
ghost use Rattle.std.specs.List.{list_any, starts_with};
ghost use Rattle.http_query.specs.Query.{pair_text, replacement, holds_replacement, is_bad_pair, has_key, is_known, has_repeated, is_lacking};
ghost use Rattle.http_query.specs.Keys.{row_of, rows_of};

/// A key that a route takes: its name, and whether it must be there.
#[derive(Clone, Copy, Debug)]
pub struct Key {
    pub name: &'static str,
    pub needed: bool,
}

/// The rules of a query, in the order in which they are judged.
#[derive(Clone, Copy, Debug, PartialEq, Eq)]
pub enum QueryRule {
    /// A key or a value isn't UTF-8.
    Utf8,
    /// A key isn't among those that are taken.
    Unknown,
    /// A key stands twice.
    Repeated,
    /// A needed key is absent.
    Missing,
    /// A value has another form than its key asks for.
    Value,
}

/// U+FFFD, which stands for bytes that are no UTF-8.
const REPLACEMENT: &[u8] = b"\xEF\xBF\xBD";

/// Whether a text begins with U+FFFD.
fn begins_with_replacement(text: &[u8]) -> bool
    ensures { result ≡ starts_with nat_eq text.now replacement }
{
    text.starts_with(REPLACEMENT)
}

/// Whether a text holds U+FFFD.
fn holds_replacement(text: &[u8]) -> bool
    ensures { result ≡ holds_replacement text.now }
{
    for i in 0..text.len() {
        if begins_with_replacement(&text[i..]) {
            return true;
        }
    }
    false
}

/// Whether a key or a value isn't UTF-8.
pub fn has_bad_text(pairs: &[(String, String)]) -> bool
    ensures { result ≡ list_any is_bad_pair (map pair_text pairs.now) }
{
    for (key, value) in pairs {
        if holds_replacement(key.as_bytes()) || holds_replacement(value.as_bytes()) {
            return true;
        }
    }
    false
}

/// Whether a key is one of these.
fn is_known(keys: &[Key], name: &str) -> bool
    ensures { result ≡ is_known (rows_of keys.now) name.now }
{
    for key in keys {
        if key.name == name {
            return true;
        }
    }
    false
}

/// Whether a pair's key is none of these.
pub fn has_unknown(keys: &[Key], pairs: &[(String, String)]) -> bool
    ensures { result ≡ list_any (λ pair. not (is_known (rows_of keys.now) pair.0)) (map pair_text pairs.now) }
{
    for (key, _value) in pairs {
        if !is_known(keys, key.as_str()) {
            return true;
        }
    }
    false
}

/// Whether a pair has this key.
fn has_key(pairs: &[(String, String)], name: &str) -> bool
    ensures { result ≡ has_key name.now (map pair_text pairs.now) }
{
    for (key, _value) in pairs {
        if key.as_str() == name {
            return true;
        }
    }
    false
}

/// Whether two pairs have one key.
pub fn has_repeated(pairs: &[(String, String)]) -> bool
    ensures { result ≡ has_repeated (map pair_text pairs.now) }
{
    for i in 0..pairs.len() {
        if has_key(&pairs[i + 1..], pairs[i].0.as_str()) {
            return true;
        }
    }
    false
}

/// Whether a needed key is absent.
pub fn lacks(keys: &[Key], pairs: &[(String, String)]) -> bool
    ensures { result ≡ list_any (is_lacking (map pair_text pairs.now)) (rows_of keys.now) }
{
    for key in keys {
        if key.needed && !has_key(pairs, key.name) {
            return true;
        }
    }
    false
}
