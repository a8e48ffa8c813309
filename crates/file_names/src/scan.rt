//! Parts of a name: what follows a prefix, fields between hyphens, numbers.

ghost use Rattle.std.specs.Prelude.{◌≡◌, ◌<◌, ◌≤◌, ◌^◌, length, take, drop, IfSome};
ghost use Rattle.std.specs.Option.{option_copied, option_map};
ghost use Rattle.file_names.specs.Words.{stripped, place_of, field, number_of, is_plain};

/// What follows the prefix, if the bytes begin with it.
pub fn strip<'a>(bytes: &'a [u8], prefix: &[u8]) -> Option<&'a [u8]>
    ensures { option_copied result ≡ stripped prefix.now bytes.now }
{
    bytes.strip_prefix(prefix)
}

/// Where a byte stands first, or how many bytes there are.
fn place_of(bytes: &[u8], stop: u8) -> usize
    ensures value { result ≡ place_of stop bytes.now }
    ensures within { result ≤ length bytes.now }
{
    for (i, byte) in bytes.iter().enumerate() {
        if *byte == stop {
            return i;
        }
    }
    bytes.len()
}

/// The bytes before the first byte of a prefix, and those behind the prefix, where it stands there.
#[tactic(auto, unfolding(crate::specs::Words::field))]
pub fn field<'a>(bytes: &'a [u8], prefix: &[u8]) -> Option<(&'a [u8], &'a [u8])>
    requires { 0 < length prefix.now }
    ensures { option_map (λ parts. (parts.0.now, parts.1.now)) result ≡ field prefix.now bytes.now }
{
    let place = place_of(bytes, prefix[0]);
    match strip(&bytes[place..], prefix) {
        Some(rest) => Some((&bytes[..place], rest)),
        None => None,
    }
}

/// Whether a text begins as a number's does.
fn is_plain(text: &[u8]) -> bool
    ensures { result ≡ is_plain text.now }
{
    match text {
        [] => false,
        [only] => b'0' <= *only && *only <= b'9',
        [first, ..] => b'0' < *first && *first <= b'9',
    }
}

/// The number of at most `most` that a text writes in decimal.
pub fn read_number(text: &[u8], most: u64) -> Option<u64>
    ensures value { result ≡ number_of most text.now }
    ensures small { IfSome result (λ number. number ≤ most) }
{
    if !is_plain(text) {
        return None;
    }
    let Ok(digits) = str::from_utf8(text) else {
        return None;
    };
    match digits.parse::<u64>() {
        Ok(number) => { if number <= most { Some(number) } else { None } }
        Err(_) => None,
    }
}
