ghost use Rattle.std.specs.Prelude.{◌≡◌, ◌≤◌, ◌<◌, ◌^◌, IfSome};
ghost use Rattle.std.specs.Option.{option_copied};
ghost use Rattle.http_query.specs.Numbers.{stripped, number_of, is_plain};

/// What follows a prefix, if the bytes begin with it.
pub fn strip<'a>(bytes: &'a [u8], prefix: &[u8]) -> Option<&'a [u8]>
    ensures { option_copied result ≡ stripped prefix.now bytes.now }
{
    bytes.strip_prefix(prefix)
}

/// Whether a text begins as the decimal text of a number does: it is one digit, or the first one isn't 0.
fn is_plain(text: &[u8]) -> bool
    ensures { result ≡ is_plain text.now }
{
    match text {
        [] => false,
        [only] => b'0' <= *only && *only <= b'9',
        [first, ..] => b'0' < *first && *first <= b'9',
    }
}

/// The number of at most `most` that a text writes in decimal, without sign and without leading zeros.
pub fn read_number(text: &[u8], most: u64) -> Option<u64>
    ensures value { result ≡ number_of most text.now }
    ensures small { IfSome result (λ number. number ≤ most) }
{
    if !is_plain(text) {
        return None;
    }
    let Ok(digits) = str::from_utf8(text) else {
        return None;
    };
    match digits.parse::<u64>() {
        Ok(number) => { if number <= most { Some(number) } else { None } }
        Err(_) => None,
    }
}
