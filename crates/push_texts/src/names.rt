//! Names and paths as texts.

ghost use Rattle.std.specs.Prelude.{◌≡◌, true, nat_eq};
ghost use Rattle.std.specs.List.{starts_with};
ghost use Rattle.std.specs.Str.{is_utf8};
ghost use Rattle.http_query.specs.Query.{replacement, holds_replacement};

use attr_records::{HostName, PathName};

/// Bytes of UTF-8 as a text.
fn text_of(bytes: &[u8]) -> &str
    requires { is_utf8 bytes.now ≡ true }
    ensures { result.now ≡ bytes.now }
{
    match str::from_utf8(bytes) {
        Ok(text) => text,
        Err(_) => unreachable!(),
    }
}

/// The name of a host as a text.
#[tactic(auto, using(crate::proofs::TextLemmas::host_is_utf8))]
pub(crate) fn host_text(host: &HostName) -> &str
    ensures { result.now ≡ host.now }
{
    text_of(host.as_slice())
}

/// A path as a text.
#[tactic(auto, using(crate::proofs::TextLemmas::path_is_utf8))]
pub(crate) fn path_text(path: &PathName) -> &str
    ensures { result.now ≡ path.now }
{
    text_of(path.as_slice())
}

/// U+FFFD, which stands for bytes that are no UTF-8.
const REPLACEMENT: &[u8] = b"\xEF\xBF\xBD";

/// Whether a text begins with U+FFFD.
fn begins_with_replacement(text: &[u8]) -> bool
    ensures { result ≡ starts_with nat_eq text.now replacement }
{
    text.starts_with(REPLACEMENT)
}

/// Whether a text holds U+FFFD, which no query may say.
pub(crate) fn holds_replacement(text: &[u8]) -> bool
    ensures { result ≡ holds_replacement text.now }
{
    for i in 0..text.len() {
        if begins_with_replacement(&text[i..]) {
            return true;
        }
    }
    false
}
