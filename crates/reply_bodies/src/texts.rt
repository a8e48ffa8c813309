//! Names, paths and digits as texts.

ghost use Rattle.std.specs.Prelude.{◌≡◌, ◌≤◌, true};
ghost use Rattle.std.specs.Str.{is_utf8};
ghost use Rattle.reply_bodies.specs.Replies.{octal, octal_digit, kind_text};

use attr_records::{HostName, LinkTarget, PathName};
use backup_rules::Kind;

/// Bytes of UTF-8 as a text.
fn text_of(bytes: &[u8]) -> &str
    requires { is_utf8 bytes.now ≡ true }
    ensures { result.now ≡ bytes.now }
{
    match str::from_utf8(bytes) {
        Ok(text) => text,
        Err(_) => unreachable!(),
    }
}

/// The name of a host as a text.
#[tactic(auto, using(crate::proofs::Names::host_is_text))]
pub fn host_text(host: &HostName) -> &str
    ensures { result.now ≡ host.now }
{
    text_of(host.as_slice())
}

/// A path as a text.
#[tactic(auto, using(crate::proofs::Names::path_is_text))]
pub fn path_text(path: &PathName) -> &str
    ensures { result.now ≡ path.now }
{
    text_of(path.as_slice())
}

/// The target of a link as a text.
#[tactic(auto, using(crate::proofs::Names::target_is_text))]
pub fn target_text(target: &LinkTarget) -> &str
    ensures { result.now ≡ target.now }
{
    text_of(target.as_slice())
}

/// The text of a kind.
pub fn kind_text(kind: Kind) -> &'static str
    ensures { result.now ≡ kind_text kind }
{
    match kind {
        Kind::Full => "full",
        Kind::Incr => "incr",
    }
}

/// The last three bits as an octal digit.
fn octal_digit(bits: u16) -> u8
    ensures { result ≡ octal_digit bits }
{
    b'0' + (bits % 8) as u8
}

/// The four octal digits of a mode.
pub fn octal(mode: u16) -> [u8; 4]
    ensures { result ≡ octal mode }
{
    [
        octal_digit(mode / 512),
        octal_digit(mode / 64),
        octal_digit(mode / 8),
        octal_digit(mode),
    ]
}

/// Octal digits as a text.
#[tactic(auto, using(crate::proofs::Names::octal_is_text))]
pub fn digits_text(digits: &[u8; 4], mode: u16) -> &str
    requires { digits.now ≡ octal mode }
    ensures { result.now ≡ octal mode }
{
    text_of(digits)
}
