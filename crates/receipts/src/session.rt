//! Names of sessions, and tokens.

ghost use Rattle.std.specs.Prelude.{◌≡◌, Some};
ghost use Rattle.receipts.specs.Session.{session_text, is_same_session, is_same_token};

use std::fmt;

/// The name of an open dump or restore: the epoch of the opening that it belongs to, and its number among the
/// sessions of that epoch.
#[derive(Clone, Copy, Debug, PartialEq, Eq)]
pub struct SessionName {
    pub epoch: u64,
    pub sequence: u64,
}

/// What a caller gives a request by which a second one with it is known as the first, tried again.
#[derive(Clone, Copy, Debug, PartialEq, Eq, PartialOrd, Ord)]
pub struct Token {
    pub bytes: [u8; 16],
}

/// The name as users write it: both numbers in decimal, joined by a dash.
impl fmt::Display for SessionName {
    ghost output = { λ name. Some (session_text name) };

    fn fmt<W: fmt::Write>(&self, f: &mut fmt::Formatter<W>) -> fmt::Result {
        let epoch = self.epoch;
        let sequence = self.sequence;
        write!(f, "{epoch}-{sequence}")
    }
}

impl SessionName {
    /// Whether both name one session.
    pub fn is_same(self, other: SessionName) -> bool
        ensures { result ≡ is_same_session self other }
    {
        self.epoch == other.epoch && self.sequence == other.sequence
    }
}

impl Token {
    /// Whether both are one token.
    pub fn is_same(self, other: Token) -> bool
        ensures { result ≡ is_same_token self other }
    {
        self.bytes == other.bytes
    }
}
