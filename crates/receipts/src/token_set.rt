//! Sets of tokens.

ghost use Rattle.std.specs.Prelude.{◌≡◌, true, false, OnOk, OnErr};
ghost use Rattle.receipts.specs.TokenSets.{no_tokens, has, count, with_token, without_token};

use crate::session::Token;
use std::alloc::{AllocError, Global};
use std::collections::BTreeSet;
use std::marker::Model;

/// Tokens that differ. A look-up costs a logarithm of how many these are.
#[derive(Debug)]
pub struct TokenSet {
    tokens: BTreeSet<Token>,
}

impl Model for TokenSet {
    ghost use Rattle.receipts.specs.TokenSets.{Tokens};

    ghost Value = { Tokens };

    ghost view = { λ set. set.tokens.keys };
}

/// Written out: what is in it is then dropped here, for the prover too, and not in each crate above.
impl Drop for TokenSet {
    fn drop(self) {
        let TokenSet { tokens: _ } = self;
    }
}

impl TokenSet {
    /// No tokens; takes no memory.
    pub fn new(alloc: Global) -> TokenSet
        ensures { result ≡ no_tokens }
    {
        TokenSet {
            tokens: BTreeSet::new(alloc),
        }
    }

    /// Whether a token is in the set.
    pub fn has(&self, token: Token) -> bool
        ensures { result ≡ has self.now token }
    {
        self.tokens.contains(&token)
    }

    /// How many tokens there are.
    pub fn len(&self) -> usize
        ensures { result ≡ count self.now }
    {
        self.tokens.len()
    }

    /// Puts a token into the set, which isn't there yet; or says that memory is wanting, with nothing changed.
    pub fn keep(&mut self, token: Token) -> Result<(), AllocError>
        requires { has self.old token ≡ false }
        ensures ok { OnOk result (self.new ≡ with_token self.old token) }
        ensures err { OnErr result (self.new ≡ self.old) }
    {
        match self.tokens.insert(token) {
            Ok(_) => Ok(()),
            Err(_) => Err(AllocError),
        }
    }

    /// Takes a token out of the set, which is there. Takes no memory.
    pub fn forget(&mut self, token: Token)
        requires { has self.old token ≡ true }
        ensures { self.new ≡ without_token self.old token }
    {
        self.tokens.remove(&token);
    }
}
