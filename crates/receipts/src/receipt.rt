//! Receipts of a host's commits.

ghost use Rattle.std.specs.Prelude.{◌≡◌, ◌↔◌, ◌≤◌, ◌<◌, [], ◌∷◌, ◌++◌, false, length, IsTrue, IfOk, OnOk, OnErr};
ghost use Rattle.std.specs.List.{position_from};
ghost use Rattle.receipts.specs.Session.{is_same_session, is_same_token};
ghost use Rattle.receipts.specs.Receipts.{receipt_with, receipt_of, has_token, kept_with, AreReceipts};

use crate::session::{SessionName, Token};
use std::alloc::{AllocError, Global};
use std::marker::Model;

/// The most receipts that a host keeps.
pub const MAX_RECEIPTS: usize = 256;

/// Of a commit of a dump that was opened with a token.
#[derive(Clone, Copy, Debug, PartialEq, Eq)]
pub struct Receipt {
    /// The token of the dump's opening.
    pub token: Token,
    /// The dump's name.
    pub name: SessionName,
    /// The number of its backup.
    pub number: u32,
}

/// At most 256 receipts, no two of which have one token, the oldest first.
#[derive(Debug)]
pub struct ReceiptList {
    receipts: Vec<Receipt>,
}

impl Model for ReceiptList {
    ghost use Rattle.std.specs.Prelude.{List};
    ghost use Rattle.receipts.specs.declared.receipt.Receipt.{Receipt};
    ghost use Rattle.receipts.specs.Receipts.{AreReceipts};

    ghost Value = { List Receipt };

    ghost view = { λ list. list.receipts.items };

    ghost invariant = { λ list. AreReceipts list.receipts.items };
}

/// Written out: what is in it is then dropped here, for the prover too, and not in each crate above.
impl Drop for ReceiptList {
    fn drop(self) {
        let ReceiptList { receipts: _ } = self;
    }
}

impl ReceiptList {
    /// No receipts; takes no memory.
    pub fn new(alloc: Global) -> ReceiptList
        ensures { result ≡ [] }
    {
        ReceiptList {
            receipts: Vec::new(alloc),
        }
    }

    /// The receipts, the oldest first.
    pub fn receipts(&self) -> &[Receipt]
        ensures receipts { result.now ≡ self.now }
        ensures are { AreReceipts self.now }
    {
        self.receipts.as_slice()
    }

    pub fn len(&self) -> usize
        ensures value { result ≡ length self.now }
        ensures few { result ≤ 256 }
    {
        self.receipts.len()
    }

    pub fn is_empty(&self) -> bool
        ensures { IsTrue result ↔ (self.now ≡ []) }
    {
        self.receipts.is_empty()
    }

    /// Where the receipt is that has a token.
    fn place_with(&self, token: Token) -> Option<usize>
        ensures { result ≡ position_from (λ receipt. is_same_token receipt.token token) 0 self.now }
    {
        self.receipts
            .iter()
            .position(|receipt| receipt.token.is_same(token))
    }

    /// Where the receipt of the commit of the dump of this name is.
    fn place_of(&self, name: SessionName) -> Option<usize>
        ensures { result ≡ position_from (λ receipt. is_same_session receipt.name name) 0 self.now }
    {
        self.receipts
            .iter()
            .position(|receipt| receipt.name.is_same(name))
    }

    /// The receipt that has a token, `None` if none has.
    pub fn with_token(&self, token: Token) -> Option<Receipt>
        ensures { result ≡ receipt_with self.now token }
    {
        match self.place_with(token) {
            Some(place) => self.receipts.get(place).copied(),
            None => None,
        }
    }

    /// The receipt of the commit of the dump of this name, `None` if there is none.
    pub fn of_dump(&self, name: SessionName) -> Option<Receipt>
        ensures { result ≡ receipt_of self.now name }
    {
        match self.place_of(name) {
            Some(place) => self.receipts.get(place).copied(),
            None => None,
        }
    }

    /// Whether a receipt has a token.
    pub fn has_token(&self, token: Token) -> bool
        ensures { result ≡ has_token self.now token }
    {
        self.receipts
            .iter()
            .any(|receipt| receipt.token.is_same(token))
    }

    /// Puts a receipt behind the others, which leave room for it and don't have its token; refused for want of memory.
    pub fn add(&mut self, receipt: Receipt) -> Result<(), AllocError>
        requires room { length self.old < 256 }
        requires fresh { has_token self.old receipt.token ≡ false }
        ensures ok { OnOk result (self.new ≡ self.old ++ receipt ∷ []) }
        ensures err { OnErr result (self.new ≡ self.old) }
    {
        self.receipts.push(receipt)?;
        Ok(())
    }

    /// Keeps a receipt: behind the others, of which the oldest goes if there are 256; one whose token a receipt has changes
    /// nothing. Refused for want of memory.
    pub fn keep(&mut self, receipt: Receipt) -> Result<(), AllocError>
        ensures ok { OnOk result (self.new ≡ kept_with self.old receipt) }
        ensures err { OnErr result (self.new ≡ self.old) }
    {
        if self.has_token(receipt.token) {
            return Ok(());
        }
        if self.len() == MAX_RECEIPTS {
            self.receipts.remove(0);
            return match self.receipts.push(receipt) {
                Ok(()) => Ok(()),
                Err(_) => unreachable!(),
            };
        }
        self.add(receipt)
    }

    /// An equal list, or want of memory.
    pub fn copy(&self, alloc: Global) -> Result<ReceiptList, AllocError>
        ensures { IfOk result (λ copy. copy ≡ self.now) }
    {
        let receipts = Vec::from_slice(alloc, self.receipts.as_slice())?;
        Ok(ReceiptList { receipts })
    }
}
