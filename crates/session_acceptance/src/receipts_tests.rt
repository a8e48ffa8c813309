use receipts::{Receipt, ReceiptList, SessionName, Token, TokenSet};
use std::alloc::Global;
use std::test::Fail;

// Whether tokens are one by their bytes alone: they differ in the last.
const ONE: Token = Token { bytes: [7; 16] };

const OTHER: Token = Token {
    bytes: [7, 7, 7, 7, 7, 7, 7, 7, 7, 7, 7, 7, 7, 7, 7, 8],
};

const NAME: SessionName = SessionName {
    epoch: 2,
    sequence: 9,
};

fn expect(holds: bool, text: &'static str) -> Result<(), Fail> {
    if holds { Ok(()) } else { Err(Fail::new(text)) }
}

fn receipt_of(token: Token, sequence: u64, number: u32) -> Receipt {
    Receipt {
        token,
        name: SessionName { epoch: 2, sequence },
        number,
    }
}

// A set of both tokens.
fn both(alloc: Global) -> Result<TokenSet, Fail> {
    let mut set = TokenSet::new(alloc);
    for token in [OTHER, ONE] {
        if set.has(token) {
            return Err(Fail::new("a token is there"));
        }
        set.keep(token)?;
    }
    Ok(set)
}

#[test]
fn tokens_are_kept_and_forgotten(rt: HostRuntime) -> Result<(), Fail> {
    let mut set = both(rt.alloc())?;
    expect(set.has(ONE) && set.has(OTHER), "a token isn't there")?;
    expect(set.len() == 2, "another number of tokens")?;
    if set.has(ONE) {
        set.forget(ONE);
    }
    expect(!set.has(ONE) && set.has(OTHER), "another token is there")?;
    expect(set.len() == 1, "another number of tokens")
}

#[test]
fn receipts_are_found_by_token_and_by_name(rt: HostRuntime) -> Result<(), Fail> {
    let alloc = rt.alloc();
    let mut receipts = ReceiptList::new(alloc);
    expect(receipts.is_empty(), "a receipt is there")?;
    receipts.keep(receipt_of(ONE, 8, 0))?;
    receipts.keep(receipt_of(OTHER, 9, 1))?;
    receipts.keep(receipt_of(ONE, 10, 2))?;
    expect(receipts.len() == 2, "a token has two receipts")?;
    let copy = receipts.copy(alloc)?;
    expect(
        copy.with_token(ONE) == Some(receipt_of(ONE, 8, 0)),
        "another receipt of a token",
    )?;
    expect(
        copy.of_dump(NAME) == Some(receipt_of(OTHER, 9, 1)),
        "another receipt of a name",
    )?;
    expect(
        copy.has_token(OTHER) && !copy.has_token(Token { bytes: [0; 16] }),
        "another token",
    )
}

#[test]
fn names_are_told_as_two_numbers(rt: HostRuntime) -> Result<(), Fail> {
    let text = format!(in rt.alloc(); "{NAME}")?;
    expect(text.as_str() == "2-9", "another text")?;
    expect(NAME.is_same(NAME) && ONE.is_same(ONE), "not the same")?;
    expect(!ONE.is_same(OTHER), "the same")
}
