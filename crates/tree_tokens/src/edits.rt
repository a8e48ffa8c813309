ghost use Rattle.std.specs.Prelude.{◌≡◌, ◌<◌, [], ◌∷◌, ◌++◌, length, slice_get, Some, Ok, Err, IfOk, IfErr, IfSome};
ghost use Rattle.receipts.specs.declared.session.Token.{Token as TokenValue};
ghost use Rattle.office_model.specs.Office.{Dump as DumpValue};
ghost use Rattle.office_model.specs.Repeats.{keeps, kept_at};
ghost use Rattle.tree_tokens.specs.Turns.{place_for};

use office_model::{BrokenRule, SessionName, Token};
use std::alloc::{AllocError, Global};
use tree_parts::{Dump, dump_index};

/// The most tokens that a dump keeps.
const MAX_TOKENS: usize = 1048576;

/// Whether a dump keeps a token.
fn keeps(dump: &Dump, token: Token) -> bool
    ensures { result ≡ keeps token dump.now }
{
    dump.kept().iter().any(|kept| kept.is_same(token))
}

/// The place of the dump that is to keep the token of a put or a removal, `None` if it keeps it already; or the rule that is broken.
pub fn place_for(
    dumps: &[Dump],
    session: SessionName,
    token: Token,
) -> Result<Option<usize>, BrokenRule>
    ensures ok { IfOk result (λ place. place_for session token dumps.now ≡ Ok place) }
    ensures err { IfErr result (λ rule. place_for session token dumps.now ≡ Err rule) }
    ensures within { IfOk result (λ place. IfSome place (λ index. index < length dumps.now)) }
{
    let Some(index) = dump_index(dumps, session) else {
        return Err(BrokenRule::NoSession);
    };
    let dump = &dumps[index];
    if keeps(dump, token) {
        return Ok(None);
    }
    if dump.kept().len() >= MAX_TOKENS {
        return Err(BrokenRule::TokensFull);
    }
    Ok(Some(index))
}

/// Tokens with one more behind them, or want of memory.
pub fn kept_with(alloc: Global, kept: &[Token], token: Token) -> Result<Vec<Token>, AllocError>
    ensures { IfOk result (λ more. more.items ≡ kept.now ++ token ∷ []) }
{
    let mut more = Vec::from_slice(alloc, kept)?;
    more.push(token)?;
    Ok(more)
}

/// The dump at this place, if there is one, keeps these tokens in the place of its own.
pub fn keep_at(dumps: &mut Vec<Dump>, index: usize, kept: Vec<Token>)
    ensures { (token : TokenValue) → ((dump : DumpValue) → slice_get dumps.old.items index ≡ Some dump → kept.items ≡ dump.kept ++ token ∷ [])
        → dumps.new.items ≡ kept_at index token dumps.old.items }
{
    if index >= dumps.len() {
        return;
    }
    dumps[index].set_kept(kept);
}
