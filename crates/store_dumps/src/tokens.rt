//! Requests that repeat an earlier one, as their tokens tell: before any file is looked at.

ghost use Rattle.std.specs.Prelude.{◌≡◌};
ghost use Rattle.store_dumps.specs.Tokens.{by_dump, repeated, judged_token};

use backup_index::HostIndex;
use office_model::Answer;
use open_sessions::Sessions;
use receipts::{Token, TokenSet};

/// The most tokens that a dump keeps.
const MAX_TOKENS: usize = 1_048_576;

/// The answer of an opening of the host's open dump, if there is one that was opened with this token.
fn opened_with<S: Drop>(sessions: &Sessions<S>, host: usize, token: Token) -> Option<Answer>
    ensures { result ≡ by_dump sessions.now.dumps.items host token }
{
    let at = sessions.dump_of_host(host)?;
    let dump = sessions.dump(at);
    let own = dump.token?;
    if own.is_same(token) {
        Some(Answer::Dump(dump.name))
    } else {
        None
    }
}

/// The answer that an opening of a host with this token repeats, if there is one: that of the commit of which the host keeps the
/// receipt, or that of the opening of its open dump.
pub(crate) fn repeated<S: Drop>(
    sessions: &Sessions<S>,
    host: usize,
    index: &HostIndex,
    token: Option<Token>,
) -> Option<Answer>
    ensures { result ≡ repeated index.now.receipts sessions.now.dumps.items host token }
{
    let token = token?;
    match index.receipts().with_token(token) {
        Some(receipt) => Some(Answer::Already(receipt.number)),
        None => opened_with(sessions, host, token),
    }
}

/// What the tokens of an open dump say of an edit.
#[derive(Clone, Copy, Debug, PartialEq, Eq)]
pub enum EditToken {
    /// It is carried out, and its token is kept, if it has one.
    Fresh,
    /// An earlier edit had its token: it is Done.
    Kept,
    /// The dump keeps as many tokens as it may, and its is another one.
    Full,
}

/// What the tokens that an open dump keeps say of an edit with this one, or with none.
pub fn judge_edit(kept: &TokenSet, token: Option<Token>) -> EditToken
    ensures { result ≡ judged_token kept.now token }
{
    let token = match token {
        Some(token) => token,
        None => return EditToken::Fresh,
    };
    if kept.has(token) {
        return EditToken::Kept;
    }
    if kept.len() >= MAX_TOKENS {
        return EditToken::Full;
    }
    EditToken::Fresh
}
