ghost use Rattle.std.specs.Prelude.{◌≡◌, Ok, Err, IfOk, IfErr};
ghost use Rattle.std.specs.Option.{option_map};
ghost use Rattle.office_model.specs.declared.answer.Answer.TheVariants.{Dump as Opened};
ghost use Rattle.office_model.specs.Repeats.{is_opened_with};
ghost use Rattle.office_model.specs.events.Backups.{open_dump_of};
ghost use Rattle.office_model.specs.events.OpenDump.{by_dump};
ghost use Rattle.tree_tokens.specs.Turns.{repeated_at};

use attr_records::HostName;
use office_model::{Answer, BrokenRule, SessionName, Token};
use tree_parts::{Dump, Host, dump_index_of_host, host_index};

/// The name of the open dump of the host at this place.
pub fn open_dump_of(dumps: &[Dump], host: usize) -> Option<SessionName>
    ensures { result ≡ open_dump_of dumps.now host }
{
    let index = dump_index_of_host(dumps, host)?;
    let dump = dumps.get(index)?;
    Some(dump.name())
}

/// Whether a dump was opened with a token.
fn is_opened_with(dump: &Dump, token: Token) -> bool
    ensures { result ≡ is_opened_with token dump.now }
{
    match dump.token() {
        Some(own) => own.is_same(token),
        None => false,
    }
}

/// The name of the open dump of the host at this place, if it was opened with this token.
fn by_dump(dumps: &[Dump], host: usize, token: Token) -> Option<SessionName>
    ensures { option_map Opened result ≡ by_dump token host dumps.now }
{
    let index = dump_index_of_host(dumps, host)?;
    let dump = dumps.get(index)?;
    if !is_opened_with(dump, token) {
        return None;
    }
    Some(dump.name())
}

/// The answer that an opening of a host with a token repeats, if there is one; or the rule that it breaks.
pub fn repeated_opening(
    hosts: &[Host],
    dumps: &[Dump],
    name: &HostName,
    token: Token,
) -> Result<Option<Answer>, BrokenRule>
    ensures ok { IfOk result (λ answer. repeated_at name.now token hosts.now dumps.now ≡ Ok answer) }
    ensures err { IfErr result (λ rule. repeated_at name.now token hosts.now dumps.now ≡ Err rule) }
{
    let Some(index) = host_index(hosts, name) else {
        return Err(BrokenRule::NoHost);
    };
    if let Some(receipt) = hosts[index].receipts().with_token(token) {
        return Ok(Some(Answer::Already(receipt.number)));
    }
    match by_dump(dumps, index, token) {
        Some(session) => Ok(Some(Answer::Dump(session))),
        None => Ok(None),
    }
}
