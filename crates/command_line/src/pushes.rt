//! The words of a push, which names no store.
ghost use Rattle.std.specs.Prelude.{◌≡◌, None, Some, true, false, IfErr, IfOk, IfNone, IfSome, map, option_and_then};
ghost use Rattle.std.specs.String.{string_bytes};
ghost use Rattle.clap.specs.Simple.{subcommand_rows_of};
ghost use Rattle.command_line.specs.Line.{rows_in};
ghost use Rattle.command_line.specs.Pushes.{is_push, push_in, push_meaning, push_of};

use crate::hosts::{host_in, kind_in};
use crate::line::LineFault;
use crate::matches::{push_matches_of, subcommand_in, text_in};
use attr_records::HostName;
use backup_rules::Kind;
use clap::ArgMatches;
use std::alloc::Global;

/// A folder of this machine becomes a host's next backup, of this kind, on the server at an address.
#[derive(Debug, PartialEq, Eq, Drop)]
pub struct Push {
    pub to: String,
    pub host: HostName,
    pub kind: Kind,
    /// The folder, as it was written.
    pub folder: String,
}

/// What `push-folder` asks for, by its words.
fn push_in(alloc: Global, found: &ArgMatches<'_>) -> Result<Push, LineFault>
    ensures ok { IfOk result (λ push. push_in (rows_in found.now) ≡ Some (push_meaning push)) }
    ensures none { IfErr result (λ fault. fault ≡ LineFault.NoParse → push_in (rows_in found.now) ≡ None) }
{
    let host = host_in(alloc, found)?;
    let Some(kind) = kind_in(found) else {
        return Err(LineFault::NoParse);
    };
    let Some(to) = text_in(found, "to") else {
        return Err(LineFault::NoParse);
    };
    let Some(folder) = text_in(found, "folder") else {
        return Err(LineFault::NoParse);
    };
    let to = String::from_str(alloc, to)?;
    let folder = String::from_str(alloc, folder)?;
    Ok(Push {
        to,
        host,
        kind,
        folder,
    })
}

/// The push of the subcommand that clap found.
fn push_found(alloc: Global, found: &ArgMatches<'_>) -> Result<Push, LineFault>
    ensures ok { IfOk result (λ push. option_and_then (λ p. push_in p.1) (subcommand_rows_of found.now) ≡ Some (push_meaning push)) }
    ensures none { IfErr result (λ fault. fault ≡ LineFault.NoParse
        → option_and_then (λ p. push_in p.1) (subcommand_rows_of found.now) ≡ None) }
{
    match subcommand_in(found) {
        Some((_name, inner)) => push_in(alloc, inner),
        None => Err(LineFault::NoParse),
    }
}

/// The push of words that begin as those of one do.
fn parse_push(alloc: Global, words: &[String]) -> Result<Push, LineFault>
    ensures ok { IfOk result (λ push. push_of (map string_bytes words.now) ≡ Some (push_meaning push)) }
    ensures none { IfErr result (λ fault. fault ≡ LineFault.NoParse → push_of (map string_bytes words.now) ≡ None) }
{
    let found = push_matches_of(alloc, words)?;
    push_found(alloc, &found)
}

/// Whether words begin as those of a push do.
fn is_push(words: &[String]) -> bool
    ensures { result ≡ is_push (map string_bytes words.now) }
{
    match words.get(1) {
        Some(word) => word.as_str() == "push-folder",
        None => false,
    }
}

/// Reads the words of a push; the first is the program's name. It is `None` if the word behind that is another than `push-folder`; then
/// the words are to be read by `parse`, which takes no words of a push.
pub fn read_push(alloc: Global, words: &[String]) -> Result<Option<Push>, LineFault>
    ensures push { IfOk result (λ found. IfSome found (λ push. push_of (map string_bytes words.now) ≡ Some (push_meaning push))) }
    ensures other { IfOk result (λ found. IfNone found (is_push (map string_bytes words.now) ≡ false)) }
    ensures faulty { IfErr result (λ fault. is_push (map string_bytes words.now) ≡ true) }
    ensures none { IfErr result (λ fault. fault ≡ LineFault.NoParse → push_of (map string_bytes words.now) ≡ None) }
{
    if is_push(words) {
        Ok(Some(parse_push(alloc, words)?))
    } else {
        Ok(None)
    }
}
