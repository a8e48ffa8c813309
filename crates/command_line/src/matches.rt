//! What clap found in the words.
ghost use Rattle.std.specs.Prelude.{◌≡◌, ◌≢◌, ◌^◌, true, [], IfOk, IfErr, map, option_map};
ghost use Rattle.std.specs.String.{string_bytes};
ghost use Rattle.clap.specs.Simple.{app_of, is_simple, subcommand_of, subcommand_rows_of};
ghost use Rattle.clap.specs.Faults.{fault_of, is_simple_and_free};
ghost use Rattle.clap.specs.Walk.{first_of};
ghost use Rattle.command_line.specs.Commands.{program_app};
ghost use Rattle.command_line.specs.Pushes.{push_app};
ghost use Rattle.command_line.specs.Line.{rows_in, flag_of, number_of, number_in, needed_number_in};

use crate::commands::{program, push_program};
use crate::line::LineFault;
use clap::error::ErrorKind;
use clap::{ArgMatches, Command};
use std::alloc::Global;

/// The matches of the words, if a simple command takes them.
pub(crate) fn matches_by<'a>(
    command: Command<'a>,
    words: &'a [String],
) -> Result<ArgMatches<'a>, LineFault>
    requires simple { is_simple (app_of command) ≡ true }
    requires free { is_simple_and_free (app_of command) ≡ true }
    ensures ok { IfOk result (λ found. (fault_of (app_of command.entry) (map string_bytes words.now) ≡ [])
        × (subcommand_of (app_of command.entry) (map string_bytes words.now) ≡ subcommand_rows_of found)) }
    ensures none { IfErr result (λ fault. fault ≡ LineFault.NoParse
        → fault_of (app_of command.entry) (map string_bytes words.now) ≢ []) }
{
    match command.try_get_matches_from(words) {
        Ok(found) => Ok(found),
        Err(e) => {
            if e.kind() == ErrorKind::OutOfMemory {
                Err(LineFault::Memory)
            } else {
                Err(LineFault::NoParse)
            }
        }
    }
}

/// The matches of the words, where the command takes them.
pub(crate) fn matches_of<'a>(
    alloc: Global,
    words: &'a [String],
) -> Result<ArgMatches<'a>, LineFault>
    ensures ok { IfOk result (λ found. (fault_of program_app (map string_bytes words.now) ≡ [])
        × (subcommand_of program_app (map string_bytes words.now) ≡ subcommand_rows_of found)) }
    ensures none { IfErr result (λ fault. fault ≡ LineFault.NoParse
        → fault_of program_app (map string_bytes words.now) ≢ []) }
{
    let Ok(command) = program(alloc) else {
        return Err(LineFault::Memory);
    };
    matches_by(command, words)
}

/// The matches of the words of a push, if its command takes them.
pub(crate) fn push_matches_of<'a>(
    alloc: Global,
    words: &'a [String],
) -> Result<ArgMatches<'a>, LineFault>
    ensures ok { IfOk result (λ found. (fault_of push_app (map string_bytes words.now) ≡ [])
        × (subcommand_of push_app (map string_bytes words.now) ≡ subcommand_rows_of found)) }
    ensures none { IfErr result (λ fault. fault ≡ LineFault.NoParse
        → fault_of push_app (map string_bytes words.now) ≢ []) }
{
    let Ok(command) = push_program(alloc) else {
        return Err(LineFault::Memory);
    };
    matches_by(command, words)
}

/// The subcommand that was met: its name and its matches.
pub(crate) fn subcommand_in<'a, 'b>(
    found: &'b ArgMatches<'a>,
) -> Option<(&'a str, &'b ArgMatches<'a>)>
    ensures { option_map (λ p. (p.0.now, rows_in p.1.now)) result ≡ subcommand_rows_of found.now }
{
    found.subcommand()
}

/// The text of an option.
pub(crate) fn text_in<'a>(found: &ArgMatches<'a>, id: &str) -> Option<&'a str>
    ensures { option_map (λ text. text.now) result ≡ first_of id.now (rows_in found.now) }
{
    found.get_str(id)
}

/// The number below 2^32 that a text writes.
fn number_of(text: &str) -> Option<u32>
    ensures { result ≡ number_of (2 ^ 32) text.now }
{
    match text.parse::<u32>() {
        Ok(number) => Some(number),
        Err(_) => None,
    }
}

/// The number below 2^64 that a text writes.
fn long_number_of(text: &str) -> Option<u64>
    ensures { result ≡ number_of (2 ^ 64) text.now }
{
    match text.parse::<u64>() {
        Ok(number) => Some(number),
        Err(_) => None,
    }
}

/// The number of an option, and `Some(None)` where the option was left out.
pub(crate) fn number_in(found: &ArgMatches<'_>, id: &str) -> Option<Option<u32>>
    ensures { result ≡ number_in id.now (rows_in found.now) }
{
    match text_in(found, id) {
        Some(text) => match number_of(text) {
            Some(number) => Some(Some(number)),
            None => None,
        },
        None => Some(None),
    }
}

/// The number of an option that has to be there.
pub(crate) fn needed_number_in(found: &ArgMatches<'_>, id: &str) -> Option<u32>
    ensures { result ≡ needed_number_in (2 ^ 32) id.now (rows_in found.now) }
{
    match text_in(found, id) {
        Some(text) => number_of(text),
        None => None,
    }
}

/// The number below 2^64 of a word that has to be there.
pub(crate) fn needed_long_number_in(found: &ArgMatches<'_>, id: &str) -> Option<u64>
    ensures { result ≡ needed_number_in (2 ^ 64) id.now (rows_in found.now) }
{
    match text_in(found, id) {
        Some(text) => long_number_of(text),
        None => None,
    }
}

/// Whether a flag is set: clap then keeps the text `true` for it.
pub(crate) fn flag_in(found: &ArgMatches<'_>, id: &str) -> bool
    ensures { result ≡ flag_of id.now (rows_in found.now) }
{
    match text_in(found, id) {
        Some(text) => text == "true",
        None => false,
    }
}
