//! What is said of words that are no line.
ghost use Rattle.std.specs.Prelude.{◌≡◌, ◌++◌, true, [], List, ℕ, IfOk, map};
ghost use Rattle.std.specs.String.{string_bytes};
ghost use Rattle.clap.specs.Faults.{fault_of, is_simple_and_free};
ghost use Rattle.clap.specs.Simple.{app_of};
ghost use Rattle.command_line.specs.Commands.{program_app};
ghost use Rattle.command_line.specs.Line.{usage};
ghost use Rattle.command_line.specs.Pushes.{push_app};

use crate::commands::{program, push_program};
use clap::Command;
use clap::error::ErrorKind;
use std::alloc::{AllocError, Global};

/// How the program is called.
pub const USAGE: &str =
    "usage: backup_server pipe --store DIR [--settings FILE]\n       backup_server serve --listen ADDR [--connections N] --store DIR [--settings FILE]\n       backup_server night [--scheduled] --store DIR [--settings FILE]\n       backup_server migrate --store DIR [--settings FILE]\n       backup_server dump-folder --host H --kind full|incr --store DIR [--settings FILE] FOLDER\n       backup_server restore-folder --host H --number N --store DIR [--settings FILE] FOLDER\n       backup_server demo --store DIR [--settings FILE] NUMBER\n       backup_server pull --host H --from ADDR --store DIR [--settings FILE]\n       backup_server push-folder --to ADDR --host H --kind full|incr FOLDER";

/// clap's own message of what is wrong in words of a simple command, and nothing of words that it takes. What it says of others is in no
/// clause, since the `Display` of clap's error states no text.
fn message_by<'a>(
    alloc: Global,
    command: Command<'a>,
    words: &'a [String],
) -> Result<String, AllocError>
    requires free { is_simple_and_free (app_of command) ≡ true }
    ensures { fault_of (app_of command.entry) (map string_bytes words.now) ≡ [] → IfOk result (λ text. string_bytes text ≡ []) }
{
    match command.try_get_matches_from(words) {
        Ok(_) => Ok(String::new(alloc)),
        Err(error) => {
            if error.kind() == ErrorKind::OutOfMemory {
                return Err(AllocError);
            }
            format!(in alloc; "{error}")
        }
    }
}

/// A text, and the usage below it.
fn with_usage(text: String) -> Result<String, AllocError>
    ensures { IfOk result (λ whole. string_bytes whole ≡ string_bytes text ++ usage) }
{
    let mut whole = text;
    whole.push_str(USAGE)?;
    Ok(whole)
}

/// What standard error is told of words that are no line: clap's own message of what is wrong in them, and then the usage. Of
/// words that clap takes, as those that are a line and those with a bad host or kind, there is no message.
pub fn complaint(alloc: Global, words: &[String]) -> Result<String, AllocError>
    ensures usage { IfOk result (λ text. (message : List ℕ) × (string_bytes text ≡ message ++ usage)) }
    ensures taken { fault_of program_app (map string_bytes words.now) ≡ [] → IfOk result (λ text. string_bytes text ≡ usage) }
{
    let message = message_by(alloc, program(alloc)?, words)?;
    with_usage(message)
}

/// The same of words of a push that ask for none.
pub fn push_complaint(alloc: Global, words: &[String]) -> Result<String, AllocError>
    ensures usage { IfOk result (λ text. (message : List ℕ) × (string_bytes text ≡ message ++ usage)) }
    ensures taken { fault_of push_app (map string_bytes words.now) ≡ [] → IfOk result (λ text. string_bytes text ≡ usage) }
{
    let message = message_by(alloc, push_program(alloc)?, words)?;
    with_usage(message)
}
