//! The line of some words.
ghost use Rattle.std.specs.Prelude.{◌≡◌, None, Some, IfErr, IfOk, map, option_and_then, option_map};
ghost use Rattle.std.specs.String.{string_bytes};
ghost use Rattle.clap.specs.Simple.{subcommand_rows_of};
ghost use Rattle.command_line.specs.Line.{demo_in, line_in, line_of, meaning, rows_in, serve_in, task_in, task_of};

use crate::hosts::{dump_folder_in, pull_in, restore_folder_in};
use crate::matches::{
    flag_in, matches_of, needed_long_number_in, number_in, subcommand_in, text_in,
};
use crate::usage::USAGE;
use attr_records::HostName;
use backup_rules::Kind;
use clap::ArgMatches;
use std::alloc::{AllocError, Global};
use std::error::Error;
use std::fmt;

/// What the program is to do.
#[derive(Debug, PartialEq, Eq, Drop)]
pub enum Work {
    /// Serves one connection over standard input and output.
    Pipe,
    /// Serves the links that come to an address, several beside each other. Each worker leaves after so many links, if a number is given.
    Serve {
        listen: String,
        connections: Option<u32>,
    },
    /// Does what is done each night. With `scheduled`, only where the schedule says so.
    Night {
        scheduled: bool,
    },
    /// Writes the tables of all hosts that are of the first layout anew in the second.
    Migrate,
    /// Makes a backup of this kind out of a folder, the host's next one.
    DumpFolder {
        host: HostName,
        kind: Kind,
        folder: String,
    },
    /// Makes a folder out of the host's backup of this number.
    RestoreFolder {
        host: HostName,
        number: u32,
        folder: String,
    },
    /// Does a job of sixty days that is drawn from a number, in a store without hosts.
    Demo {
        number: u64,
    },
    /// Brings the host's backups from the server at an address.
    Pull {
        host: HostName,
        from: String,
    },
}

/// The words of a command line, understood.
#[derive(Debug, Drop)]
pub struct CommandLine {
    /// The folder of the store, as it was written.
    pub store: String,
    /// The file of the settings, as it was written.
    pub settings: Option<String>,
    pub work: Work,
}

/// Why words are no command line.
#[derive(Clone, Copy, Debug, PartialEq, Eq)]
pub enum LineFault {
    NoParse,
    Memory,
}

impl fmt::Display for LineFault {
    fn fmt<W: fmt::Write>(&self, f: &mut fmt::Formatter<W>) -> fmt::Result {
        match self {
            LineFault::NoParse => write!(f, "{USAGE}"),
            LineFault::Memory => write!(f, "no memory"),
        }
    }
}

impl Error for LineFault {}

impl From<AllocError> for LineFault {
    ghost use Rattle.command_line.specs.declared.line.LineFault.TheVariants.{Memory};

    ghost from_gives = { λ _ fault. fault ≡ Memory };

    fn from(_error: AllocError) -> LineFault {
        LineFault::Memory
    }
}

/// What `serve` asks for, by its options.
fn serve_in(alloc: Global, found: &ArgMatches<'_>) -> Result<Work, LineFault>
    ensures ok { IfOk result (λ work. serve_in (rows_in found.now) ≡ Some (task_of work)) }
    ensures none { IfErr result (λ fault. fault ≡ LineFault.NoParse → serve_in (rows_in found.now) ≡ None) }
{
    let Some(listen) = text_in(found, "listen") else {
        return Err(LineFault::NoParse);
    };
    let Some(connections) = number_in(found, "connections") else {
        return Err(LineFault::NoParse);
    };
    let listen = String::from_str(alloc, listen)?;
    Ok(Work::Serve {
        listen,
        connections,
    })
}

/// What `demo` asks for, by its word.
fn demo_in(found: &ArgMatches<'_>) -> Result<Work, LineFault>
    ensures ok { IfOk result (λ work. demo_in (rows_in found.now) ≡ Some (task_of work)) }
    ensures none { IfErr result (λ fault. fault ≡ LineFault.NoParse → demo_in (rows_in found.now) ≡ None) }
{
    match needed_long_number_in(found, "number") {
        Some(number) => Ok(Work::Demo { number }),
        None => Err(LineFault::NoParse),
    }
}

/// What a subcommand asks for, by its name and its options.
fn work_in(alloc: Global, name: &str, found: &ArgMatches<'_>) -> Result<Work, LineFault>
    ensures ok { IfOk result (λ work. task_in name.now (rows_in found.now) ≡ Some (task_of work)) }
    ensures none { IfErr result (λ fault. fault ≡ LineFault.NoParse → task_in name.now (rows_in found.now) ≡ None) }
{
    if name == "pipe" {
        Ok(Work::Pipe)
    } else if name == "serve" {
        serve_in(alloc, found)
    } else if name == "night" {
        let scheduled = flag_in(found, "scheduled");
        Ok(Work::Night { scheduled })
    } else if name == "migrate" {
        Ok(Work::Migrate)
    } else if name == "dump-folder" {
        dump_folder_in(alloc, found)
    } else if name == "restore-folder" {
        restore_folder_in(alloc, found)
    } else if name == "demo" {
        demo_in(found)
    } else if name == "pull" {
        pull_in(alloc, found)
    } else {
        Err(LineFault::NoParse)
    }
}

/// A text of one's own.
fn owned(alloc: Global, text: Option<&str>) -> Result<Option<String>, AllocError>
    ensures { IfOk result (λ copy. option_map string_bytes copy ≡ option_map (λ t. t.now) text.entry) }
{
    match text {
        Some(text) => Ok(Some(String::from_str(alloc, text)?)),
        None => Ok(None),
    }
}

/// The line of a subcommand.
fn line_in(alloc: Global, name: &str, found: &ArgMatches<'_>) -> Result<CommandLine, LineFault>
    ensures ok { IfOk result (λ line. line_in (name.now, rows_in found.now) ≡ Some (meaning line)) }
    ensures none { IfErr result (λ fault. fault ≡ LineFault.NoParse → line_in (name.now, rows_in found.now) ≡ None) }
{
    let work = work_in(alloc, name, found)?;
    let Some(store) = text_in(found, "store") else {
        return Err(LineFault::NoParse);
    };
    let settings = owned(alloc, text_in(found, "settings"))?;
    let store = String::from_str(alloc, store)?;
    Ok(CommandLine {
        store,
        settings,
        work,
    })
}

/// The line of the subcommand that clap found.
fn line_found(alloc: Global, found: &ArgMatches<'_>) -> Result<CommandLine, LineFault>
    ensures ok { IfOk result (λ line. option_and_then line_in (subcommand_rows_of found.now) ≡ Some (meaning line)) }
    ensures none { IfErr result (λ fault. fault ≡ LineFault.NoParse
        → option_and_then line_in (subcommand_rows_of found.now) ≡ None) }
{
    match subcommand_in(found) {
        Some((name, inner)) => line_in(alloc, name, inner),
        None => Err(LineFault::NoParse),
    }
}

/// Reads the words of a command line; the first is the program's name.
pub fn parse(alloc: Global, words: &[String]) -> Result<CommandLine, LineFault>
    ensures ok { IfOk result (λ line. line_of (map string_bytes words.now) ≡ Some (meaning line)) }
    ensures none { IfErr result (λ fault. fault ≡ LineFault.NoParse → line_of (map string_bytes words.now) ≡ None) }
{
    let found = matches_of(alloc, words)?;
    line_found(alloc, &found)
}
