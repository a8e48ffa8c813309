//! What the subcommands of one host ask for.
ghost use Rattle.std.specs.Prelude.{◌≡◌, None, Some, IfErr, IfOk};
ghost use Rattle.command_line.specs.Line.{dump_folder_in, host_in, kind_in, kind_of, pull_in, restore_folder_in, rows_in, task_of};

use crate::line::{LineFault, Work};
use crate::matches::{needed_number_in, text_in};
use attr_records::{BadHostName, HostName};
use backup_rules::Kind;
use clap::ArgMatches;
use std::alloc::Global;

/// The host of the option `--host`.
pub(crate) fn host_in(alloc: Global, found: &ArgMatches<'_>) -> Result<HostName, LineFault>
    ensures ok { IfOk result (λ host. host_in (rows_in found.now) ≡ Some host) }
    ensures none { IfErr result (λ fault. fault ≡ LineFault.NoParse → host_in (rows_in found.now) ≡ None) }
{
    let Some(text) = text_in(found, "host") else {
        return Err(LineFault::NoParse);
    };
    match HostName::read(alloc, text.as_bytes()) {
        Ok(host) => Ok(host),
        Err(BadHostName::BadName) => Err(LineFault::NoParse),
        Err(BadHostName::Memory) => Err(LineFault::Memory),
    }
}

/// The kind of a backup that a text names.
fn kind_of(text: &str) -> Option<Kind>
    ensures { result ≡ kind_of text.now }
{
    if text == "full" {
        Some(Kind::Full)
    } else if text == "incr" {
        Some(Kind::Incr)
    } else {
        None
    }
}

/// The kind of the option `--kind`.
pub(crate) fn kind_in(found: &ArgMatches<'_>) -> Option<Kind>
    ensures { result ≡ kind_in (rows_in found.now) }
{
    match text_in(found, "kind") {
        Some(text) => kind_of(text),
        None => None,
    }
}

/// What `dump-folder` asks for, by its words.
pub(crate) fn dump_folder_in(alloc: Global, found: &ArgMatches<'_>) -> Result<Work, LineFault>
    ensures ok { IfOk result (λ work. dump_folder_in (rows_in found.now) ≡ Some (task_of work)) }
    ensures none { IfErr result (λ fault. fault ≡ LineFault.NoParse → dump_folder_in (rows_in found.now) ≡ None) }
{
    let host = host_in(alloc, found)?;
    let Some(kind) = kind_in(found) else {
        return Err(LineFault::NoParse);
    };
    let Some(folder) = text_in(found, "folder") else {
        return Err(LineFault::NoParse);
    };
    let folder = String::from_str(alloc, folder)?;
    Ok(Work::DumpFolder { host, kind, folder })
}

/// What `restore-folder` asks for, by its words.
pub(crate) fn restore_folder_in(alloc: Global, found: &ArgMatches<'_>) -> Result<Work, LineFault>
    ensures ok { IfOk result (λ work. restore_folder_in (rows_in found.now) ≡ Some (task_of work)) }
    ensures none { IfErr result (λ fault. fault ≡ LineFault.NoParse → restore_folder_in (rows_in found.now) ≡ None) }
{
    let host = host_in(alloc, found)?;
    let Some(number) = needed_number_in(found, "number") else {
        return Err(LineFault::NoParse);
    };
    let Some(folder) = text_in(found, "folder") else {
        return Err(LineFault::NoParse);
    };
    let folder = String::from_str(alloc, folder)?;
    Ok(Work::RestoreFolder {
        host,
        number,
        folder,
    })
}

/// What `pull` asks for, by its options.
pub(crate) fn pull_in(alloc: Global, found: &ArgMatches<'_>) -> Result<Work, LineFault>
    ensures ok { IfOk result (λ work. pull_in (rows_in found.now) ≡ Some (task_of work)) }
    ensures none { IfErr result (λ fault. fault ≡ LineFault.NoParse → pull_in (rows_in found.now) ≡ None) }
{
    let host = host_in(alloc, found)?;
    let Some(from) = text_in(found, "from") else {
        return Err(LineFault::NoParse);
    };
    let from = String::from_str(alloc, from)?;
    Ok(Work::Pull { host, from })
}
