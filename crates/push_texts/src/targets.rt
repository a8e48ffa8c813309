//! The targets of requests.

ghost use Rattle.std.specs.Prelude.{◌≡◌, ◌++◌, codes, IfOk, string_bytes};
ghost use Rattle.event_texts.specs.Requests.{backups_target};
ghost use Rattle.push_texts.specs.Requests.{entry_path, commit_path, dump_path, opening_target, put_target, removal_target, list_target};

use crate::names::host_text;
use crate::queries::{kind_query, path_query, put_query};
use attr_records::{HostName, Item, PathName};
use backup_rules::Kind;
use office_model::SessionName;
use std::alloc::{AllocError, Global};

/// A path with a query.
fn with_query(alloc: Global, path: &str, form: &str) -> Result<String, AllocError>
    ensures { IfOk result (λ text. string_bytes text ≡ path.now ++ (codes "?" ++ form.now)) }
{
    format!(in alloc; "{path}?{form}")
}

/// The opening of a host's dump of a kind.
pub(crate) fn opening_target(
    alloc: Global,
    host: &HostName,
    kind: Kind,
) -> Result<String, AllocError>
    ensures { IfOk result (λ text. string_bytes text ≡ opening_target host.now kind) }
{
    let name = host_text(host);
    let path = format!(in alloc; "/hosts/{name}/dumps")?;
    with_query(alloc, path.as_str(), kind_query(kind))
}

/// What a dump has at its paths.
fn entry_path(alloc: Global, dump: SessionName) -> Result<String, AllocError>
    ensures { IfOk result (λ text. string_bytes text ≡ entry_path dump) }
{
    format!(in alloc; "/dumps/{dump}/entry")
}

/// The put of an item at a path of a dump.
pub(crate) fn put_target(
    alloc: Global,
    dump: SessionName,
    path: &PathName,
    item: &Item,
) -> Result<String, AllocError>
    ensures { IfOk result (λ text. string_bytes text ≡ put_target dump path.now item.now) }
{
    let target = entry_path(alloc, dump)?;
    let form = put_query(alloc, path, item)?;
    with_query(alloc, target.as_str(), form.as_str())
}

/// The removal of a path from a dump.
pub(crate) fn removal_target(
    alloc: Global,
    dump: SessionName,
    path: &PathName,
) -> Result<String, AllocError>
    ensures { IfOk result (λ text. string_bytes text ≡ removal_target dump path.now) }
{
    let target = entry_path(alloc, dump)?;
    let form = path_query(alloc, path)?;
    with_query(alloc, target.as_str(), form.as_str())
}

/// The commit of a dump.
pub(crate) fn commit_target(alloc: Global, dump: SessionName) -> Result<String, AllocError>
    ensures { IfOk result (λ text. string_bytes text ≡ commit_path dump) }
{
    format!(in alloc; "/dumps/{dump}/commit")
}

/// A dump.
pub(crate) fn dump_target(alloc: Global, dump: SessionName) -> Result<String, AllocError>
    ensures { IfOk result (λ text. string_bytes text ≡ dump_path dump) }
{
    format!(in alloc; "/dumps/{dump}")
}

/// The backups of a host.
pub(crate) fn backups_target(alloc: Global, host: &HostName) -> Result<String, AllocError>
    ensures { IfOk result (λ text. string_bytes text ≡ backups_target host.now) }
{
    let name = host_text(host);
    format!(in alloc; "/hosts/{name}/backups")
}

/// What lies in a directory of a backup; the root, if none is named.
pub(crate) fn list_target(
    alloc: Global,
    host: &HostName,
    number: u32,
    directory: &Option<PathName>,
) -> Result<String, AllocError>
    ensures { IfOk result (λ text. string_bytes text ≡ list_target host.now number directory.now) }
{
    let name = host_text(host);
    let target = format!(in alloc; "/hosts/{name}/backups/{number}/list")?;
    match directory {
        None => Ok(target),
        Some(path) => {
            let form = path_query(alloc, path)?;
            with_query(alloc, target.as_str(), form.as_str())
        }
    }
}
