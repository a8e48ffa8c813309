//! The targets of requests.

ghost use Rattle.std.specs.Prelude.{◌≡◌, IfOk, string_bytes};
ghost use Rattle.event_texts.specs.Requests.{backups_target, restores_target, restore_target, next_target};

use attr_records::HostName;
use office_model::SessionName;
use std::alloc::{AllocError, Global};
use std::fmt::Write;

/// The name of a host as text.
fn name_text(host: &HostName) -> &str
    ensures { result.now ≡ host.now }
{
    match str::from_utf8(host.as_slice()) {
        Ok(text) => text,
        Err(_) => unreachable!(),
    }
}

/// The backups of a host.
pub fn backups_target(alloc: Global, host: &HostName) -> Result<String, AllocError>
    ensures { IfOk result (λ text. string_bytes text ≡ backups_target host.now) }
{
    let name = name_text(host);
    format!(in alloc; "/hosts/{name}/backups")
}

/// The restores of a backup; with a base, of what leads from there to it.
pub fn restores_target(
    alloc: Global,
    host: &HostName,
    number: u32,
    base: Option<u32>,
) -> Result<String, AllocError>
    ensures { IfOk result (λ text. string_bytes text ≡ restores_target host.now number base) }
{
    let name = name_text(host);
    let mut target = format!(in alloc; "/hosts/{name}/backups/{number}/restores")?;
    if let Some(base) = base {
        write!(target, "?base={base}")?;
    }
    Ok(target)
}

/// An open restore.
pub fn restore_target(alloc: Global, restore: SessionName) -> Result<String, AllocError>
    ensures { IfOk result (λ text. string_bytes text ≡ restore_target restore) }
{
    format!(in alloc; "/restores/{restore}")
}

/// The next bytes of an open restore.
pub fn next_target(alloc: Global, restore: SessionName) -> Result<String, AllocError>
    ensures { IfOk result (λ text. string_bytes text ≡ next_target restore) }
{
    format!(in alloc; "/restores/{restore}/next")
}
