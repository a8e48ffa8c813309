//! The files that a park or a drop of a partial writes.

ghost use Rattle.std.specs.Prelude.{◌≡◌, ◌++◌, ◌∷◌, [], Some, OnOk, IfOk, IfErr};
ghost use Rattle.partial_files.specs.Layout.{IsPartial};
ghost use Rattle.partial_files.specs.Partials.{partial_file};
ghost use Rattle.store_partials.specs.Parked.{IsBytesFault};
ghost use Rattle.store_partials.specs.Written.{change_to, host_part};

use crate::rows::has_mark;
use disk_trait::{Bytes, FileId};
use intent_journal::{Change, Changes};
use office_model::{BrokenRule, Refusal};
use partial_files::{PartialFile, write_partial};
use std::alloc::{AllocError, Global};

/// Puts what a file has then behind the changes; none of the bytes is no file.
fn push(changes: &mut Changes, file: FileId, bytes: Option<Bytes>) -> Result<(), AllocError>
    ensures { OnOk result (changes.new ≡ changes.old ++ change_to file bytes ∷ []) }
{
    changes.push(Change { file, bytes })?;
    Ok(())
}

/// These changes, and behind them those of the host's counts and of its partial.
pub(crate) fn assemble(
    pooled: Changes,
    host: u32,
    counts: Bytes,
    partial: Option<Bytes>,
) -> Result<Changes, AllocError>
    ensures { IfOk result (λ changes. changes ≡ pooled ++ host_part host counts partial) }
{
    let mut changes = pooled;
    push(&mut changes, FileId::Counts(host), Some(counts))?;
    push(&mut changes, FileId::Partial(host), partial)?;
    Ok(changes)
}

/// The file of a host's partial. Rows with a deletion mark are refused: a dump of a store at work has none.
pub(crate) fn partial_bytes(
    alloc: Global,
    host: u32,
    partial: &PartialFile,
) -> Result<Bytes, Refusal>
    ensures file { IfOk result (λ bytes. IsPartial partial.now × (bytes ≡ partial_file host partial.now)) }
    ensures kind { IfErr result (IsBytesFault partial.now.rows) }
{
    if has_mark(partial.rows.rows()) {
        return Err(Refusal::Broken(BrokenRule::NoSession));
    }
    match write_partial(alloc, host, partial.kind, partial.start, &partial.rows) {
        Ok(bytes) => Ok(bytes),
        Err(_) => Err(Refusal::Memory),
    }
}
