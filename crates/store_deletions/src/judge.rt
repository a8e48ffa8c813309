//! Which rules a deletion breaks, and which backups the keeping rules name, by what is in memory.

ghost use Rattle.std.specs.Prelude.{◌≡◌, ◌<◌, ◌++◌, ◌∷◌, [], length, IfOk, IfErr, OnOk, Some, None, slice_get};
ghost use Rattle.backup_index.specs.Index.{Index};
ghost use Rattle.office_deletion.specs.ExpiryLaws.{flagged_numbers};
ghost use Rattle.store_deletions.specs.Shortens.{broken_rule, named_numbers};

use backup_index::HostIndex;
use backup_rules::Line;
use disk_trait::Disk;
use keep_rules::named;
use office_model::BrokenRule;
use pool_name::Namer;
use std::alloc::{AllocError, Global};
use store_parts::StoreParts;
use stream_traits::Moment;

/// Refuses the deletion of a backup that a host doesn't have, or that is kept.
pub(crate) fn deletable<D: Disk, N: Namer>(
    parts: &StoreParts<D, N>,
    host: usize,
    number: u32,
) -> Result<(), BrokenRule>
    requires { host < length parts.now.catalog.hosts }
    ensures fine { IfOk result (λ done. (index : Index) → slice_get parts.now.catalog.hosts host ≡ Some index
        → None ≡ broken_rule index.lines number) }
    ensures broken { IfErr result (λ rule. (index : Index) → slice_get parts.now.catalog.hosts host ≡ Some index
        → Some rule ≡ broken_rule index.lines number) }
{
    let line = parts.line(host, number)?;
    let index = &parts.catalog.hosts()[host];
    match index.lines().lines().get(line) {
        Some(line) if line.keep => Err(BrokenRule::Kept),
        Some(_) => Ok(()),
        None => Err(BrokenRule::NoBackup),
    }
}

/// Puts the number of a line behind others, if it is flagged.
fn push_flagged(numbers: &mut Vec<u32>, line: Line, flag: bool) -> Result<(), AllocError>
    ensures { OnOk result (numbers.new.items ≡ numbers.old.items ++ flagged_numbers (flag ∷ []) (line ∷ [])) }
{
    if flag {
        numbers.push(line.number)?;
    }
    Ok(())
}

/// The numbers of the lines that are flagged, or want of memory.
fn flagged(alloc: Global, lines: &[Line], flags: &[bool]) -> Result<Vec<u32>, AllocError>
    requires { length flags.now ≡ length lines.now }
    ensures { IfOk result (λ numbers. numbers.items ≡ flagged_numbers flags.now lines.now) }
{
    let mut numbers = Vec::new(alloc);
    for index in 0..lines.len() {
        push_flagged(&mut numbers, lines[index], flags[index])?;
    }
    Ok(numbers)
}

/// The numbers of the backups of a host that its rules name at a moment, or want of memory.
pub(crate) fn named_numbers(
    alloc: Global,
    index: &HostIndex,
    now: Moment,
) -> Result<Vec<u32>, AllocError>
    ensures { IfOk result (λ numbers. numbers.items ≡ named_numbers index.now.rules now index.now.lines) }
{
    let lines = index.lines().lines();
    let mut flags = vec![in alloc; false; lines.len()]?;
    named(lines, index.rules(), now.seconds(), &mut flags);
    flagged(alloc, lines, &flags)
}
