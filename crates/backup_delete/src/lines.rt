//! The lines of the backups that are left.

ghost use Rattle.std.specs.Prelude.{◌≡◌, ◌++◌, [], ◌∷◌, IfOk, OnOk};
ghost use Rattle.backup_delete.specs.Folds.{kept_lines, last_filled, left_lines};

use crate::numbers::{Gone, is_gone};
use backup_index::LineList;
use backup_rules::Line;
use std::alloc::{AllocError, Global};

/// Appends a line, if its number isn't among those that are deleted.
fn push_kept(kept: &mut LineList, line: Line, numbers: &Gone) -> Result<(), AllocError>
    ensures { OnOk result (kept.new ≡ kept.old ++ kept_lines numbers.now (line ∷ [])) }
{
    if is_gone(numbers, line.number) {
        Ok(())
    } else {
        kept.push(line)
    }
}

/// The lines of other numbers, or want of memory.
fn kept_lines(alloc: Global, lines: &[Line], numbers: &Gone) -> Result<LineList, AllocError>
    ensures { IfOk result (λ kept. kept ≡ kept_lines numbers.now lines.now) }
{
    let mut kept = LineList::new(alloc);
    for line in lines {
        push_kept(&mut kept, *line, numbers)?;
    }
    Ok(kept)
}

/// Fills the last line, if there is one.
fn fill_last(lines: &mut LineList)
    ensures { lines.new ≡ last_filled lines.old }
{
    if lines.is_empty() {
        return;
    }
    let index = lines.len() - 1;
    let mut line = lines.lines()[index];
    line.filled = true;
    lines.set(index, line);
}

/// The lines of other numbers, of which the last becomes filled, or want of memory.
pub(crate) fn left_lines(
    alloc: Global,
    lines: &[Line],
    numbers: &Gone,
) -> Result<LineList, AllocError>
    ensures { IfOk result (λ left. left ≡ left_lines numbers.now lines.now) }
{
    let mut kept = kept_lines(alloc, lines, numbers)?;
    fill_last(&mut kept);
    Ok(kept)
}
