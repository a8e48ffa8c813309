//! Which backups are deleted, and which of the others need a new table.

ghost use Rattle.std.specs.Prelude.{◌≡◌, IfOk};
ghost use Rattle.backup_delete.specs.Trees.{AreSorted, is_gone, needs_fold};

use backup_rules::Line;
use std::alloc::{AllocError, Global};
use std::marker::Model;

/// The numbers of the backups that are deleted; each is found by halving them.
#[derive(Drop)]
pub(crate) struct Gone<'a> {
    pub(crate) numbers: &'a [u32],
    pub(crate) sorted: Vec<u32>,
}

impl<'a> Model for Gone<'a> {
    ghost use Rattle.std.specs.Prelude.{List, ℕ};
    ghost use Rattle.backup_delete.specs.Trees.{AreSorted};

    ghost Value = { List ℕ };

    ghost view = { λ g. g.numbers.now };

    ghost invariant = { λ g. AreSorted g.numbers.now g.sorted.items };
}

/// The same numbers in their order, or want of memory.
pub(crate) fn sorted_numbers(alloc: Global, numbers: &[u32]) -> Result<Vec<u32>, AllocError>
    ensures { IfOk result (λ sorted. AreSorted numbers.now sorted.items) }
{
    let mut sorted = Vec::from_slice(alloc, numbers)?;
    sorted.sort_unstable();
    Ok(sorted)
}

/// Whether a number is among those that are deleted.
pub(crate) fn is_gone(numbers: &Gone, number: u32) -> bool
    ensures { result ≡ is_gone numbers.now number }
{
    numbers.sorted.as_slice().binary_search(&number).is_ok()
}

/// Whether a backup's table is relative to a backup that is deleted.
pub(crate) fn needs_fold(numbers: &Gone, line: Line, newer: &[Line]) -> bool
    ensures { result ≡ needs_fold numbers.now line newer.now }
{
    match newer {
        [] => false,
        [next, ..] => !line.filled && is_gone(numbers, next.number),
    }
}
