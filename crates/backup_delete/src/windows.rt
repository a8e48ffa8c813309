//! The part of a host's backups that a deletion touches.

ghost use Rattle.std.specs.Prelude.{◌≡◌, ◌+◌, ◌-◌, ◌<◌, ◌≤◌, List, ℕ, false, true, length, take, drop, IfOk};
ghost use Rattle.disk_trait.specs.declared.ids.PoolId.{PoolId};
ghost use Rattle.merge_view.specs.Views.{Rows};
ghost use Rattle.ref_counts.specs.Numbers.{number, total, capped};
ghost use Rattle.backup_delete.specs.Trees.{is_first_filled};
ghost use Rattle.backup_delete.specs.Towers.{folds};
ghost use Rattle.backup_delete.specs.Folds.{left_lines, changes, added_tables, taken_tables};
ghost use Rattle.backup_delete.specs.Windows.{part, any_gone, IsWindow, IsNarrow};

use crate::deletion::{Folded, fold};
use crate::lines::left_lines;
use crate::numbers::{Gone, is_gone, sorted_numbers};
use crate::tower::count_folds;
use crate::trees::{first_filled, is_filled};
use attr_tables::Table;
use backup_index::LineList;
use backup_rules::Line;
use std::alloc::{AllocError, Global};

/// The backups of a host from one index on and before another, the oldest first.
#[derive(Clone, Copy, Debug)]
pub struct Window {
    pub first: usize,
    pub end: usize,
}

/// The index of the oldest backup that is deleted, or the number of backups if none is.
fn oldest_gone(lines: &[Line], numbers: &Gone) -> usize
    ensures within { result ≤ length lines.now }
    ensures before { any_gone numbers.now (take result lines.now) ≡ false }
    ensures here { result < length lines.now → any_gone numbers.now (take (result + 1) lines.now) ≡ true }
    ensures on { result < length lines.now → any_gone numbers.now (drop result lines.now) ≡ true }
{
    let mut i = 0;
    'up: while i < lines.len() {
        if is_gone(numbers, lines[i].number) {
            return i;
        }
        i += 1;
    }
    i
}

/// The index behind the newest backup from one on that is deleted, or that index if none of these is.
fn behind_gone(lines: &[Line], numbers: &Gone, from: usize) -> usize
    requires { from ≤ length lines.now }
    ensures after { from ≤ result }
    ensures within { result ≤ length lines.now }
    ensures behind { any_gone numbers.now (drop result lines.now) ≡ false }
    ensures newest { from < result → any_gone numbers.now (drop (result - 1) lines.now) ≡ true }
{
    let mut end = lines.len();
    'down: while end > from {
        if is_gone(numbers, lines[end - 1].number) {
            return end;
        }
        end -= 1;
    }
    end
}

/// The index behind the first filled backup from one on, or the number of backups if none of these is filled.
fn behind_filled(lines: &[Line], from: usize) -> usize
    requires { from ≤ length lines.now }
    ensures after { from ≤ result }
    ensures within { result ≤ length lines.now }
    ensures more { result < length lines.now → from < result }
    ensures filled { result < length lines.now → is_first_filled (drop (result - 1) lines.now) ≡ true }
    ensures unfilled { (i : ℕ) → from ≤ i → i + 1 < result → is_first_filled (drop i lines.now) ≡ false }
{
    let filled = first_filled(lines, from, lines.len());
    if filled < lines.len() {
        filled + 1
    } else {
        filled
    }
}

/// The index of the older neighbour of the oldest backup that is deleted; or of that one, if there is no older one or that is
/// filled, since then its table stays.
fn first_touched(lines: &[Line], oldest: usize) -> usize
    requires { oldest ≤ length lines.now }
    ensures near { oldest ≤ result + 1 }
    ensures before { result ≤ oldest }
    ensures filled { 0 < result → result ≡ oldest → is_first_filled (drop (result - 1) lines.now) ≡ true }
{
    if oldest == 0 {
        return 0;
    }
    if is_filled(lines, oldest - 1) {
        return oldest;
    }
    oldest - 1
}

/// The end of a window that begins at an index, if none from another one on is deleted: that one if none from the first on gets
/// a new table, since then no tree is computed; else the index behind the first filled one from there on.
fn window_end(lines: &[Line], numbers: &Gone, first: usize, behind: usize) -> usize
    requires rises { first ≤ behind }
    requires within { behind ≤ length lines.now }
    ensures after { behind ≤ result }
    ensures within { result ≤ length lines.now }
    ensures more { result < length lines.now → 0 < folds numbers.now (part first result lines.now) → behind < result }
    ensures filled { result < length lines.now → 0 < folds numbers.now (part first result lines.now)
        → is_first_filled (drop (result - 1) lines.now) ≡ true }
    ensures unfilled { (i : ℕ) → behind ≤ i → i + 1 < result → is_first_filled (drop i lines.now) ≡ false }
{
    if count_folds(&lines[first..behind], numbers) == 0 {
        return behind;
    }
    behind_filled(lines, behind)
}

/// The part of a host's backups that their deletion touches, or want of memory: from the older neighbour of the oldest one
/// that is deleted up to the first filled one behind the newest of them, or to the end; or no further than from the oldest to
/// the newest of them, if no other backup gets a new table.
pub fn window_of(alloc: Global, lines: &[Line], numbers: &[u32]) -> Result<Window, AllocError>
    ensures window { IfOk result (λ window. IsWindow numbers.now lines.now window.first window.end) }
    ensures narrow { IfOk result (λ window. IsNarrow numbers.now lines.now window.first window.end) }
{
    let sorted = sorted_numbers(alloc, numbers)?;
    let gone = Gone { numbers, sorted };
    let oldest = oldest_gone(lines, &gone);
    let behind = behind_gone(lines, &gone, oldest);
    let first = first_touched(lines, oldest);
    let end = window_end(lines, &gone, first, behind);
    Ok(Window { first, end })
}

/// What becomes of all the lines, or want of memory.
fn all_left(alloc: Global, lines: &[Line], numbers: &[u32]) -> Result<LineList, AllocError>
    ensures { IfOk result (λ left. left ≡ left_lines numbers.now lines.now) }
{
    let sorted = sorted_numbers(alloc, numbers)?;
    left_lines(alloc, lines, &Gone { numbers, sorted })
}

/// As [`fold`], by the tables of a window alone: its changes and its counts are those of all tables of the backups, if these
/// are the window's part of them.
pub fn fold_within(
    alloc: Global,
    lines: &[Line],
    window: Window,
    tables: &[Table],
    numbers: &[u32],
) -> Result<Folded, AllocError>
    requires window { IsWindow numbers.now lines.now window.first window.end }
    requires same { length tables.now ≡ length (part window.first window.end lines.now) }
    ensures lines { IfOk result (λ folded. folded.lines ≡ left_lines numbers.now lines.now) }
    ensures tables { IfOk result (λ folded. folded.tables.items ≡ changes numbers.now (part window.first window.end lines.now) tables.now) }
    ensures added { IfOk result (λ folded. (id : PoolId) → number folded.added id ≡ capped (total id (added_tables folded.tables.items))) }
    ensures taken { IfOk result (λ folded. (id : PoolId)
        → number folded.taken id ≡ capped (total id (taken_tables numbers.now (part window.first window.end lines.now) tables.now))) }
    ensures all_tables { IfOk result (λ folded. (all : List Rows) → length all ≡ length lines.now → tables.now ≡ part window.first window.end all
        → folded.tables.items ≡ changes numbers.now lines.now all) }
    ensures all_taken { IfOk result (λ folded. (all : List Rows) → length all ≡ length lines.now → tables.now ≡ part window.first window.end all
        → (id : PoolId) → number folded.taken id ≡ capped (total id (taken_tables numbers.now lines.now all))) }
{
    let touched = &lines[window.first..window.end];
    let folded = fold(alloc, touched, tables, numbers)?;
    let left = all_left(alloc, lines, numbers)?;
    Ok(Folded {
        lines: left,
        tables: folded.tables,
        added: folded.added,
        taken: folded.taken,
    })
}
