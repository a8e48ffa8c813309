ghost use Rattle.std.specs.Prelude.{◌≡◌, ◌+◌, ◌<◌, ◌^◌, ℕ, List, true, false, not, cond, ◌||◌, None, length, is_some, IfOk, OnOk, OnErr};
ghost use Rattle.std.specs.List.{filter, list_any};
ghost use Rattle.std.specs.Option.{option_copied};
ghost use Rattle.std.specs.Ordering.{eq_by_cmp};
ghost use Rattle.attr_records.specs.Paths.{path_cmp, is_within};
ghost use Rattle.ordered_lists.specs.Order.{IsInOrder};
ghost use Rattle.attr_records.specs.Trees.{node_at};
ghost use Rattle.merge_view.specs.Runs.{within_rows};
ghost use Rattle.dump_session.specs.Removed.{is_gone, IsApart};
ghost use Rattle.dump_session.specs.Edits.{outside, left_at};
ghost use Rattle.dump_session.specs.Counts.{total_rows, paths_of};

use attr_records::{PathName, is_within};
use attr_tables::{Record, Row, find};
use merge_view::within;
use std::alloc::{AllocError, Global};
use std::collections::BTreeMap;

/// Whether one of the removed paths takes away a path, or a directory that the path lies in. The last one at
/// or before the path tells it, since none lies within another.
pub fn is_gone(removed: &BTreeMap<PathName, ()>, path: &PathName, asked: &[u8]) -> bool
    requires apart { IsApart removed.now.entries }
    requires above { is_within asked.now path.now ≡ true }
    ensures { result ≡ is_gone removed.now.entries asked.now }
{
    match removed.range(..=path).next_back() {
        None => false,
        Some((last, _)) => is_within(last.as_slice(), asked),
    }
}

/// What is left of the base at a path.
pub fn left_at<'a>(
    base: &'a [Row],
    removed: &BTreeMap<PathName, ()>,
    path: &PathName,
) -> Option<&'a Record>
    requires base_order { IsInOrder path_cmp base.now }
    requires apart { IsApart removed.now.entries }
    ensures { option_copied result ≡ left_at base.now removed.now.entries path.now }
{
    if is_gone(removed, path, path.as_slice()) {
        return None;
    }
    find(base, path.as_slice())
}

/// The paths of a map that lie within a directory, or want of memory.
pub fn paths_within<V>(
    alloc: Global,
    map: &BTreeMap<PathName, V>,
    directory: &PathName,
) -> Result<Vec<PathName>, AllocError>
    ensures { IfOk result (λ found. found.items ≡ paths_of (within_rows directory.now map.now.entries)) }
{
    let mut found = Vec::new(alloc);
    for (path, _) in map.range(directory..) {
        if !is_within(directory.as_slice(), path.as_slice()) {
            return Ok(found);
        }
        found.push(path.copy(alloc)?)?;
    }
    Ok(found)
}

/// Takes paths out of a map.
pub fn forget<V: Drop>(map: &mut BTreeMap<PathName, V>, paths: &[PathName])
    requires { IsInOrder path_cmp map.old.entries }
    ensures in_order { IsInOrder path_cmp map.new.entries }
    ensures each { (asked : List ℕ) → node_at map.new.entries asked
        ≡ cond (list_any (λ path. eq_by_cmp path_cmp path asked) paths.now) None (node_at map.old.entries asked) }
{
    for path in paths {
        let _ = map.remove(path);
    }
}

/// How many rows directories have together.
pub fn total_rows(base: &[Row], directories: &[PathName]) -> usize
    requires base_order { IsInOrder path_cmp base.now }
    requires fits { total_rows base.now directories.now < 2 ^ 64 }
    ensures { result ≡ total_rows base.now directories.now }
{
    let mut total = 0;
    for directory in directories {
        total += within(base, directory.as_slice()).len();
    }
    total
}

/// At how many paths nothing is left of the base.
pub fn count_fresh(base: &[Row], removed: &BTreeMap<PathName, ()>, paths: &[PathName]) -> usize
    requires base_order { IsInOrder path_cmp base.now }
    requires apart { IsApart removed.now.entries }
    ensures { result ≡ length (filter (λ path. not (is_some (left_at base.now removed.now.entries path))) paths.now) }
{
    let mut count = 0;
    for path in paths {
        if left_at(base, removed, path).is_none() {
            count += 1;
        }
    }
    count
}

/// One more removed path, in the place of those within it. Gives how many rows of the base it takes away.
pub fn take_away(
    alloc: Global,
    removed: &mut BTreeMap<PathName, ()>,
    base: &[Row],
    path: &PathName,
) -> Result<usize, AllocError>
    requires base_order { IsInOrder path_cmp base.now }
    requires in_order { IsInOrder path_cmp removed.old.entries }
    requires apart { IsApart removed.old.entries }
    ensures gone { OnOk result ((asked : List ℕ) → is_gone removed.new.entries asked ≡ (is_within path.now asked || is_gone removed.old.entries asked)) }
    ensures apart { OnOk result (IsApart removed.new.entries) }
    ensures count { IfOk result (λ count. count ≡ length (within_rows path.now (outside base.now removed.old.entries))) }
    ensures in_order { OnOk result (IsInOrder path_cmp removed.new.entries) }
    ensures err { OnErr result (removed.new.entries ≡ removed.old.entries) }
{
    if is_gone(removed, path, path.as_slice()) {
        return Ok(0);
    }
    let inner = paths_within(alloc, removed, path)?;
    let all = within(base, path.as_slice()).len();
    removed.insert(path.copy(alloc)?, ())?;
    let taken = total_rows(base, inner.as_slice());
    forget(removed, inner.as_slice());
    Ok(all - taken)
}
