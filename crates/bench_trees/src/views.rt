//! What is stored of an older tree relative to a newer one, and what it shows.

use crate::corpus::{Numbers, folder_path};
use crate::fault::Fault;
use crate::report::Report;
use attr_records::PathName;
use attr_tables::{Row, Table};
use merge_view::{children, lookup, reverse, whole};

/// How many folders are listed, and how many paths are looked up.
const LOOKS: u32 = 1_000;

fn are_same(rows: &[Row], others: &[Row]) -> bool {
    if rows.len() != others.len() {
        return false;
    }
    for (row, other) in rows.iter().zip(others) {
        if row.path().as_slice() != other.path().as_slice() || !row.node().is_same(other.node()) {
            return false;
        }
    }
    true
}

/// How many rows the listings of folders have together.
fn list_folders(report: &Report, tree: &Table, folders: u32) -> Result<usize, Fault> {
    let mut numbers = Numbers::new();
    let mut rows = 0usize;
    for _ in 0..LOOKS {
        let path = folder_path(report.alloc(), numbers.below(folders))?;
        let listing = children(report.alloc(), tree, Some(&path))?;
        rows = rows.wrapping_add(listing.len());
    }
    Ok(rows)
}

/// Lists folders, and the root.
fn measure_listings(report: &Report, tree: &Table, folders: u32) -> Result<(), Fault> {
    let begin = report.begin()?;
    let rows = list_folders(report, tree, folders)?;
    let micros = report.micros_since(begin)?;
    report.say(micros, format_args!("list: {LOOKS} folders of {rows} rows"))?;
    let begin = report.begin()?;
    let root = children(report.alloc(), tree, None)?;
    let micros = report.micros_since(begin)?;
    report.say(micros, format_args!("list the root: {} rows", root.len()))
}

/// How many of the folders are there, each looked up in the tables.
fn find_folders(report: &Report, tables: &[Table], folders: u32) -> Result<usize, Fault> {
    let mut numbers = Numbers::new();
    let mut found = 0usize;
    for _ in 0..LOOKS {
        let path: PathName = folder_path(report.alloc(), numbers.below(folders))?;
        if lookup(tables, &path).is_some() {
            found = found.wrapping_add(1);
        }
    }
    Ok(found)
}

/// What two tables show, beside the tree that they stand for.
fn measure_whole(
    report: &Report,
    base: &Table,
    tables: &[Table],
    folders: u32,
) -> Result<(), Fault> {
    let begin = report.begin()?;
    let found = find_folders(report, tables, folders)?;
    let micros = report.micros_since(begin)?;
    report.say(micros, format_args!("look up: {found} of {LOOKS} folders"))?;
    let begin = report.begin()?;
    let back = whole(report.alloc(), tables)?;
    let micros = report.micros_since(begin)?;
    let is_same = are_same(base.rows(), back.rows());
    report.say(
        micros,
        format_args!("whole: {} rows, the older tree: {is_same}", back.len()),
    )
}

/// Stores the base relative to the tree that came of it, and shows it again.
pub fn measure(report: &Report, base: &Table, tree: Table, folders: u32) -> Result<(), Fault> {
    measure_listings(report, &tree, folders)?;
    let begin = report.begin()?;
    let entries = reverse(report.alloc(), base, &tree)?;
    let micros = report.micros_since(begin)?;
    report.say(micros, format_args!("reverse: {} entries", entries.len()))?;
    let tables = [tree, entries];
    measure_whole(report, base, tables.as_slice(), folders)
}
