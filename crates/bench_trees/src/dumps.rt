//! Edits of an open dump.

use crate::corpus::{FILES, Numbers, dir_record, file_path, file_record, folder_path};
use crate::fault::Fault;
use crate::report::Report;
use crate::sizes::Sizes;
use attr_records::PathName;
use attr_tables::Table;
use dump_session::{PutFault, RemoveFault, Session};
use std::alloc::Global;
use std::sync::Arc;

/// Puts a folder and its files.
fn put_folder(alloc: Global, dump: &mut Session, folder: u32) -> Result<(), Fault> {
    dump.put(folder_path(alloc, folder)?, dir_record())?;
    for file in 0..FILES {
        let path = file_path(alloc, folder, file)?;
        dump.put(
            path,
            file_record(folder.wrapping_mul(FILES).wrapping_add(file)),
        )?;
    }
    Ok(())
}

fn put_folders(alloc: Global, dump: &mut Session, folders: u32) -> Result<(), Fault> {
    for folder in 0..folders {
        put_folder(alloc, dump, folder)?;
    }
    Ok(())
}

/// The tree of a dump, measured.
fn tree_of(report: &Report, dump: &Session) -> Result<Table, Fault> {
    let begin = report.begin()?;
    let tree = dump.tree(report.alloc())?;
    let micros = report.micros_since(begin)?;
    report.say(micros, format_args!("tree: {} rows", tree.len()))?;
    Ok(tree)
}

/// The tree of this many folders, put in order into an empty dump.
pub fn fill(report: &Report, folders: u32) -> Result<Table, Fault> {
    let mut dump = Session::begin_full(report.alloc())?;
    let begin = report.begin()?;
    put_folders(report.alloc(), &mut dump, folders)?;
    let micros = report.micros_since(begin)?;
    report.say(
        micros,
        format_args!("fill: {} puts into an empty dump", dump.len()),
    )?;
    tree_of(report, &dump)
}

/// Puts a file at a path that a number gives: two of three are files of the base, and others may be new.
/// Gives whether it was put.
fn put_somewhere(
    alloc: Global,
    dump: &mut Session,
    numbers: &mut Numbers,
    sizes: Sizes,
    count: u32,
) -> Result<bool, Fault> {
    let folder = numbers.below(sizes.folders);
    let file = numbers.below(FILES + FILES / 2);
    let path = file_path(alloc, folder, file)?;
    match dump.put(path, file_record(count.wrapping_add(1 << 31))) {
        Ok(()) => Ok(true),
        Err(PutFault::Memory) => Err(Fault::Memory),
        Err(PutFault::Broken(_)) => Ok(false),
    }
}

/// Makes all puts, and gives how many were made.
fn put_all(
    alloc: Global,
    dump: &mut Session,
    numbers: &mut Numbers,
    sizes: Sizes,
) -> Result<usize, Fault> {
    let mut done = 0usize;
    for count in 0..sizes.puts {
        if put_somewhere(alloc, dump, numbers, sizes, count)? {
            done = done.wrapping_add(1);
        }
    }
    Ok(done)
}

fn measure_puts(
    report: &Report,
    dump: &mut Session,
    numbers: &mut Numbers,
    sizes: Sizes,
) -> Result<(), Fault> {
    let begin = report.begin()?;
    let done = put_all(report.alloc(), dump, numbers, sizes)?;
    let micros = report.micros_since(begin)?;
    report.say(
        micros,
        format_args!("puts: {done} of {}, then {} rows", sizes.puts, dump.len()),
    )
}

/// Removes a path. Gives whether something was there.
fn remove(alloc: Global, dump: &mut Session, path: &PathName) -> Result<bool, Fault> {
    match dump.remove(alloc, path) {
        Ok(()) => Ok(true),
        Err(RemoveFault::Memory) => Err(Fault::Memory),
        Err(RemoveFault::NoPath) => Ok(false),
    }
}

/// Removes this many files at places that look random, and gives at how many something was.
fn remove_files(
    alloc: Global,
    dump: &mut Session,
    numbers: &mut Numbers,
    sizes: Sizes,
) -> Result<usize, Fault> {
    let mut done = 0usize;
    for _ in 0..sizes.puts / 10 {
        let folder = numbers.below(sizes.folders);
        let path = file_path(alloc, folder, numbers.below(FILES))?;
        if remove(alloc, dump, &path)? {
            done = done.wrapping_add(1);
        }
    }
    Ok(done)
}

/// Removes one of ten folders at places that look random, and gives at how many something was.
fn remove_folders(
    alloc: Global,
    dump: &mut Session,
    numbers: &mut Numbers,
    sizes: Sizes,
) -> Result<usize, Fault> {
    let mut done = 0usize;
    for _ in 0..sizes.folders / 10 {
        let path = folder_path(alloc, numbers.below(sizes.folders))?;
        if remove(alloc, dump, &path)? {
            done = done.wrapping_add(1);
        }
    }
    Ok(done)
}

fn measure_removes(
    report: &Report,
    dump: &mut Session,
    numbers: &mut Numbers,
    sizes: Sizes,
) -> Result<(), Fault> {
    let begin = report.begin()?;
    let files = remove_files(report.alloc(), dump, numbers, sizes)?;
    let micros = report.micros_since(begin)?;
    report.say(
        micros,
        format_args!("remove files: {files}, then {} rows", dump.len()),
    )?;
    let begin = report.begin()?;
    let folders = remove_folders(report.alloc(), dump, numbers, sizes)?;
    let micros = report.micros_since(begin)?;
    report.say(
        micros,
        format_args!("remove folders: {folders}, then {} rows", dump.len()),
    )
}

/// The tree of a dump that began with the base, after puts and removals.
pub fn edit(report: &Report, base: &Arc<Table>, sizes: Sizes) -> Result<Table, Fault> {
    let begin = report.begin()?;
    let mut dump = Session::begin_incr(report.alloc(), Arc::try_clone(base)?);
    let micros = report.micros_since(begin)?;
    report.say(micros, format_args!("begin_incr: {} rows", dump.len()))?;
    let mut numbers = Numbers::new();
    measure_puts(report, &mut dump, &mut numbers, sizes)?;
    measure_removes(report, &mut dump, &mut numbers, sizes)?;
    tree_of(report, &dump)
}
