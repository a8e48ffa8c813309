//! Tables and their files.

use crate::corpus::{FILES, dir_record, file_path, file_record, folder_path};
use crate::fault::Fault;
use crate::report::Report;
use attr_tables::{Row, Table, read_table, write_table};
use disk_trait::Bytes;
use md5::{Digest, Md5};
use std::alloc::Global;

/// Appends the rows of a folder.
fn push_folder(alloc: Global, table: &mut Table, folder: u32) -> Result<(), Fault> {
    table.push(Row::new(folder_path(alloc, folder)?, dir_record()))?;
    for file in 0..FILES {
        let path = file_path(alloc, folder, file)?;
        table.push(Row::new(
            path,
            file_record(folder.wrapping_mul(FILES).wrapping_add(file)),
        ))?;
    }
    Ok(())
}

/// The table of this many folders.
pub fn build(alloc: Global, folders: u32) -> Result<Table, Fault> {
    let mut table = Table::new(alloc);
    for folder in 0..folders {
        push_folder(alloc, &mut table, folder)?;
    }
    Ok(table)
}

/// The microseconds that the MD5 of the bytes takes.
fn hash_micros(report: &Report, bytes: &[u8]) -> Result<u64, Fault> {
    let begin = report.begin()?;
    let digest = Md5::digest(bytes);
    let micros = report.micros_since(begin)?;
    let [first, second, ..] = digest;
    report.say(
        micros,
        format_args!("hash: {} bytes, {first:02x}{second:02x}", bytes.len()),
    )?;
    Ok(micros)
}

/// Reads the file of a table, and writes it again.
fn measure_read(report: &Report, file: &Bytes, hash_micros: u64) -> Result<(), Fault> {
    let begin = report.begin()?;
    let read = read_table(report.alloc(), file.as_slice())?;
    let micros = report.micros_since(begin)?;
    let again = write_table(report.alloc(), &read.table)?;
    let is_same = again == *file;
    let rows = read.table.len();
    report.say_beside(
        micros,
        hash_micros,
        format_args!("read: {rows} rows, the same table: {is_same}"),
    )
}

/// Builds a table, writes it and reads it back.
pub fn measure(report: &Report, folders: u32) -> Result<(), Fault> {
    let begin = report.begin()?;
    let table = build(report.alloc(), folders)?;
    let rows = table.len();
    report.say(
        report.micros_since(begin)?,
        format_args!("build: {rows} rows"),
    )?;
    let begin = report.begin()?;
    let file = write_table(report.alloc(), &table)?;
    let micros = report.micros_since(begin)?;
    let bytes = file.len();
    let each = bytes.checked_div(rows).unwrap_or(0);
    let hash_micros = hash_micros(report, file.as_slice())?;
    report.say_beside(
        micros,
        hash_micros,
        format_args!("write: {bytes} bytes, {each} a row"),
    )?;
    measure_read(report, &file, hash_micros)
}
