//! A certificate that is judged: one host, whose tables name 1,000 ids each, and a pool with a file of each id.

use crate::fault::Fault;
use certificate_judge::{Verdict, check_certificate};
use certificates::{put_file, put_head, put_ids, put_item, put_table};
use std::alloc::Global;
use wire_bytes::{put_text8, put_u64, seal};

/// How many ids a table names.
const TABLE: usize = 1000;

/// The id of a number, which rises with it.
fn id_of(number: u32) -> [u8; 18] {
    let mut id = [0x55; 18];
    for (at, byte) in number.to_be_bytes().into_iter().enumerate() {
        if at < 18 {
            id[at] = byte;
        }
    }
    id
}

/// The number of the item that a table names at a place: in an order that looks random, and each as often as any other, but for one.
fn named(table: u32, place: usize, items: u32) -> u32 {
    let at = u64::from(table)
        .saturating_mul(TABLE as u64)
        .saturating_add(place as u64);
    let number = at
        .wrapping_mul(2_654_435_761)
        .checked_rem(u64::from(items))
        .unwrap_or(0);
    u32::try_from(number).unwrap_or(0)
}

/// The ids that a table names, which are counted.
fn table_of(table: u32, counts: &mut [u64], items: u32) -> [[u8; 18]; TABLE] {
    let mut ids = [[0; 18]; TABLE];
    for place in 0..TABLE {
        let number = named(table, place, items);
        ids[place] = id_of(number);
        if let Some(count) = counts.get_mut(number as usize) {
            *count = count.saturating_add(1);
        }
    }
    ids
}

/// Writes a host with so many items.
fn put_host(alloc: Global, out: &mut Vec<u8>, items: u32, tables: u32) -> Result<(), Fault> {
    let mut counts = vec![in alloc; 0u64; items as usize]?;
    put_text8(out, b"host")?;
    put_u64(out, u64::from(tables))?;
    for number in 0..tables {
        let ids = table_of(number, counts.as_mut_slice(), items);
        put_table(out, number, &ids)?;
    }
    put_ids(out, &[])?;
    put_u64(out, u64::from(items))?;
    for number in 0..items {
        let count = counts.get(number as usize).copied().unwrap_or(0);
        put_item(out, &id_of(number), count)?;
    }
    Ok(())
}

/// The digest that an id begins with.
fn digest_of(id: &[u8; 18]) -> [u8; 16] {
    let mut digest = [0; 16];
    digest.copy_from_slice(&id[..16]);
    digest
}

/// A certificate of so many items and tables.
pub fn certificate_of(alloc: Global, items: u32, tables: u32) -> Result<Vec<u8>, Fault> {
    let mut out = Vec::new(alloc);
    put_head(&mut out, 1, 1)?;
    put_host(alloc, &mut out, items, tables)?;
    put_u64(&mut out, u64::from(items))?;
    for number in 0..items {
        let id = id_of(number);
        put_file(&mut out, &id, 1000, &digest_of(&id), false)?;
    }
    Ok(seal(out)?)
}

/// Whether a certificate is sound.
pub fn is_sound(bytes: &[u8]) -> bool {
    matches!(check_certificate(bytes), Verdict::Sound)
}
