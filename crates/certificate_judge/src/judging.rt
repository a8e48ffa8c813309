//! The judge.

ghost use Rattle.std.specs.Prelude.{◌≡◌, ◌+◌, ◌*◌, ◌≤◌, ◌<◌, ◌^◌, ℕ, List, ◌++◌, length, map};
ghost use Rattle.std.specs.List.{AllByRecursion};
ghost use Rattle.wire_bytes.specs.Reading.{left};
ghost use Rattle.certificates.specs.Certificate.{Item, HostPart};
ghost use Rattle.certificates.specs.Layout.{host_grammar, item_bytes, IsItem};
ghost use Rattle.certificates.specs.Telling.{AreIn, IsHost};
ghost use Rattle.certificate_judge.specs.Faults.{occurrences, is_miscounted, wrong, host_faults, hosts_faults};
ghost use Rattle.certificate_judge.specs.Verdicts.{IsVerdict};
ghost use Rattle.certificates.specs.PrintLaws.{AreRising};
ghost use Rattle.certificate_judge.specs.Judging.{IsTally, ids_in};

use crate::counting::count_host;
use crate::noting::{Known, note_files, note_ids, note_items, note_tables};
use crate::tally::Tally;
use crate::verdict::Verdict;
use certificates::{HostBytes, Run, read_certificate, read_host};
use wire_bytes::Reader;

/// How many items are counted by one pass over the lists of their host.
const BLOCK: usize = 8192;

/// Notes the items of a host that are miscounted, a block of them at a time.
fn note_counts(host: &HostBytes, at: usize, counters: &mut [u64; BLOCK], tally: Tally) -> Tally
    ensures { (offsets : List ℕ) (part : HostPart) → IsHost part host.now → host_grammar.Fits part
        → at + 26 * length part.items < 2 ^ 64 → length (host_grammar.print part) < 2 ^ 64
        → IsTally offsets tally → IsTally (offsets ++ wrong (is_miscounted (occurrences part)) 26 at part.items) result }
{
    let mut now = tally;
    let mut here = at;
    let mut left = host.items;
    while !left.is_empty() {
        let (block, more) = left.split_at(left.len().min(BLOCK));
        count_host(host, block, counters);
        now = note_items(block, here, counters, now);
        here = here.saturating_add(26 * block.len());
        left = more;
    }
    now
}

/// Notes what is wrong with a host that stands at an offset.
fn note_host(
    host: &HostBytes,
    at: usize,
    pool: &[[u8; 43]],
    counters: &mut [u64; BLOCK],
    tally: Tally,
) -> Tally
    ensures { (offsets : List ℕ) (part : HostPart) → IsHost part host.now → host_grammar.Fits part → AreRising (ids_in pool.now)
        → at + length (host_grammar.print part) + 24 < 2 ^ 64
        → IsTally offsets tally → IsTally (offsets ++ host_faults (ids_in pool.now) at part) result }
{
    let known = Known {
        items: host.items,
        pool,
    };
    let tables_at = at.saturating_add(host.name.len()).saturating_add(9);
    let first = note_tables(&host.tables, tables_at, &known, tally);
    let partial_at = tables_at
        .saturating_add(host.tables.bytes.len())
        .saturating_add(4);
    let second = note_ids(host.partial, partial_at, &known, first);
    let counts_at = partial_at
        .saturating_add(18 * host.partial.len())
        .saturating_add(26);
    note_counts(host, counts_at, counters, second)
}

/// Reads a host, and notes what is wrong with it.
fn note_next_host(
    reader: &mut Reader,
    pool: &[[u8; 43]],
    counters: &mut [u64; BLOCK],
    tally: Tally,
) -> Tally
    ensures { (offsets : List ℕ) (part : HostPart) (rest : List ℕ) → host_grammar.Fits part → AreRising (ids_in pool.now)
        → left reader.old ≡ host_grammar.print part ++ rest → 16 + reader.old.offset + length (host_grammar.print part) + 24 < 2 ^ 64
        → IsTally offsets tally
        → (left reader.new ≡ rest) × (reader.new.offset ≡ reader.old.offset + length (host_grammar.print part))
        × IsTally (offsets ++ host_faults (ids_in pool.now) (16 + reader.old.offset) part) result }
{
    let at = reader.offset().saturating_add(16);
    match read_host(reader) {
        Ok(host) => note_host(&host, at, pool, counters, tally),
        Err(_) => tally,
    }
}

/// Notes what is wrong with hosts.
fn note_hosts(hosts: &Run, pool: &[[u8; 43]], counters: &mut [u64; BLOCK], tally: Tally) -> Tally
    ensures { (offsets : List ℕ) (parts : List HostPart) → AreIn host_grammar.print parts hosts.now → AllByRecursion host_grammar.Fits parts
        → AreRising (ids_in pool.now) → 16 + length hosts.now.bytes.now + 24 < 2 ^ 64
        → IsTally offsets tally → IsTally (offsets ++ hosts_faults (ids_in pool.now) 16 parts) result }
{
    let mut reader = Reader::new(hosts.bytes);
    let mut now = tally;
    for _i in 0..hosts.count {
        now = note_next_host(&mut reader, pool, counters, now);
    }
    now
}

/// What is to be said of bytes as a certificate. It takes no memory.
pub fn check_certificate(bytes: &[u8]) -> Verdict
    ensures { IsVerdict bytes.now result }
{
    let parts = match read_certificate(bytes) {
        Ok(parts) => parts,
        Err(offset) => return Verdict::Foreign { offset },
    };
    let mut counters = [0u64; BLOCK];
    let of_hosts = note_hosts(&parts.hosts, parts.pool, &mut counters, Tally::new());
    let files_at = parts.hosts.bytes.len().saturating_add(24);
    let tally = note_files(parts.pool, files_at, of_hosts);
    match tally.first {
        None => Verdict::Sound,
        Some(offset) => Verdict::Wrong {
            offset,
            number: tally.number,
        },
    }
}
