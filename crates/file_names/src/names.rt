//! From a name to its file.

ghost use Rattle.std.specs.Prelude.{◌≡◌, Some, take, drop, IfSome};
ghost use Rattle.disk_trait.specs.declared.ids.FileId.{FileId};
ghost use Rattle.file_names.specs.Words.{number_of};
ghost use Rattle.disk_trait.specs.Names.{real_name};
ghost use Rattle.file_names.specs.Names.{IsFile, lower_of, digest_of, extended, content_of, table_of, pool_file_of, other_file_of, host_file_of, file_of};

use crate::scan::{field, read_number, strip};
use disk_trait::{FileId, PoolId};

/// The largest number of 32 bits.
const MAX_U32: u64 = 4_294_967_295;

/// The number of 32 bits that a text writes.
fn read_u32(text: &[u8]) -> Option<u32>
    ensures { result ≡ number_of 4294967295 text.now }
{
    match read_number(text, MAX_U32) {
        Some(number) => Some(number as u32),
        None => None,
    }
}

/// A digest, if these are its lower-case hexadecimal digits.
fn lower_of(digits: &[u8], digest: [u8; 16]) -> Option<[u8; 16]>
    ensures { result ≡ lower_of digits.now digest }
{
    let mut lower = [0u8; 32];
    match hex::encode_to_slice(&digest, &mut lower) {
        Ok(()) => {}
        Err(_) => unreachable!(),
    }
    if digits == lower.as_slice() {
        Some(digest)
    } else {
        None
    }
}

/// The bytes that 32 lower-case hexadecimal digits write.
#[tactic(auto, unfolding(crate::specs::Names::digest_of))]
fn digest_of(digits: &[u8]) -> Option<[u8; 16]>
    ensures { result ≡ digest_of digits.now }
{
    let mut digest = [0u8; 16];
    match hex::decode_to_slice(digits, &mut digest) {
        Ok(()) => lower_of(digits, digest),
        Err(_) => None,
    }
}

/// The content of a digest and an extension behind `-`.
#[tactic(auto, unfolding(crate::specs::Names::extended))]
fn extended(digest: [u8; 16], text: &[u8]) -> Option<FileId>
    ensures { result ≡ extended digest text.now }
{
    match strip(text, b"-") {
        Some(rest) => match read_number(rest, 65_535) {
            Some(extension) => Some(FileId::Pool(PoolId {
                digest,
                extension: extension as u16,
            })),
            None => None,
        },
        None => None,
    }
}

/// The first of the bytes, and the rest.
fn cut(text: &[u8], at: usize) -> (&[u8], &[u8])
    ensures first { result.0.now ≡ take at text.now }
    ensures rest { result.1.now ≡ drop at text.now }
{
    if text.len() < at {
        return (text, &[]);
    }
    text.split_at(at)
}

/// The content of a digest in 32 digits, `-`, and an extension.
#[tactic(auto, unfolding(crate::specs::Names::content_of))]
fn content_of(text: &[u8]) -> Option<FileId>
    ensures { result ≡ content_of text.now }
{
    let (digits, rest) = cut(text, 32);
    match digest_of(digits) {
        Some(digest) => extended(digest, rest),
        None => None,
    }
}

/// The table of a host and a number.
#[tactic(auto, unfolding(crate::specs::Names::table_of))]
fn table_of(text: &[u8]) -> Option<FileId>
    ensures { result ≡ table_of text.now }
{
    match field(text, b"-") {
        Some((host, number)) => match read_u32(host) {
            Some(host) => match read_u32(number) {
                Some(number) => Some(FileId::Table(host, number)),
                None => None,
            },
            None => None,
        },
        None => None,
    }
}

/// A file of the pool.
#[tactic(auto, unfolding(crate::specs::Names::pool_file_of))]
fn pool_file_of(name: &[u8]) -> Option<FileId>
    ensures { result ≡ pool_file_of name.now }
{
    if name == b"index".as_slice() {
        return Some(FileId::PoolIndex);
    }
    match strip(name, b"index-") {
        Some(text) => match read_number(text, 255) {
            Some(byte) => Some(FileId::PoolBucket(byte as u8)),
            None => None,
        },
        None => content_of(name),
    }
}

/// A file of a host's counts, of its partial dump, or a stage.
#[tactic(auto, unfolding(crate::specs::Names::other_file_of))]
fn other_file_of(name: &[u8]) -> Option<FileId>
    ensures { result ≡ other_file_of name.now }
{
    match strip(name, b"partial-") {
        Some(text) => match read_u32(text) {
            Some(host) => Some(FileId::Partial(host)),
            None => None,
        },
        None => match strip(name, b"stage-") {
            Some(text) => match read_number(text, u64::MAX) {
                Some(number) => Some(FileId::Stage(number)),
                None => None,
            },
            None => None,
        },
    }
}

/// A file of one host, or another of one number.
#[tactic(auto, unfolding(crate::specs::Names::host_file_of))]
fn host_file_of(name: &[u8]) -> Option<FileId>
    ensures { result ≡ host_file_of name.now }
{
    match strip(name, b"host-") {
        Some(text) => match read_u32(text) {
            Some(host) => Some(FileId::Host(host)),
            None => None,
        },
        None => match strip(name, b"counts-") {
            Some(text) => match read_u32(text) {
                Some(host) => Some(FileId::Counts(host)),
                None => None,
            },
            None => other_file_of(name),
        },
    }
}

/// The file of a name by what the name begins with.
#[tactic(auto, unfolding(crate::specs::Names::file_of))]
fn file_of(name: &[u8]) -> Option<FileId>
    ensures { result ≡ file_of name.now }
{
    if name == b"head".as_slice() {
        return Some(FileId::Head);
    }
    if name == b"intent".as_slice() {
        return Some(FileId::Intent);
    }
    if name == b"gate".as_slice() {
        return Some(FileId::Gate);
    }
    match strip(name, b"table-") {
        Some(text) => table_of(text),
        None => match strip(name, b"pool-") {
            Some(text) => pool_file_of(text),
            None => host_file_of(name),
        },
    }
}

/// The file of a real name: of the one that `Display` prints so. None if it is no file's, as with a leading zero, a
/// capital hexadecimal digit or a number that doesn't fit.
pub fn file_named(name: &[u8]) -> Option<FileId>
    ensures named { IfSome result (λ file. real_name file ≡ name.now) }
    ensures no_other { (file : FileId) → IsFile file → real_name file ≡ name.now → result ≡ Some file }
{
    file_of(name)
}
