//! Finds the record of an id, by halving records whose ids rise.

ghost use Rattle.std.specs.Prelude.{◌≡◌, ◌<◌, length, take, IfSome};
ghost use Rattle.certificates.specs.Layout.{id_cmp};
ghost use Rattle.certificates.specs.PrintLaws.{AreRising};
ghost use Rattle.certificate_judge.specs.Judging.{place, ids_in};

use std::cmp::Ordering;

/// The id that a record begins with.
fn id_of(record: &[u8]) -> &[u8]
    ensures { result.now ≡ take 18 record.now }
{
    match record.get(..18) {
        Some(id) => id,
        None => record,
    }
}

/// How the id of a record compares with another.
fn compare(record: &[u8], id: &[u8]) -> Ordering
    ensures { result ≡ id_cmp (take 18 record.now) id.now }
{
    id_of(record).cmp(id)
}

/// The place of the item of an id, if there is one.
pub(crate) fn find_item(records: &[[u8; 26]], id: &[u8; 18]) -> Option<usize>
    ensures value { AreRising (ids_in records.now) → result ≡ place id.now (ids_in records.now) }
    ensures within { IfSome result (λ index. index < length records.now) }
{
    match records.binary_search_by(|record| compare(record.as_slice(), id.as_slice())) {
        Ok(index) => Some(index),
        Err(_) => None,
    }
}

/// The place of the file of the pool of an id, if there is one.
pub(crate) fn find_file(records: &[[u8; 43]], id: &[u8; 18]) -> Option<usize>
    ensures value { AreRising (ids_in records.now) → result ≡ place id.now (ids_in records.now) }
    ensures within { IfSome result (λ index. index < length records.now) }
{
    match records.binary_search_by(|record| compare(record.as_slice(), id.as_slice())) {
        Ok(index) => Some(index),
        Err(_) => None,
    }
}
