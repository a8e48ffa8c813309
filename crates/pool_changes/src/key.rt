//! Names as keys of a map.

ghost use Rattle.std.specs.Prelude.{◌≡◌, length, refl};
ghost use Rattle.std.specs.Ordering.{eq_by_cmp, as_partial_cmp, nat_cmp};
ghost use Rattle.std.specs.Cmp.{partial_equiv_from_equiv, eq_by_cmp_equiv, partial_order_from_total};
ghost use Rattle.std.specs.Cmp.Lexicographic.{slice_cmp};
ghost use Rattle.pool_index.specs.Items.{id_cmp};
ghost use Rattle.pool_index.specs.ItemLaws.{id_total};
ghost use Rattle.pool_changes.specs.Numbers.{AreBytes};

use disk_trait::PoolId;
use std::cmp::Ordering;
use std::marker::Model;

/// A name that is compared by its digest as a number, which is quicker than byte by byte.
#[derive(Drop)]
pub(crate) struct Key {
    pub(crate) id: PoolId,
}

impl Model for Key {
    ghost use Rattle.disk_trait.specs.declared.ids.PoolId.{PoolId};

    ghost Value = { PoolId };

    ghost view = { λ key. key.id };
}

/// Each digest that there is has 16 bytes.
fn is_digest(digest: [u8; 16])
    ensures long { length digest ≡ 16 }
    ensures bytes { AreBytes digest }
{
    let _bytes = digest.as_slice();
}

/// Which of two numbers comes first. By branches, since a search of a map then tests each key once: `u128::cmp` makes an
/// answer without them, which is tested again.
fn compare_numbers(a: u128, b: u128) -> Ordering
    ensures { result ≡ nat_cmp a b }
{
    if a > b {
        return Ordering::Greater;
    }
    if a < b {
        return Ordering::Less;
    }
    Ordering::Equal
}

/// Which of two digests comes first.
fn compare_digests(a: [u8; 16], b: [u8; 16]) -> Ordering
    ensures { result ≡ slice_cmp nat_cmp a b }
{
    is_digest(a);
    is_digest(b);
    compare_numbers(u128::from_be_bytes(a), u128::from_be_bytes(b))
}

impl Key {
    /// The name.
    pub(crate) fn name(&self) -> PoolId
        ensures { result ≡ self.now }
    {
        self.id
    }
}

impl PartialEq for Key {
    ghost eq = { eq_by_cmp id_cmp };

    ghost laws = { partial_equiv_from_equiv (eq_by_cmp_equiv id_total) };

    fn eq(&self, other: &Key) -> bool {
        self.cmp(other).is_eq()
    }
}

impl Eq for Key {
    ghost laws = { eq_by_cmp_equiv id_total };
}

impl PartialOrd for Key {
    ghost partial_cmp = { as_partial_cmp id_cmp };

    ghost laws = { partial_order_from_total id_total };

    fn partial_cmp(&self, other: &Key) -> Option<Ordering> {
        Some(self.cmp(other))
    }
}

impl Ord for Key {
    ghost cmp = { id_cmp };

    ghost total = { id_total };

    ghost matches_partial_cmp = { λ x y. refl };

    ghost matches_eq = { λ x y. refl };

    fn cmp(&self, other: &Key) -> Ordering {
        match compare_digests(self.id.digest, other.id.digest) {
            Ordering::Less => Ordering::Less,
            Ordering::Greater => Ordering::Greater,
            Ordering::Equal => self.id.extension.cmp(&other.id.extension),
        }
    }
}
