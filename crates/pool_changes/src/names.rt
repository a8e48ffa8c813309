//! The used names of a pool.

ghost use Rattle.std.specs.Prelude.{◌≡◌, ◌∷◌, None, Some, OnOk, OnErr, IfOk, IfSome, true, ℕ, ◌≤◌, ◌<◌, length, replicate};
ghost use Rattle.pool_changes.specs.Slots.{slots_in, least_of, greatest_of};
ghost use Rattle.pool_changes.specs.Named.{IsName, AreNames, AreSized, NoneDoomed, NoneDoomedBelow};

use crate::key::Key;
use crate::slot::Slot;
use crate::small::SmallSlot;
use disk_trait::PoolId;
use std::alloc::{AllocError, Global};
use std::collections::BTreeMap;
use std::collections::btree_map::Range;

/// The used names of a pool in order, with what is known of each.
#[derive(Drop)]
pub struct Names {
    pub(crate) map: BTreeMap<Key, SmallSlot>,
    ghost named: { AreNames (slots_in map) },
    ghost sized: { AreSized (slots_in map) },
}

/// The least name of the digests that begin with a byte.
pub fn least_of(byte: u8) -> PoolId
    ensures { result ≡ least_of byte }
{
    let mut digest = [0; 16];
    digest[0] = byte;
    PoolId {
        digest,
        extension: 0,
    }
}

/// The greatest name of the digests that begin with a byte.
pub(crate) fn greatest_of(byte: u8) -> PoolId
    ensures { result ≡ greatest_of byte }
{
    let mut digest = [255; 16];
    digest[0] = byte;
    PoolId {
        digest,
        extension: 65535,
    }
}

/// Each name that there is has a digest of 16 bytes and an extension of two.
fn is_name(id: PoolId)
    ensures { IsName id }
{
    let _digest = id.digest;
    let _bytes = id.digest.as_slice();
    let _extension = id.extension;
}

impl Names {
    ghost use Rattle.std.specs.BTreeMap.{IsOrdered};
    ghost use Rattle.std.specs.BTreeMap.Range.{IsRangeOf, entries_between};
    ghost use Rattle.std.specs.declared.ops.Bound.TheVariants.{Included};
    ghost use Rattle.pool_index.specs.Items.{id_cmp};
    ghost use Rattle.pool_changes.specs.Kept.{slots_of, IsSet, IsSame};
    ghost use Rattle.pool_changes.specs.Slots.{id_of, is_given, size_of};
    ghost use Rattle.pool_changes.specs.declared.slot.Slot.TheVariants.{Doomed};

    /// No names; takes no memory.
    pub fn new(alloc: Global) -> Names
        ensures { (id : _) → slots_of result id ≡ None }
    {
        Names {
            map: BTreeMap::new(alloc),
        }
    }

    /// The slot of a name, `None` if it is unused.
    pub fn get(&self, id: PoolId) -> Option<Slot>
        ensures { result ≡ slots_of self.now id }
    {
        self.find(&Key { id })
    }

    /// The slot of a key's name, `None` if it is unused.
    pub(crate) fn find(&self, key: &Key) -> Option<Slot>
        ensures { result ≡ slots_of self.now key.now }
    {
        match self.map.get(key) {
            Some(small) => Some(small.to_slot()),
            None => None,
        }
    }

    /// Gives a name a slot. A name that has one takes no memory.
    pub fn put(&mut self, id: PoolId, slot: Slot) -> Result<(), AllocError>
        requires { is_given (Some slot) ≡ true → 0 < size_of (Some slot) }
        ensures ok { OnOk result (IsSet (slots_of self.old) (slots_of self.new) id (Some slot)) }
        ensures at { OnOk result (slots_of self.new id ≡ Some slot) }
        ensures err { OnErr result (IsSame (slots_of self.old) (slots_of self.new)) }
        ensures absent { OnErr result (slots_of self.old id ≡ None) }
    {
        is_name(id);
        match self.map.insert(Key { id }, SmallSlot::of(slot)) {
            Ok(_) => Ok(()),
            Err(_) => Err(AllocError),
        }
    }

    /// Gives a name a slot, and hands out the one that it had.
    pub(crate) fn swap(&mut self, id: PoolId, slot: Slot) -> Result<Option<Slot>, AllocError>
        requires { is_given (Some slot) ≡ true → 0 < size_of (Some slot) }
        ensures had { IfOk result (λ had. had ≡ slots_of self.old id) }
        ensures set { OnOk result (IsSet (slots_of self.old) (slots_of self.new) id (Some slot)) }
    {
        is_name(id);
        match self.map.insert(Key { id }, SmallSlot::of(slot)) {
            Ok(Some(had)) => Ok(Some(had.to_slot())),
            Ok(None) => Ok(None),
            Err(_) => Err(AllocError),
        }
    }

    /// Gives a used name another slot; takes no memory.
    pub fn set(&mut self, id: PoolId, slot: Slot)
        requires used { slots_of self.old id ≡ None → ⊥ }
        requires sized { is_given (Some slot) ≡ true → 0 < size_of (Some slot) }
        ensures { IsSet (slots_of self.old) (slots_of self.new) id (Some slot) }
    {
        match self.put(id, slot) {
            Ok(()) => {}
            Err(_) => {}
        }
    }

    /// Frees a used name.
    pub fn take(&mut self, id: PoolId)
        requires { slots_of self.old id ≡ None → ⊥ }
        ensures set { IsSet (slots_of self.old) (slots_of self.new) id None }
        ensures fewer { length self.new.map.entries < length self.old.map.entries }
    {
        self.map.remove(&Key { id });
    }

    /// The first doomed name from one on.
    pub fn next_doomed(&self, from: PoolId) -> Option<PoolId>
        requires { NoneDoomedBelow (slots_of self.now) from }
        ensures some { IfSome result (λ id. slots_of self.now id ≡ Some Doomed) }
        ensures below { IfSome result (NoneDoomedBelow (slots_of self.now)) }
        ensures none { result ≡ None → NoneDoomed (slots_of self.now) }
    {
        for (id, slot) in self.map.range(Key { id: from }..) {
            match slot.to_slot() {
                Slot::Doomed => return Some(id.name()),
                _ => {}
            }
        }
        None
    }

    /// The entries of the names whose digest begins with a byte from one to another, in order.
    pub(crate) fn between(&self, first: u8, last: u8) -> Range<'_, Key, SmallSlot>
        requires { first ≤ last }
        ensures between { result ≡ entries_between id_cmp (Included (least_of first)) (Included (greatest_of last)) self.now.map.entries }
        ensures in_range { IsRangeOf id_cmp (Included (least_of first)) (Included (greatest_of last)) self.now.map result }
        ensures ordered { IsOrdered id_cmp self.now.map }
    {
        let first = Key {
            id: least_of(first),
        };
        let last = Key {
            id: greatest_of(last),
        };
        self.map.range(first..=last)
    }

    /// The least used extension of a digest from one on.
    pub fn next(&self, digest: [u8; 16], from: u32) -> Option<u16>
        requires { from < 65536 }
        ensures used { IfSome result (λ used. (from ≤ used) × (slots_of self.now (id_of digest used) ≡ None → ⊥)) }
        ensures before { IfSome result (λ used. (x : ℕ) → from ≤ x → x < used → slots_of self.now (id_of digest x) ≡ None) }
        ensures none { result ≡ None → (x : ℕ) → from ≤ x → x < 65536 → slots_of self.now (id_of digest x) ≡ None }
    {
        let extension = from as u16;
        let least = Key {
            id: PoolId { digest, extension },
        };
        match self.map.range(least..).next() {
            Some((id, _)) => {
                let found = id.name();
                if found.digest == digest {
                    Some(found.extension)
                } else {
                    None
                }
            }
            None => None,
        }
    }
}
