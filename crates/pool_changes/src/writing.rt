//! The files of the index behind a change of it.

ghost use Rattle.std.specs.Prelude.{◌≡◌, ◌++◌, true, false, Some, None, IfOk, OnOk};
ghost use Rattle.disk_trait.specs.declared.ids.PoolId.{PoolId};
ghost use Rattle.pool_index.specs.Items.{byte_of};
ghost use Rattle.pool_changes.specs.Kept.{slots_of, IsSame};
ghost use Rattle.pool_changes.specs.Slots.{with_slot};
ghost use Rattle.pool_changes.specs.Relisted.{relisted, turned};
ghost use Rattle.pool_changes.specs.Indexed.{relisted_by};
ghost use Rattle.pool_changes.specs.Listed.{item_of, index_of};
ghost use Rattle.pool_changes.specs.Written.{IsCalled, LeadsIndex};
ghost use Rattle.pool_changes.specs.Writing.{option_list, first_changes, slot_or, layered, IsOver, AreUnder, AreAlikeUnder, IsByteChange, IsFileOf};

use crate::key::Key;
use crate::listing::push_some;
use crate::names::Names;
use crate::slot::{Slot, Turn};
use crate::small::SmallSlot;
use disk_trait::{Bytes, FileId, PoolId};
use intent_journal::{Change, Changes};
use pool_index::{IndexItem, write_bucket};
use std::alloc::{AllocError, Global};

/// The slot of a name, as it lies over the names or as it is.
fn slot_over(names: &Names, over: &Names, id: PoolId) -> Option<Slot>
    ensures { result ≡ layered (slots_of names.now) (slots_of over.now) id }
{
    match over.get(id) {
        Some(slot) => Some(slot),
        None => names.get(id),
    }
}

/// Turns the slot of a name, over the names as they are, wherever it lies.
fn turn_layered(names: &Names, over: &mut Names, id: PoolId, turn: Turn) -> Result<(), AllocError>
    ensures turned { OnOk result (IsSame (with_slot (layered (slots_of names.now) (slots_of over.old)) id (turned turn (layered (slots_of names.now) (slots_of over.old) id)))
        (layered (slots_of names.now) (slots_of over.new))) }
    ensures over { OnOk result (IsOver (slots_of names.now) (slots_of over.old) → IsOver (slots_of names.now) (slots_of over.new)) }
{
    match slot_over(names, over, id) {
        Some(slot) => match over.put(id, slot.turned(turn)) {
            Ok(()) => Ok(()),
            Err(fault) => Err(fault),
        },
        None => Ok(()),
    }
}

/// Turns the slot of a name, over the names as they are. A name that doesn't lie over them yet, as most don't, is looked
/// up there once, when its new slot is put.
fn turn_over(names: &Names, over: &mut Names, id: PoolId, turn: Turn) -> Result<(), AllocError>
    ensures turned { OnOk result (IsSame (with_slot (layered (slots_of names.now) (slots_of over.old)) id (turned turn (layered (slots_of names.now) (slots_of over.old) id)))
        (layered (slots_of names.now) (slots_of over.new))) }
    ensures over { OnOk result (IsOver (slots_of names.now) (slots_of over.old) → IsOver (slots_of names.now) (slots_of over.new)) }
{
    let slot = match names.get(id) {
        Some(slot) => slot,
        None => return turn_layered(names, over, id, turn),
    };
    match over.swap(id, slot.turned(turn)) {
        Ok(None) => Ok(()),
        Ok(Some(had)) => match over.put(id, had.turned(turn)) {
            Ok(()) => Ok(()),
            Err(fault) => Err(fault),
        },
        Err(fault) => Err(fault),
    }
}

/// Turns the slots of these names, one after the other, over the names as they are.
fn turn_all_over(
    names: &Names,
    over: &mut Names,
    ids: &[PoolId],
    turn: Turn,
) -> Result<(), AllocError>
    ensures turned { OnOk result (IsSame (relisted turn ids.now (layered (slots_of names.now) (slots_of over.old))) (layered (slots_of names.now) (slots_of over.new))) }
    ensures over { OnOk result (IsOver (slots_of names.now) (slots_of over.old) → IsOver (slots_of names.now) (slots_of over.new)) }
{
    for id in ids {
        match turn_over(names, over, *id, turn) {
            Ok(()) => {}
            Err(fault) => return Err(fault),
        }
    }
    Ok(())
}

/// What lies over the names after these were added, marked, unmarked and removed.
fn changed_names(
    alloc: Global,
    names: &Names,
    added: &[PoolId],
    marked: &[PoolId],
    unmarked: &[PoolId],
    removed: &[PoolId],
) -> Result<Names, AllocError>
    ensures changed { IfOk result (λ over. IsSame (relisted_by added.now marked.now unmarked.now removed.now (slots_of names.now)) (layered (slots_of names.now) (slots_of over))) }
    ensures over { IfOk result (λ over. IsOver (slots_of names.now) (slots_of over)) }
{
    let mut over = Names::new(alloc);
    turn_all_over(names, &mut over, added, Turn::Add)?;
    turn_all_over(names, &mut over, marked, Turn::Mark)?;
    turn_all_over(names, &mut over, unmarked, Turn::Unmark)?;
    turn_all_over(names, &mut over, removed, Turn::Remove)?;
    Ok(over)
}

/// Whether two slots of a name say the same to the index.
fn is_same_item(a: &SmallSlot, b: Option<Slot>) -> bool
    ensures same { result ≡ true → (id : PoolId) → item_of id (Some a.now) ≡ item_of id b }
    ensures other { result ≡ false → (id : PoolId) → item_of id (Some a.now) ≡ item_of id b → ⊥ }
{
    match (a.to_slot(), b) {
        (
            Slot::Live { size, mark, .. },
            Some(
                Slot::Live {
                    size: other_size,
                    mark: other_mark,
                    ..
                },
            ),
        ) => size == other_size && mark == other_mark,
        (Slot::Live { .. }, _) => false,
        (_, Some(Slot::Live { .. })) => false,
        _ => true,
    }
}

/// Whether an item of the byte changes.
fn is_changed(names: &Names, over: &Names, byte: u8) -> bool
    ensures changed { result ≡ true → IsCalled false (index_of (slots_of names.now)) (index_of (layered (slots_of names.now) (slots_of over.now))) byte }
    ensures alike { result ≡ false → AreAlikeUnder byte (index_of (slots_of names.now)) (index_of (layered (slots_of names.now) (slots_of over.now))) }
{
    for (id, slot) in over.between(byte, byte) {
        if !is_same_item(slot, names.find(id)) {
            return true;
        }
    }
    false
}

/// The slot of a name that has this one, as it lies over it or as it is.
fn slot_here(over: &Names, id: &Key, slot: &SmallSlot) -> Slot
    ensures { Some result ≡ slot_or (slots_of over.now id.now) (Some slot.now) }
{
    match over.find(id) {
        Some(slot) => slot,
        None => slot.to_slot(),
    }
}

/// The item of a name that has this slot, as it lies over it.
fn item_over(over: &Names, id: &Key, slot: &SmallSlot) -> Option<IndexItem>
    ensures { result ≡ item_of id.now (slot_or (slots_of over.now id.now) (Some slot.now)) }
{
    match slot_here(over, id, slot) {
        Slot::Live { size, mark, .. } => {
            let id = id.name();
            Some(IndexItem { id, size, mark })
        }
        _ => None,
    }
}

/// The items of a byte, as they lie over the names.
fn items_over(
    alloc: Global,
    names: &Names,
    over: &Names,
    byte: u8,
) -> Result<Vec<IndexItem>, AllocError>
    requires { IsOver (slots_of names.now) (slots_of over.now) }
    ensures { IfOk result (λ items. AreUnder byte (index_of (layered (slots_of names.now) (slots_of over.now))) items.items) }
{
    let mut items = Vec::new(alloc);
    for (id, slot) in names.between(byte, byte) {
        match push_some(&mut items, item_over(over, id, slot)) {
            Ok(()) => {}
            Err(fault) => return Err(fault),
        }
    }
    Ok(items)
}

/// The file of a byte, as it lies over the names; none if it has no items.
fn bucket_bytes(
    alloc: Global,
    names: &Names,
    over: &Names,
    byte: u8,
) -> Result<Option<Bytes>, AllocError>
    requires { IsOver (slots_of names.now) (slots_of over.now) }
    ensures { IfOk result (IsFileOf byte (index_of (layered (slots_of names.now) (slots_of over.now)))) }
{
    let items = match items_over(alloc, names, over, byte) {
        Ok(items) => items,
        Err(fault) => return Err(fault),
    };
    let listed = items.as_slice();
    if listed.is_empty() {
        return Ok(None);
    }
    match write_bucket(alloc, byte, listed) {
        Ok(bytes) => Ok(Some(Bytes::from_vec(bytes))),
        Err(fault) => Err(fault),
    }
}

/// The change of the file of a byte, where there is one file for all so far.
fn first_bucket(
    alloc: Global,
    names: &Names,
    over: &Names,
    byte: u8,
) -> Result<Option<Change>, AllocError>
    requires { IsOver (slots_of names.now) (slots_of over.now) }
    ensures { IfOk result (IsByteChange true (index_of (slots_of names.now)) (index_of (layered (slots_of names.now) (slots_of over.now))) byte) }
{
    let file = FileId::PoolBucket(byte);
    match bucket_bytes(alloc, names, over, byte) {
        Ok(None) => Ok(None),
        Ok(Some(bytes)) => Ok(Some(Change {
            file,
            bytes: Some(bytes),
        })),
        Err(fault) => Err(fault),
    }
}

/// The change of the file of a byte, if an item of it changes.
fn next_bucket(
    alloc: Global,
    names: &Names,
    over: &Names,
    byte: u8,
) -> Result<Option<Change>, AllocError>
    requires { IsOver (slots_of names.now) (slots_of over.now) }
    ensures { IfOk result (IsByteChange false (index_of (slots_of names.now)) (index_of (layered (slots_of names.now) (slots_of over.now))) byte) }
{
    if !is_changed(names, over, byte) {
        return Ok(None);
    }
    let file = FileId::PoolBucket(byte);
    match bucket_bytes(alloc, names, over, byte) {
        Ok(bytes) => Ok(Some(Change { file, bytes })),
        Err(fault) => Err(fault),
    }
}

/// The change of the file of a byte, if it changes.
fn bucket_change(
    alloc: Global,
    names: &Names,
    over: &Names,
    in_one_file: bool,
    byte: u8,
) -> Result<Option<Change>, AllocError>
    requires { IsOver (slots_of names.now) (slots_of over.now) }
    ensures { IfOk result (IsByteChange in_one_file (index_of (slots_of names.now)) (index_of (layered (slots_of names.now) (slots_of over.now))) byte) }
{
    match in_one_file {
        true => first_bucket(alloc, names, over, byte),
        false => next_bucket(alloc, names, over, byte),
    }
}

/// Puts the change behind the others, if there is one.
fn push_change(changes: &mut Changes, change: Option<Change>) -> Result<(), AllocError>
    ensures { OnOk result (changes.new ≡ changes.old ++ option_list change) }
{
    match change {
        Some(change) => match changes.push(change) {
            Ok(()) => Ok(()),
            Err(fault) => Err(fault),
        },
        None => Ok(()),
    }
}

/// The changes with which those of the bytes begin: the one file goes.
fn first_changes(alloc: Global, in_one_file: bool) -> Result<Changes, AllocError>
    ensures { IfOk result (λ changes. changes ≡ first_changes in_one_file) }
{
    let mut changes = Changes::new(alloc);
    if !in_one_file {
        return Ok(changes);
    }
    let file = FileId::PoolIndex;
    match changes.push(Change { file, bytes: None }) {
        Ok(()) => Ok(changes),
        Err(fault) => Err(fault),
    }
}

/// The changes of the index's files that lead to what lies over the names.
fn write_changes(
    alloc: Global,
    names: &Names,
    over: &Names,
    in_one_file: bool,
) -> Result<Changes, AllocError>
    requires { IsOver (slots_of names.now) (slots_of over.now) }
    ensures { IfOk result (LeadsIndex in_one_file (index_of (slots_of names.now)) (index_of (layered (slots_of names.now) (slots_of over.now)))) }
{
    let mut changes = match first_changes(alloc, in_one_file) {
        Ok(changes) => changes,
        Err(fault) => return Err(fault),
    };
    let mut byte: u32 = 0;
    while byte < 256 {
        let change = match bucket_change(alloc, names, over, in_one_file, byte as u8) {
            Ok(change) => change,
            Err(fault) => return Err(fault),
        };
        match push_change(&mut changes, change) {
            Ok(()) => {}
            Err(fault) => return Err(fault),
        }
        byte += 1;
    }
    Ok(changes)
}

/// The changes of the index's files after these names are added, marked, unmarked and removed.
pub(crate) fn write_index(
    alloc: Global,
    names: &Names,
    in_one_file: bool,
    added: &[PoolId],
    marked: &[PoolId],
    unmarked: &[PoolId],
    removed: &[PoolId],
) -> Result<Changes, AllocError>
    ensures { IfOk result (LeadsIndex in_one_file (index_of (slots_of names.now))
        (index_of (relisted_by added.now marked.now unmarked.now removed.now (slots_of names.now)))) }
{
    let over = changed_names(alloc, names, added, marked, unmarked, removed)?;
    let changes = write_changes(alloc, names, &over, in_one_file)?;
    Ok(changes)
}
