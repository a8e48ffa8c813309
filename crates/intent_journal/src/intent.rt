//! The bytes of Intent.

ghost use Rattle.std.specs.Prelude.{◌≡◌, ◌++◌, ◌∷◌, [], ℕ, List, Option, true, false, Some, length, IfOk, IfErr, OnOk, MatchResult};
ghost use Rattle.wire_bytes.specs.Kind.{Reads};
ghost use Rattle.wire_bytes.specs.Reading.{left, Passes};
ghost use Rattle.disk_trait.specs.Names.{is_metadata};
ghost use Rattle.intent_journal.specs.declared.changes.Change.{Change};
ghost use Rattle.intent_journal.specs.Changes.{names, AreChanges, AreInRange, IsInRange, IsShort, IsIntent};
ghost use Rattle.intent_journal.specs.Layout.{file_bytes, content_bytes, change_bytes, changes_bytes, intent_body, intent_file};
ghost use Rattle.intent_journal.specs.RawChanges.{change_of, content_of, IsMetadataFile, IsChange};

use crate::changes::{Change, Changes};
use disk_trait::{Bytes, FileId};
use std::alloc::{AllocError, Global};
use wire_bytes::{FieldFault, Reader, open_sealed, put_bytes, put_u8, put_u32, put_u64, seal};

/// The bytes of the header and the seal.
const FRAME_LEN: usize = 28;

/// The most that a change has beside its bytes: a tag and two numbers, the byte for 1 or 2, and a length.
const CHANGE_LEN: usize = 18;

/// Why Intent wasn't read.
#[derive(Clone, Copy, Debug, PartialEq, Eq)]
pub(crate) enum IntentFault {
    /// No changes have these bytes.
    Foreign,
    Memory,
}

impl From<AllocError> for IntentFault {
    ghost use Rattle.intent_journal.specs.declared.intent.IntentFault.TheVariants.{Memory};

    ghost from_gives = { λ _ fault. fault ≡ Memory };

    fn from(_refused: AllocError) -> IntentFault {
        IntentFault::Memory
    }
}

impl From<FieldFault> for IntentFault {
    ghost use Rattle.intent_journal.specs.declared.intent.IntentFault.TheVariants.{Foreign};

    ghost from_gives = { λ _ fault. fault ≡ Foreign };

    fn from(_fault: FieldFault) -> IntentFault {
        IntentFault::Foreign
    }
}

/// A file's tag and numbers.
#[tactic(auto, unfolding(crate::specs::Layout::file_bytes))]
fn put_file(out: &mut Vec<u8>, file: FileId) -> Result<(), AllocError>
    ensures ok { OnOk result (out.new.items ≡ out.old.items ++ file_bytes file) }
    ensures fits { OnOk result (IsInRange file) }
{
    match file {
        FileId::Head => {
            put_u8(out, 1)?;
            Ok(())
        }
        FileId::Host(host) => {
            put_u8(out, 4)?;
            put_u32(out, host)?;
            Ok(())
        }
        FileId::Table(host, number) => {
            put_u8(out, 5)?;
            put_u32(out, host)?;
            put_u32(out, number)?;
            Ok(())
        }
        FileId::Counts(host) => {
            put_u8(out, 6)?;
            put_u32(out, host)?;
            Ok(())
        }
        FileId::PoolIndex => {
            put_u8(out, 7)?;
            Ok(())
        }
        FileId::PoolBucket(byte) => {
            put_u8(out, 8)?;
            put_u32(out, u32::from(byte))?;
            Ok(())
        }
        FileId::Partial(host) => {
            put_u8(out, 9)?;
            put_u32(out, host)?;
            Ok(())
        }
        FileId::Intent | FileId::Gate | FileId::Pool(_) | FileId::Stage(_) => Ok(()),
    }
}

/// 1, the length and the bytes; or 2 for a removal.
#[tactic(auto, unfolding(crate::specs::Layout::content_bytes))]
fn put_content(out: &mut Vec<u8>, bytes: &Option<Bytes>) -> Result<(), AllocError>
    ensures ok { OnOk result (out.new.items ≡ out.old.items ++ content_bytes bytes.now) }
    ensures fits { OnOk result (IsShort bytes.now) }
{
    match bytes {
        Some(bytes) => {
            put_u8(out, 1)?;
            put_u64(out, bytes.len() as u64)?;
            put_bytes(out, bytes.as_slice())?;
            Ok(())
        }
        None => {
            put_u8(out, 2)?;
            Ok(())
        }
    }
}

#[tactic(auto, unfolding(crate::specs::Layout::change_bytes))]
fn put_change(out: &mut Vec<u8>, change: &Change) -> Result<(), AllocError>
    ensures ok { OnOk result (out.new.items ≡ out.old.items ++ change_bytes change.now) }
    ensures fits { OnOk result (IsInRange change.now.file × IsShort change.now.bytes) }
{
    put_file(out, change.file)?;
    put_content(out, &change.bytes)?;
    Ok(())
}

/// The changes, one after the other.
fn put_changes(out: &mut Vec<u8>, changes: &[Change]) -> Result<(), AllocError>
    ensures ok { OnOk result (out.new.items ≡ out.old.items ++ changes_bytes changes.now) }
    ensures fits { OnOk result (AreInRange changes.now) }
{
    for change in changes {
        put_change(out, change)?;
    }
    Ok(())
}

/// Room for the file of these changes, so that each byte is copied once.
fn intent_room(changes: &[Change]) -> usize {
    let mut room = FRAME_LEN;
    for change in changes {
        room = room.saturating_add(CHANGE_LEN);
        if let Some(bytes) = &change.bytes {
            room = room.saturating_add(bytes.len());
        }
    }
    room
}

/// The file of these changes.
#[tactic(auto, unfolding(crate::specs::Layout::intent_body, crate::specs::Layout::intent_file))]
pub(crate) fn write_intent(alloc: Global, changes: &[Change]) -> Result<Vec<u8>, AllocError>
    requires { AreChanges changes.now }
    ensures file { IfOk result (λ bytes. bytes.items ≡ intent_file changes.now) }
    ensures fits { OnOk result (IsIntent changes.now) }
{
    let mut out = Vec::with_capacity(alloc, intent_room(changes))?;
    put_bytes(&mut out, b"RIN1")?;
    put_u64(&mut out, changes.len() as u64)?;
    put_changes(&mut out, changes)?;
    let file = seal(out)?;
    Ok(file)
}

/// Reads a file's tag and numbers.
#[tactic(auto, unfolding(crate::specs::Layout::file_bytes))]
fn read_file(reader: &mut Reader) -> Result<FileId, FieldFault>
    ensures { Reads (λ file. file) IsMetadataFile file_bytes reader.old result reader.new }
{
    let start = reader.offset();
    match reader.read_u8()? {
        1 => Ok(FileId::Head),
        4 => {
            let host = reader.read_u32()?;
            Ok(FileId::Host(host))
        }
        5 => {
            let host = reader.read_u32()?;
            let number = reader.read_u32()?;
            Ok(FileId::Table(host, number))
        }
        6 => {
            let host = reader.read_u32()?;
            Ok(FileId::Counts(host))
        }
        7 => Ok(FileId::PoolIndex),
        8 => match reader.read_u32()? {
            byte if byte < 256 => Ok(FileId::PoolBucket(byte as u8)),
            _ => Err(FieldFault::Foreign(start)),
        },
        9 => {
            let host = reader.read_u32()?;
            Ok(FileId::Partial(host))
        }
        _ => Err(FieldFault::Foreign(start)),
    }
}

/// What a file gets, as it stands in Intent.
#[derive(Drop)]
pub(crate) enum RawContent<'a> {
    Removal,
    Bytes(&'a [u8]),
}

/// Reads what a file gets, as it stands in Intent.
#[tactic(auto, unfolding(crate::specs::Layout::content_bytes))]
fn read_content<'a>(reader: &mut Reader<'a>) -> Result<RawContent<'a>, FieldFault>
    ensures { Reads content_of IsShort content_bytes reader.old result reader.new }
{
    let start = reader.offset();
    match reader.read_u8()? {
        1 => {
            let length = reader.read_u64()?;
            let bytes = reader.read_bytes(length as usize)?;
            Ok(RawContent::Bytes(bytes))
        }
        2 => Ok(RawContent::Removal),
        _ => Err(FieldFault::Foreign(start)),
    }
}

/// A change as it stands in Intent.
#[derive(Drop)]
pub(crate) struct RawChange<'a> {
    file: FileId,
    bytes: RawContent<'a>,
}

/// Reads a change.
#[tactic(auto, unfolding(crate::specs::Layout::change_bytes))]
fn read_change<'a>(reader: &mut Reader<'a>) -> Result<RawChange<'a>, FieldFault>
    ensures { Reads change_of IsChange change_bytes reader.old result reader.new }
{
    let file = read_file(reader)?;
    let bytes = read_content(reader)?;
    Ok(RawChange { file, bytes })
}

/// The change, or want of memory.
fn own_change(alloc: Global, raw: &RawChange) -> Result<Change, AllocError>
    ensures { IfOk result (λ change. change ≡ change_of raw.now) }
{
    match &raw.bytes {
        RawContent::Removal => Ok(Change {
            file: raw.file,
            bytes: None,
        }),
        RawContent::Bytes(bytes) => {
            let bytes = Bytes::from_slice(alloc, bytes)?;
            Ok(Change {
                file: raw.file,
                bytes: Some(bytes),
            })
        }
    }
}

/// Reads the next change, and puts it at the end of the others.
fn read_next(alloc: Global, reader: &mut Reader, changes: &mut Changes) -> Result<(), IntentFault>
    ensures found { IfOk result (λ _. (change : Change) × IsChange change × (names changes.old change.file ≡ false)
        × (changes.new ≡ changes.old ++ change ∷ []) × Passes reader.old reader.new (change_bytes change)) }
    ensures back { (change : Change) (more : List ℕ) → IsChange change → names changes.old change.file ≡ false
        → left reader.old ≡ change_bytes change ++ more
        → MatchResult result (λ _. (changes.new ≡ changes.old ++ change ∷ []) × (left reader.new ≡ more)) (λ fault. fault ≡ IntentFault.Memory) }
{
    let raw = read_change(reader)?;
    if changes.names_file(raw.file) {
        return Err(IntentFault::Foreign);
    }
    let change = own_change(alloc, &raw)?;
    changes.push(change)?;
    Ok(())
}

/// Reads so many changes.
fn read_changes(alloc: Global, reader: &mut Reader, count: u64) -> Result<Changes, IntentFault>
    ensures found { IfOk result (λ changes. AreChanges changes × AreInRange changes × (length changes ≡ count) × Passes reader.old reader.new (changes_bytes changes)) }
    ensures back { (changes : List Change) (more : List ℕ) → AreChanges changes → AreInRange changes → length changes ≡ count
        → left reader.old ≡ changes_bytes changes ++ more
        → MatchResult result (λ read. (read ≡ changes) × (left reader.new ≡ more)) (λ fault. fault ≡ IntentFault.Memory) }
{
    let mut changes = Changes::new(alloc);
    for _i in 0..count {
        match read_next(alloc, reader, &mut changes) {
            Ok(()) => {}
            Err(fault) => return Err(fault),
        }
    }
    Ok(changes)
}

/// Reads the body of Intent.
#[tactic(auto, unfolding(crate::specs::Layout::intent_body))]
fn read_body(alloc: Global, body: &[u8]) -> Result<Changes, IntentFault>
    ensures found { IfOk result (λ changes. IsIntent changes × (body.now ≡ intent_body changes)) }
    ensures back { (changes : List Change) → IsIntent changes → body.now ≡ intent_body changes
        → MatchResult result (λ read. read ≡ changes) (λ fault. fault ≡ IntentFault.Memory) }
{
    let mut reader = Reader::new(body);
    match reader.read_magic(b"RIN1") {
        Ok(()) => {}
        Err(_) => return Err(IntentFault::Foreign),
    }
    let count = match reader.read_u64() {
        Ok(count) => count,
        Err(_) => return Err(IntentFault::Foreign),
    };
    let changes = match read_changes(alloc, &mut reader, count) {
        Ok(changes) => changes,
        Err(fault) => return Err(fault),
    };
    if !reader.is_at_end() {
        return Err(IntentFault::Foreign);
    }
    Ok(changes)
}

/// The changes of a file.
#[tactic(auto, unfolding(crate::specs::Layout::intent_file))]
pub(crate) fn read_intent(alloc: Global, bytes: &[u8]) -> Result<Changes, IntentFault>
    ensures found { IfOk result (λ changes. IsIntent changes × (bytes.now ≡ intent_file changes)) }
    ensures back { (changes : List Change) → IsIntent changes → bytes.now ≡ intent_file changes
        → MatchResult result (λ read. read ≡ changes) (λ fault. fault ≡ IntentFault.Memory) }
{
    match open_sealed(bytes) {
        Ok(body) => match read_body(alloc, body) {
            Ok(changes) => Ok(changes),
            Err(fault) => Err(fault),
        },
        Err(_) => Err(IntentFault::Foreign),
    }
}
