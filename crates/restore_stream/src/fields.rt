//! Reads fields from a source.

ghost use Rattle.std.specs.Prelude.{⊤, ◌≡◌, ◌≤◌, length, take, IfOk, IfErr, OnOk, IsErrOf};
ghost use Rattle.std.specs.Option.{ForSome};
ghost use Rattle.fault_counts.specs.Counts.{Counted};
ghost use Rattle.stream_traits.specs.Told.{before, IsShort};
ghost use Rattle.wire_bytes.specs.Reading.{AreBytes};
ghost use Rattle.restore_stream.specs.Reading.{Reads, IsNoBreak};
ghost use Rattle.restore_stream.specs.Streams.{u8_field, u16_field, u32_field, u64_field, i64_field, text_field16, bytes_field_of};

use crate::faults::ReadStreamFault;
use std::alloc::Global;
use stream_traits::{Faults, Source, read_exactly};
use wire_bytes::Reader;

/// Hands out what the type of bytes says: each is below 256.
fn are_bytes(bytes: &[u8])
    ensures { AreBytes bytes.now }
{
    let reader = Reader::new(bytes);
    let _left = reader.left();
}

/// Reads as many bytes as there is room for.
pub fn fill<S: Source>(source: &mut S, room: &mut [u8]) -> Result<(), ReadStreamFault>
    requires sent { S.sent source.old ≡ S.written source.old }
    ensures told { OnOk result (S.left source.old ≡ before room.new (S.left source.new)) }
    ensures short { IfErr result (λ fault. fault ≡ ReadStreamFault.Ended → IsShort (S.left source.old) (length room.old)) }
    ensures faults { IfErr result (λ fault. IsNoBreak fault) }
    ensures len { length room.new ≡ length room.old }
    ensures bytes { OnOk result (AreBytes room.new) }
    ensures written { S.written source.new ≡ S.written source.old }
    ensures sent { S.sent source.new ≡ S.sent source.old }
    ensures counted { Counted (S.faults source.old) (S.faults source.new) (IsErrOf result ReadStreamFault.ReadFault) }
{
    let mut done = 0;
    while done < room.len() {
        match source.read(&mut room[done..]) {
            Ok(0) => return Err(ReadStreamFault::Ended),
            Ok(count) => done += count,
            Err(_) => return Err(ReadStreamFault::ReadFault),
        }
    }
    are_bytes(room);
    Ok(())
}

/// Reads a number of one byte.
pub fn read_u8<S: Source>(source: &mut S) -> Result<u8, ReadStreamFault>
    requires sent { S.sent source.old ≡ S.written source.old }
    ensures read { Reads (u8_field (λ _. ⊤)) 0 (λ n. n) (S.left source.old) result (S.left source.new) }
    ensures written { S.written source.new ≡ S.written source.old }
    ensures sent { S.sent source.new ≡ S.sent source.old }
    ensures counted { Counted (S.faults source.old) (S.faults source.new) (IsErrOf result ReadStreamFault.ReadFault) }
{
    let mut room = [0u8; 1];
    fill(source, &mut room)?;
    Ok(room[0])
}

/// Reads a number of two bytes.
fn read_u16<S: Source>(source: &mut S) -> Result<u16, ReadStreamFault>
    requires sent { S.sent source.old ≡ S.written source.old }
    ensures read { Reads (u16_field (λ _. ⊤)) 0 (λ n. n) (S.left source.old) result (S.left source.new) }
    ensures written { S.written source.new ≡ S.written source.old }
    ensures sent { S.sent source.new ≡ S.sent source.old }
    ensures counted { Counted (S.faults source.old) (S.faults source.new) (IsErrOf result ReadStreamFault.ReadFault) }
{
    let mut room = [0u8; 2];
    fill(source, &mut room)?;
    Ok(u16::from_be_bytes(room))
}

/// Reads a number of four bytes.
pub fn read_u32<S: Source>(source: &mut S) -> Result<u32, ReadStreamFault>
    requires sent { S.sent source.old ≡ S.written source.old }
    ensures read { Reads (u32_field (λ _. ⊤)) 0 (λ n. n) (S.left source.old) result (S.left source.new) }
    ensures written { S.written source.new ≡ S.written source.old }
    ensures sent { S.sent source.new ≡ S.sent source.old }
    ensures counted { Counted (S.faults source.old) (S.faults source.new) (IsErrOf result ReadStreamFault.ReadFault) }
{
    let mut room = [0u8; 4];
    fill(source, &mut room)?;
    Ok(u32::from_be_bytes(room))
}

/// Reads a number of eight bytes.
pub fn read_u64<S: Source>(source: &mut S) -> Result<u64, ReadStreamFault>
    requires sent { S.sent source.old ≡ S.written source.old }
    ensures read { Reads (u64_field (λ _. ⊤)) 0 (λ n. n) (S.left source.old) result (S.left source.new) }
    ensures written { S.written source.new ≡ S.written source.old }
    ensures sent { S.sent source.new ≡ S.sent source.old }
    ensures counted { Counted (S.faults source.old) (S.faults source.new) (IsErrOf result ReadStreamFault.ReadFault) }
{
    let mut room = [0u8; 8];
    fill(source, &mut room)?;
    Ok(u64::from_be_bytes(room))
}

/// Reads a signed number of eight bytes.
pub fn read_i64<S: Source>(source: &mut S) -> Result<i64, ReadStreamFault>
    requires sent { S.sent source.old ≡ S.written source.old }
    ensures read { Reads (i64_field (λ _. ⊤)) 0 (λ z. z) (S.left source.old) result (S.left source.new) }
    ensures written { S.written source.new ≡ S.written source.old }
    ensures sent { S.sent source.new ≡ S.sent source.old }
    ensures counted { Counted (S.faults source.old) (S.faults source.new) (IsErrOf result ReadStreamFault.ReadFault) }
{
    match read_u64(source) {
        Ok(bits) => Ok(bits.cast_signed()),
        Err(fault) => Err(fault),
    }
}

/// Reads so many bytes.
pub fn read_bytes<S: Source>(
    alloc: Global,
    source: &mut S,
    count: usize,
) -> Result<Vec<u8>, ReadStreamFault>
    requires sent { S.sent source.old ≡ S.written source.old }
    ensures read { Reads (bytes_field_of count (λ _. ⊤)) 0 (λ bytes. bytes.items) (S.left source.old) result (S.left source.new) }
    ensures written { S.written source.new ≡ S.written source.old }
    ensures sent { S.sent source.new ≡ S.sent source.old }
    ensures counted { Counted (S.faults source.old) (S.faults source.new) (IsErrOf result ReadStreamFault.ReadFault) }
{
    match read_exactly(alloc, source, count) {
        Ok(bytes) => Ok(bytes),
        Err(fault) => Err(ReadStreamFault::from(fault)),
    }
}

/// Reads a text with its length in two bytes.
pub fn read_text16<S: Source>(alloc: Global, source: &mut S) -> Result<Vec<u8>, ReadStreamFault>
    requires sent { S.sent source.old ≡ S.written source.old }
    ensures read { Reads (text_field16 (λ _. ⊤)) 0 (λ text. text.items) (S.left source.old) result (S.left source.new) }
    ensures written { S.written source.new ≡ S.written source.old }
    ensures sent { S.sent source.new ≡ S.sent source.old }
    ensures counted { Counted (S.faults source.old) (S.faults source.new) (IsErrOf result ReadStreamFault.ReadFault) }
{
    let count = read_u16(source)?;
    let text = read_bytes(alloc, source, usize::from(count))?;
    Ok(text)
}
