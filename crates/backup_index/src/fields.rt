//! Reads the fields that the files are made of.

ghost use Rattle.std.specs.Prelude.{◌≡◌};
ghost use Rattle.std.specs.Int.{w8, w32, w64};
ghost use Rattle.wire_bytes.specs.Layout.{text_bytes};
ghost use Rattle.wire_bytes.specs.Grammar.{field, number};
ghost use Rattle.wire_bytes.specs.GrammarReading.{ReadsOrBreaks};
ghost use Rattle.backup_index.specs.Faults.{offset_of};
ghost use Rattle.backup_index.specs.Head.{IsHostCount};
ghost use Rattle.backup_index.specs.Index.{IsNext, layout_grammar, name_grammar};

use crate::fault::IndexFault;
use crate::layouts::IndexLayout;
use crate::limits::{MAX_HOSTS, MAX_NEXT};
use attr_records::{BadHostName, HostName};
use std::alloc::Global;
use wire_bytes::Reader;

/// Reads the four bytes that tell the layout of an index.
pub fn read_layout(reader: &mut Reader) -> Result<IndexLayout, IndexFault>
    ensures { ReadsOrBreaks offset_of (λ layout. layout) layout_grammar reader.old result reader.new }
{
    let start = reader.offset();
    match reader.read_magic(b"RHI3") {
        Ok(()) => Ok(IndexLayout::Third),
        Err(_) => match reader.read_magic(b"RHI2") {
            Ok(()) => Ok(IndexLayout::Second),
            Err(_) => match reader.read_magic(b"RHI1") {
                Ok(()) => Ok(IndexLayout::First),
                Err(_) => Err(IndexFault::BadIndex(start)),
            },
        },
    }
}

/// Reads the number of hosts.
#[tactic(auto, unfolding(wire_bytes::specs::Grammar::field))]
pub fn read_host_count(reader: &mut Reader) -> Result<u32, IndexFault>
    ensures { ReadsOrBreaks offset_of (λ n. n) (number w32 IsHostCount) reader.old result reader.new }
{
    let start = reader.offset();
    match reader.read_u32() {
        Ok(count) if count as usize <= MAX_HOSTS => Ok(count),
        _ => Err(IndexFault::BadIndex(start)),
    }
}

/// Reads the number of the next backup.
#[tactic(auto, unfolding(wire_bytes::specs::Grammar::field))]
pub fn read_next_number(reader: &mut Reader) -> Result<u64, IndexFault>
    ensures { ReadsOrBreaks offset_of (λ n. n) (number w64 IsNext) reader.old result reader.new }
{
    let start = reader.offset();
    match reader.read_u64() {
        Ok(next) if next <= MAX_NEXT => Ok(next),
        _ => Err(IndexFault::BadIndex(start)),
    }
}

/// Reads the name of a host.
pub fn read_name(alloc: Global, reader: &mut Reader) -> Result<HostName, IndexFault>
    ensures { ReadsOrBreaks offset_of (λ name. name) name_grammar reader.old result reader.new }
{
    let start = reader.offset();
    let text = match reader.read_text8() {
        Ok(text) => text,
        Err(_) => return Err(IndexFault::BadIndex(start)),
    };
    match HostName::read(alloc, text) {
        Ok(name) => Ok(name),
        Err(BadHostName::BadName) => Err(IndexFault::BadIndex(start)),
        Err(BadHostName::Memory) => Err(IndexFault::Memory),
    }
}
