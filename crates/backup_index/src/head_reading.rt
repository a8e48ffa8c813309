//! Reads the head file.

ghost use Rattle.std.specs.Prelude.{◌≤◌};
ghost use Rattle.std.specs.Int.{w8};
ghost use Rattle.wire_bytes.specs.Layout.{text_bytes};
ghost use Rattle.wire_bytes.specs.Grammar.{field};
ghost use Rattle.wire_bytes.specs.GrammarReading.{ReadsOrBreaks, ReadsSealed};
ghost use Rattle.backup_index.specs.Faults.{offset_of};
ghost use Rattle.backup_index.specs.Names.{IsFreshName};
ghost use Rattle.backup_index.specs.Head.{names_grammar, head_grammar};

use crate::fault::IndexFault;
use crate::fields::{read_host_count, read_name};
use crate::head::HeadFile;
use crate::names::NameList;
use attr_records::HostName;
use std::alloc::Global;
use wire_bytes::Reader;

/// Reads a name that is none of those before it.
fn read_next_name(
    alloc: Global,
    reader: &mut Reader,
    before: &NameList,
) -> Result<HostName, IndexFault>
    ensures { ReadsOrBreaks offset_of (λ name. name) (field (IsFreshName before.now) (text_bytes w8)) reader.old result reader.new }
{
    let start = reader.offset();
    let name = read_name(alloc, reader)?;
    if before.contains(&name) {
        return Err(IndexFault::BadIndex(start));
    }
    Ok(name)
}

/// Reads so many names.
fn read_names(alloc: Global, reader: &mut Reader, count: u32) -> Result<NameList, IndexFault>
    requires { count ≤ 1024 }
    ensures { ReadsOrBreaks offset_of (λ names. names) (names_grammar count) reader.old result reader.new }
{
    let mut names = NameList::new(alloc);
    for _i in 0..count {
        let name = read_next_name(alloc, reader, &names)?;
        names.add(name)?;
    }
    Ok(names)
}

/// Reads what a head file says.
fn read_head(alloc: Global, reader: &mut Reader) -> Result<HeadFile, IndexFault>
    ensures { ReadsOrBreaks offset_of (λ head. head) head_grammar reader.old result reader.new }
{
    reader.read_magic(b"RHD1")?;
    let epoch = reader.read_u64()?;
    let count = read_host_count(reader)?;
    let names = read_names(alloc, reader, count)?;
    Ok(HeadFile { epoch, names })
}

/// What the head file of these bytes says; refused exactly where they are no head file, with the offset of the first
/// byte that breaks the layout, or for want of memory.
pub fn read_head_file(alloc: Global, bytes: &[u8]) -> Result<HeadFile, IndexFault>
    ensures { ReadsSealed offset_of (λ head. head) head_grammar bytes.now result }
{
    let mut reader = Reader::of_sealed(bytes)?;
    let head = read_head(alloc, &mut reader)?;
    reader.finish()?;
    Ok(head)
}
