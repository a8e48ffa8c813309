ghost use Rattle.std.specs.Prelude.{◌≡◌, ◌<◌, length, IfSome, IfOk, IfErr, OnErr, Ok};
ghost use Rattle.attr_records.specs.Items.{some_bytes};
ghost use Rattle.office_model.specs.Pool.{is_same_content};
ghost use Rattle.office_model.specs.Office.{AreReaders, reader_index, in_readers, piece_limit};
ghost use Rattle.office_model.specs.events.CloseFile.{without_reader};
ghost use Rattle.office_model.specs.events.OpenFile.{opening};
ghost use Rattle.office_model.specs.events.ReadPart.{given};
ghost use Rattle.tree_parts.specs.Steps.{IsPartStep, IsPartRefusal};

use attr_records::{HostName, PathName};
use disk_trait::Bytes;
use office_model::{BrokenRule, PIECE_LIMIT, Refusal};
use std::alloc::{AllocError, Global};
use std::marker::Model;
use tree_parts::{Host, LAST_SEQUENCE, file_of};

/// An open reader of a file's bytes.
pub struct Reader {
    number: u64,
    content: Bytes,
    position: u64,
}

impl Model for Reader {
    ghost use Rattle.office_model.specs.Office.{Reader as ReaderValue};

    ghost Value = { ReaderValue };

    ghost view = { λ r. record { number = r.number; content = r.content; position = r.position } };
}

/// Written out: what is in it is then dropped here, for the prover too, and not in each crate above.
impl Drop for Reader {
    fn drop(self) {
        let Reader {
            number: _,
            content: _,
            position: _,
        } = self;
    }
}

impl Reader {
    ghost use Rattle.std.specs.Prelude.{◌≡◌, ◌+◌, ◌≤◌, length, IfOk};
    ghost use Rattle.office_model.specs.events.OpenFile.{new_reader};
    ghost use Rattle.office_model.specs.events.ReadPart.{part_of};

    /// A reader of which nothing was given yet.
    fn new(alloc: Global, number: u64, content: &Bytes) -> Result<Reader, AllocError>
        ensures { IfOk result (λ reader. reader ≡ new_reader number content.now) }
    {
        let content = content.copy(alloc)?;
        Ok(Reader {
            number,
            content,
            position: 0,
        })
    }

    fn number(&self) -> u64
        ensures { result ≡ self.now.number }
    {
        self.number
    }

    /// All that it gives.
    pub(crate) fn content(&self) -> &[u8]
        ensures { result.now ≡ self.now.content }
    {
        self.content.as_slice()
    }

    /// What is next, at most so many bytes; or want of memory.
    fn part(&self, alloc: Global, room: usize) -> Result<Bytes, AllocError>
        ensures { IfOk result (λ part. part ≡ part_of room self.now) }
    {
        self.content.piece(alloc, self.position, room)
    }

    /// Moves on by so many bytes, of which there are as many.
    fn move_on(&mut self, count: usize)
        requires { self.old.position + count ≤ length self.old.content }
        ensures { self.new ≡ record self.old { position = self.old.position + count } }
    {
        let _whole = self.content.len();
        self.position += count as u64;
    }
}

/// The place of the open reader of this number.
fn reader_index(readers: &[Reader], number: u64) -> Option<usize>
    ensures index { result ≡ reader_index readers.now number }
    ensures within { IfSome result (λ index. index < length readers.now) }
{
    readers.iter().position(|reader| reader.number() == number)
}

/// Opens a reader of a backup's file under this number, and gives the number of its bytes; or says which rule that breaks.
pub fn push_reader(
    alloc: Global,
    hosts: &[Host],
    readers: &mut Vec<Reader>,
    next: u64,
    name: &HostName,
    number: u32,
    path: &PathName,
) -> Result<u64, Refusal>
    ensures ok { IfOk result (λ size. opening name.now number path.now next hosts.now readers.old.items
        ≡ Ok (record { size = size; readers = readers.new.items })) }
    ensures err { IfErr result (IsPartRefusal (opening name.now number path.now next hosts.now readers.old.items)) }
    ensures same { OnErr result (readers.new.items ≡ readers.old.items) }
{
    let bytes = file_of(hosts, name, number, path)?;
    if next >= LAST_SEQUENCE {
        return Err(Refusal::Broken(BrokenRule::NumbersSpent));
    }
    let size = bytes.len() as u64;
    readers.push(Reader::new(alloc, next, bytes)?)?;
    Ok(size)
}

/// Gives the next part of a reader, or says which rule that breaks.
fn part_of(
    alloc: Global,
    readers: &mut Vec<Reader>,
    number: u64,
    room: usize,
) -> Result<Bytes, Refusal>
    requires { AreReaders readers.old.items }
    ensures ok { IfOk result (λ part. given room number readers.old.items ≡ Ok (record { part = part; readers = readers.new.items })) }
    ensures err { IfErr result (IsPartRefusal (given room number readers.old.items)) }
    ensures same { OnErr result (readers.new.items ≡ readers.old.items) }
{
    let Some(index) = reader_index(readers, number) else {
        return Err(Refusal::Broken(BrokenRule::NoSession));
    };
    let part = readers[index].part(alloc, room)?;
    readers[index].move_on(part.len());
    Ok(part)
}

/// Gives the next part of a reader, or says which rule that breaks.
#[tactic(auto, unfolding(office_model::specs::Office::piece_limit))]
pub fn read_part(alloc: Global, readers: &mut Vec<Reader>, number: u64) -> Result<Bytes, Refusal>
    requires { AreReaders readers.old.items }
    ensures ok { IfOk result (λ part. given piece_limit number readers.old.items ≡ Ok (record { part = part; readers = readers.new.items })) }
    ensures err { IfErr result (IsPartRefusal (given piece_limit number readers.old.items)) }
    ensures same { OnErr result (readers.new.items ≡ readers.old.items) }
{
    part_of(alloc, readers, number, PIECE_LIMIT)
}

/// Drops a reader, or says which rule that breaks.
pub fn drop_reader(readers: &mut Vec<Reader>, number: u64) -> Result<(), Refusal>
    ensures { IsPartStep (without_reader number readers.old.items) readers.old.items result readers.new.items }
{
    let Some(index) = reader_index(readers, number) else {
        return Err(Refusal::Broken(BrokenRule::NoSession));
    };
    readers.remove(index);
    Ok(())
}

/// Whether a reader gives a content, of at least one byte.
fn gives(reader: &Reader, content: &[u8]) -> bool
    ensures { result ≡ is_same_content content.now (some_bytes reader.now.content) }
{
    match reader.content() {
        [] => false,
        bytes => content == bytes,
    }
}

/// Whether an open reader gives a content.
pub fn in_readers(readers: &[Reader], content: &[u8]) -> bool
    ensures { result ≡ in_readers readers.now content.now }
{
    readers.iter().any(|reader| gives(reader, content))
}
