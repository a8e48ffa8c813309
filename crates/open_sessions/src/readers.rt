//! The open readers.

ghost use Rattle.open_sessions.specs.InTurn.{AreInTurn};
ghost use Rattle.std.specs.Prelude.{◌≡◌, ◌+◌, ◌-◌, ◌<◌, ◌==◌, ◌^◌, ◌++◌, ◌∷◌, [], None, Some, length, slice_get, IfSome, IfOk, OnOk, OnErr};
ghost use Rattle.std.specs.List.{position_from, remove};
ghost use Rattle.open_sessions.specs.Giving.{IsJudged, IsPassed};

use disk_trait::PoolId;
use pool_name::Namer;
use std::alloc::{AllocError, Global};

/// An open reader of a file's content. `S` is a digest that is being made.
pub struct OpenReader<S: Drop> {
    pub number: u64,
    /// The content, unless it is empty.
    pub content: Option<PoolId>,
    pub size: u64,
    /// How many bytes were given.
    pub given: u64,
    /// The digest of what was given.
    pub digest: S,
    /// The digest of the whole content, if that isn't the one in its name.
    pub wrong: Option<[u8; 16]>,
}

/// Written out: what is in it is then dropped here, for the prover too, and not in each crate above.
impl<S: Drop> Drop for OpenReader<S> {
    fn drop(self) {
        let OpenReader {
            number: _,
            content: _,
            size: _,
            given: _,
            digest: _,
            wrong: _,
        } = self;
    }
}

/// The open readers, in the order of opening: so their numbers strictly rise.
#[derive(Drop)]
pub struct Readers<S: Drop> {
    pub items: Vec<OpenReader<S>>,
    /// The number of the next reader, which no reopening sets back.
    pub next: u64,
    ghost in_turn: { AreInTurn (λ reader. reader.number) next items.items },
}

impl<S: Drop> Readers<S> {
    /// No reader is open, and the next one is number 0.
    pub fn new(alloc: Global) -> Readers<S>
        ensures none { result.items.items ≡ [] }
        ensures first { result.next ≡ 0 }
    {
        Readers {
            items: Vec::new(alloc),
            next: 0,
        }
    }

    /// Where the open reader of this number is, by halving.
    pub fn at(&self, number: u64) -> Option<usize>
        ensures index { result ≡ position_from (λ reader. reader.number == number) 0 self.now.items.items }
        ensures within { IfSome result (λ index. index < length self.now.items.items) }
    {
        match self
            .items
            .binary_search_by(|reader| reader.number.cmp(&number))
        {
            Ok(index) => Some(index),
            Err(_) => None,
        }
    }

    /// Opens a reader that gave nothing, which has the next number, behind the others; or says that memory is wanting, with
    /// nothing changed.
    pub fn open(&mut self, content: Option<PoolId>, size: u64, digest: S) -> Result<u64, AllocError>
        requires { self.old.next < 2 ^ 64 - 1 }
        ensures number { IfOk result (λ number. number ≡ self.old.next) }
        ensures ok { OnOk result (self.new.items.items ≡ self.old.items.items
            ++ record { number = self.old.next; content = content; size = size; given = 0; digest = digest; wrong = None } ∷ []) }
        ensures next { OnOk result (self.new.next ≡ self.old.next + 1) }
        ensures err { OnErr result (self.new.items.items ≡ self.old.items.items) }
        ensures same_next { OnErr result (self.new.next ≡ self.old.next) }
    {
        let number = self.next;
        self.items.push(OpenReader {
            number,
            content,
            size,
            given: 0,
            digest,
            wrong: None,
        })?;
        self.next += 1;
        Ok(number)
    }

    /// Takes out the reader that is there, and those behind it move up. Takes no memory.
    pub fn take(&mut self, index: usize) -> OpenReader<S>
        requires { index < length self.old.items.items }
        ensures taken { slice_get self.old.items.items index ≡ Some result }
        ensures others { self.new.items.items ≡ remove self.old.items.items index }
        ensures next { self.new.next ≡ self.old.next }
    {
        self.items.remove(index)
    }

    /// Ends all readers. The next one keeps its number.
    pub fn end_all(&mut self)
        ensures none { self.new.items.items ≡ [] }
        ensures next { self.new.next ≡ self.old.next }
    {
        self.items.clear();
    }
}

/// The digest of a reader whose digest took in so many bytes, if they are all of its content and the content's name has
/// another digest.
fn wrong_digest<N: Namer>(namer: &N, reader: &OpenReader<N::State>, given: u64) -> Option<[u8; 16]>
    ensures { IsJudged N.holds N.digest_of reader.now given result }
{
    if given != reader.size {
        return None;
    }
    match reader.content {
        Some(content) => {
            let digest = namer.so_far(&reader.digest);
            if digest == content.digest {
                None
            } else {
                Some(digest)
            }
        }
        None => None,
    }
}

/// The reader that is there gave its next part, which its digest takes in. If that was the last part and the digest of all isn't
/// the one in the content's name, the reader stays where it is, and keeps that digest.
pub fn pass_part<N: Namer>(readers: &mut Readers<N::State>, index: usize, namer: &N, part: &[u8])
    requires there { index < length readers.old.items.items }
    requires room { (reader : OpenReader N.State) → slice_get readers.old.items.items index ≡ Some reader
        → reader.given + length part.now < 2 ^ 64 }
    ensures passed { (reader : OpenReader N.State) → slice_get readers.old.items.items index ≡ Some reader
        → IsPassed N.holds N.digest_of reader part.now readers.old.items.items index readers.new.items.items }
    ensures next { readers.new.next ≡ readers.old.next }
{
    let reader = &mut readers.items[index];
    namer.update(&mut reader.digest, part);
    let given = reader.given + part.len() as u64;
    match wrong_digest(namer, reader, given) {
        Some(digest) => reader.wrong = Some(digest),
        None => reader.given = given,
    }
}
