//! The open stages.

ghost use Rattle.open_sessions.specs.InTurn.{AreInTurn};
ghost use Rattle.std.specs.Prelude.{◌≡◌, ◌+◌, ◌-◌, ◌<◌, ◌==◌, ◌^◌, ◌++◌, ◌∷◌, [], Some, length, slice_get, IfSome, IfOk, OnOk, OnErr};
ghost use Rattle.std.specs.List.{position_from, remove};
ghost use Rattle.open_sessions.specs.Staging.{IsExtended, without_those_of};

use office_model::SessionName;
use pool_name::Namer;
use std::alloc::{AllocError, Global};

/// An open stage: bytes of a large file of a dump, which come piece by piece into a file of their own. `S` is a digest that
/// is being made.
pub struct OpenStage<S: Drop> {
    pub number: u64,
    /// The dump that it belongs to.
    pub dump: SessionName,
    /// How many bytes came.
    pub size: u64,
    /// Their digest.
    pub digest: S,
}

/// Written out: what is in it is then dropped here, for the prover too, and not in each crate above.
impl<S: Drop> Drop for OpenStage<S> {
    fn drop(self) {
        let OpenStage {
            number: _,
            dump: _,
            size: _,
            digest: _,
        } = self;
    }
}

/// The open stages, in the order of opening: so their numbers strictly rise.
#[derive(Drop)]
pub struct Stages<S: Drop> {
    pub items: Vec<OpenStage<S>>,
    /// The number of the next stage, which no reopening sets back.
    pub next: u64,
    ghost in_turn: { AreInTurn (λ stage. stage.number) next items.items },
}

impl<S: Drop> Stages<S> {
    /// No stage is open, and the next one is number 0.
    pub fn new(alloc: Global) -> Stages<S>
        ensures none { result.items.items ≡ [] }
        ensures first { result.next ≡ 0 }
    {
        Stages {
            items: Vec::new(alloc),
            next: 0,
        }
    }

    /// Where the open stage of this number is, by halving.
    pub fn at(&self, number: u64) -> Option<usize>
        ensures index { result ≡ position_from (λ stage. stage.number == number) 0 self.now.items.items }
        ensures within { IfSome result (λ index. index < length self.now.items.items) }
    {
        match self
            .items
            .binary_search_by(|stage| stage.number.cmp(&number))
        {
            Ok(index) => Some(index),
            Err(_) => None,
        }
    }

    /// Opens a stage without bytes, which has the next number, behind the others; or says that memory is wanting, with
    /// nothing changed.
    pub fn open(&mut self, dump: SessionName, digest: S) -> Result<u64, AllocError>
        requires { self.old.next < 2 ^ 64 - 1 }
        ensures number { IfOk result (λ number. number ≡ self.old.next) }
        ensures ok { OnOk result (self.new.items.items
            ≡ self.old.items.items ++ record { number = self.old.next; dump = dump; size = 0; digest = digest } ∷ []) }
        ensures next { OnOk result (self.new.next ≡ self.old.next + 1) }
        ensures err { OnErr result (self.new.items.items ≡ self.old.items.items) }
        ensures same_next { OnErr result (self.new.next ≡ self.old.next) }
    {
        let number = self.next;
        self.items.push(OpenStage {
            number,
            dump,
            size: 0,
            digest,
        })?;
        self.next += 1;
        Ok(number)
    }

    /// Takes out the stage that is there, and those behind it move up. Takes no memory.
    pub fn take(&mut self, index: usize) -> OpenStage<S>
        requires { index < length self.old.items.items }
        ensures taken { slice_get self.old.items.items index ≡ Some result }
        ensures others { self.new.items.items ≡ remove self.old.items.items index }
        ensures next { self.new.next ≡ self.old.next }
    {
        self.items.remove(index)
    }

    /// Ends the stages of a dump. Takes no memory.
    pub fn end_those_of(&mut self, dump: SessionName)
        ensures left { self.new.items.items ≡ without_those_of dump self.old.items.items }
        ensures next { self.new.next ≡ self.old.next }
    {
        self.items.retain(|stage| !stage.dump.is_same(dump));
    }

    /// Ends all stages. The next one keeps its number.
    pub fn end_all(&mut self)
        ensures none { self.new.items.items ≡ [] }
        ensures next { self.new.next ≡ self.old.next }
    {
        self.items.clear();
    }
}

/// So many bytes came into the stage that is there: its size and its digest take them in.
pub fn extend_stage<N: Namer>(stages: &mut Stages<N::State>, index: usize, namer: &N, bytes: &[u8])
    requires there { index < length stages.old.items.items }
    requires room { (stage : OpenStage N.State) → slice_get stages.old.items.items index ≡ Some stage
        → stage.size + length bytes.now < 2 ^ 64 }
    ensures extended { (stage : OpenStage N.State) → slice_get stages.old.items.items index ≡ Some stage
        → IsExtended N.holds stage bytes.now stages.old.items.items index stages.new.items.items }
    ensures next { stages.new.next ≡ stages.old.next }
{
    let stage = &mut stages.items[index];
    stage.size += bytes.len() as u64;
    namer.update(&mut stage.digest, bytes);
}
