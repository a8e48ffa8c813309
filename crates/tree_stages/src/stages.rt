ghost use Rattle.std.specs.Prelude.{◌≡◌, ◌<◌, length, IfSome};
ghost use Rattle.std.specs.Option.{option_copied};
ghost use Rattle.office_model.specs.Office.{stages_left, stage_index, stage_content};
ghost use Rattle.office_model.specs.events.StageOpen.{with_stage};
ghost use Rattle.office_model.specs.events.StagePiece.{with_piece, is_bad_piece};
ghost use Rattle.office_model.specs.events.StageDrop.{without_stage};
ghost use Rattle.tree_parts.specs.Steps.{IsPartStep};

use attr_records::PutRule;
use disk_trait::Bytes;
use office_model::{BrokenRule, CONTENT_LIMIT, PIECE_LIMIT, Refusal, SessionName};
use std::alloc::{AllocError, Global};
use std::marker::Model;
use tree_parts::{Dump, LAST_SEQUENCE, dump_index};

/// An open stage of an open dump.
pub struct Stage {
    number: u64,
    dump: SessionName,
    bytes: Vec<u8>,
}

impl Model for Stage {
    ghost use Rattle.office_model.specs.Office.{Stage as StageValue};

    ghost Value = { StageValue };

    ghost view = { λ s. record { number = s.number; dump = s.dump; bytes = s.bytes.items } };
}

/// Written out: what is in it is then dropped here, for the prover too, and not in each crate above.
impl Drop for Stage {
    fn drop(self) {
        let Stage {
            number: _,
            dump: _,
            bytes: _,
        } = self;
    }
}

impl Stage {
    ghost use Rattle.std.specs.Prelude.{◌≡◌, OnOk, OnErr};
    ghost use Rattle.office_model.specs.events.StageOpen.{new_stage};
    ghost use Rattle.office_model.specs.events.StagePiece.{with_bytes};

    /// A stage without bytes.
    fn new(alloc: Global, number: u64, dump: SessionName) -> Stage
        ensures { result ≡ new_stage dump number }
    {
        Stage {
            number,
            dump,
            bytes: Vec::new(alloc),
        }
    }

    fn number(&self) -> u64
        ensures { result ≡ self.now.number }
    {
        self.number
    }

    pub(crate) fn dump(&self) -> SessionName
        ensures { result ≡ self.now.dump }
    {
        self.dump
    }

    pub(crate) fn bytes(&self) -> &[u8]
        ensures { result.now ≡ self.now.bytes }
    {
        self.bytes.as_slice()
    }

    /// Adds bytes at the end, or leaves all as it was for want of memory.
    fn extend(&mut self, bytes: &[u8]) -> Result<(), AllocError>
        ensures ok { OnOk result (self.new ≡ with_bytes self.old bytes.now) }
        ensures err { OnErr result (self.new ≡ self.old) }
    {
        self.bytes.extend_from_slice(bytes)?;
        Ok(())
    }
}

/// The place of the open stage of this number.
pub(crate) fn stage_index(stages: &[Stage], number: u64) -> Option<usize>
    ensures index { result ≡ stage_index stages.now number }
    ensures within { IfSome result (λ index. index < length stages.now) }
{
    stages.iter().position(|stage| stage.number() == number)
}

/// Opens a stage of a dump under this number, or says which rule that breaks.
pub fn push_stage(
    alloc: Global,
    dumps: &[Dump],
    stages: &mut Vec<Stage>,
    session: SessionName,
    number: u64,
) -> Result<(), Refusal>
    ensures { IsPartStep (with_stage session number dumps.now stages.old.items) stages.old.items result stages.new.items }
{
    let Some(_index) = dump_index(dumps, session) else {
        return Err(Refusal::Broken(BrokenRule::NoSession));
    };
    if number >= LAST_SEQUENCE {
        return Err(Refusal::Broken(BrokenRule::NumbersSpent));
    }
    stages.push(Stage::new(alloc, number, session))?;
    Ok(())
}

/// Whether a piece has no byte, or too many.
#[tactic(auto, unfolding(office_model::specs::Office::piece_limit))]
fn is_bad_piece(bytes: &[u8]) -> bool
    ensures { result ≡ is_bad_piece bytes.now }
{
    bytes.is_empty() || bytes.len() > PIECE_LIMIT
}

/// Adds a piece to a stage, or says which rule that breaks.
pub fn add_piece(stages: &mut Vec<Stage>, number: u64, bytes: &Bytes) -> Result<(), Refusal>
    ensures { IsPartStep (with_piece number bytes.now stages.old.items) stages.old.items result stages.new.items }
{
    let bytes = bytes.as_slice();
    let Some(index) = stage_index(stages, number) else {
        return Err(Refusal::Broken(BrokenRule::NoSession));
    };
    if is_bad_piece(bytes) {
        return Err(Refusal::Broken(BrokenRule::BadPiece));
    }
    let sum = stages[index].bytes().len() as u64 + bytes.len() as u64;
    if sum > CONTENT_LIMIT {
        return Err(Refusal::Broken(BrokenRule::Put(PutRule::FileTooLarge)));
    }
    stages[index].extend(bytes)?;
    Ok(())
}

/// Drops a stage, or says which rule that breaks.
pub fn drop_stage(stages: &mut Vec<Stage>, number: u64) -> Result<(), Refusal>
    ensures { IsPartStep (without_stage number stages.old.items) stages.old.items result stages.new.items }
{
    let Some(index) = stage_index(stages, number) else {
        return Err(Refusal::Broken(BrokenRule::NoSession));
    };
    stages.remove(index);
    Ok(())
}

/// Takes out the stages of a dump.
pub fn drop_stages(stages: &mut Vec<Stage>, session: SessionName)
    ensures { stages.new.items ≡ stages_left session stages.old.items }
{
    stages.retain(|stage| !stage.dump().is_same(session));
}

/// The bytes of a stage, if it is there and has some.
pub fn stage_content(stages: &[Stage], number: u64) -> Option<&[u8]>
    ensures { option_copied result ≡ stage_content stages.now number }
{
    let index = stage_index(stages, number)?;
    let stage = stages.get(index)?;
    match stage.bytes() {
        [] => None,
        bytes => Some(bytes),
    }
}
