ghost use Rattle.std.specs.Prelude.{◌≡◌, ◌<◌, length, nat_lt, slice_get, IfSome, IfNone, IfOk, IfErr, OnErr, Ok, Err, Some};
ghost use Rattle.attr_records.specs.Items.{is_dir};
ghost use Rattle.attr_records.specs.Trees.{broken_put};
ghost use Rattle.attr_records.specs.declared.nodes.Item.TheVariants.{File as FileItem};
ghost use Rattle.office_model.specs.declared.refusal.BrokenRule.TheVariants.{NoSession};
ghost use Rattle.office_model.specs.Office.{Stage as StageValue, content_limit};
ghost use Rattle.office_model.specs.events.Put.{with_put, with_staged, staged_item, stage_of, without_stage, is_over};
ghost use Rattle.tree_parts.specs.Steps.{IsPartStep, IsPartRefusal};
ghost use Rattle.tree_stages.specs.Puts.{or_large};

use crate::stages::{Stage, stage_index};
use attr_records::{File, Item, PathName, PutRule, broken_put_file};
use disk_trait::Bytes;
use office_model::{BrokenRule, CONTENT_LIMIT, Refusal, SessionName, StagedFile};
use std::alloc::{AllocError, Global};
use tree_parts::{Dump, dump_index};

/// The rule that was broken first, or that the size is above the limit of a content.
fn or_over(rule: Option<PutRule>, size: u64) -> Option<PutRule>
    ensures { result ≡ or_large rule (nat_lt content_limit size) }
{
    match rule {
        Some(rule) => Some(rule),
        None if size > CONTENT_LIMIT => Some(PutRule::FileTooLarge),
        None => None,
    }
}

/// The first rule that putting a File of a stage's bytes at a path breaks.
fn broken_put_staged(
    alloc: Global,
    dump: &Dump,
    path: &PathName,
    file: &File,
) -> Result<Option<PutRule>, AllocError>
    ensures { IfOk result (λ rule. rule ≡ broken_put is_dir is_over dump.now.tree path.now (FileItem file.now)) }
{
    let rule = broken_put_file(alloc, dump.tree(), path, 0)?;
    Ok(or_over(rule, file.bytes.len() as u64))
}

/// Puts a File of a stage's bytes into an open dump, or says which rule that breaks; whether the chain of its digest is full
/// is handed in.
fn put_staged_file(
    alloc: Global,
    dumps: &mut Vec<Dump>,
    session: SessionName,
    path: &PathName,
    file: File,
    full: bool,
) -> Result<(), Refusal>
    ensures { IsPartStep (with_put is_over session path.now (FileItem file) full dumps.old.items) dumps.old.items result dumps.new.items }
{
    let Some(index) = dump_index(dumps, session) else {
        return Err(Refusal::Broken(BrokenRule::NoSession));
    };
    if let Some(rule) = broken_put_staged(alloc, &dumps[index], path, &file)? {
        return Err(Refusal::Broken(BrokenRule::Put(rule)));
    }
    if full {
        return Err(Refusal::Broken(BrokenRule::ChainFull));
    }
    dumps[index].put(alloc, path, &Item::File(file))?;
    Ok(())
}

/// The place of the stage of this number, if it is one of the dump.
fn stage_of(stages: &[Stage], session: SessionName, number: u64) -> Option<usize>
    ensures found { IfSome result (λ index. (stage : StageValue) → slice_get stages.now index ≡ Some stage
        → stage_of stages.now session number ≡ Ok (record { index = index; value = stage })) }
    ensures within { IfSome result (λ index. index < length stages.now) }
    ensures none { IfNone result (stage_of stages.now session number ≡ Err NoSession) }
{
    let index = stage_index(stages, number)?;
    if !stages[index].dump().is_same(session) {
        return None;
    }
    Some(index)
}

/// Drops the stage of this number, if it is one of the dump.
pub fn drop_stage_of(stages: &mut Vec<Stage>, session: SessionName, number: u64)
    ensures { stages.new.items ≡ without_stage (stage_of stages.old.items session number) stages.old.items }
{
    let Some(index) = stage_of(stages, session, number) else {
        return;
    };
    stages.remove(index);
}

/// The File that a stage's bytes make, or want of memory.
fn staged_file(alloc: Global, file: &StagedFile, bytes: &[u8]) -> Result<File, AllocError>
    ensures { IfOk result (λ made. FileItem made ≡ staged_item file.now bytes.now) }
{
    Ok(File {
        attr: file.attr,
        group: file.group,
        bytes: Bytes::from_slice(alloc, bytes)?,
    })
}

/// Puts a File of a stage's bytes into an open dump, which drops the stage, or says which rule that breaks; whether the
/// chain of its digest is full is handed in.
pub fn put_staged(
    alloc: Global,
    dumps: &mut Vec<Dump>,
    stages: &mut Vec<Stage>,
    session: SessionName,
    path: &PathName,
    file: &StagedFile,
    full: bool,
) -> Result<(), Refusal>
    ensures ok { IfOk result (λ _. with_staged session path.now file.now full dumps.old.items stages.old.items
        ≡ Ok (record { dumps = dumps.new.items; stages = stages.new.items })) }
    ensures err { IfErr result (IsPartRefusal (with_staged session path.now file.now full dumps.old.items stages.old.items)) }
    ensures same_dumps { OnErr result (dumps.new.items ≡ dumps.old.items) }
    ensures same_stages { OnErr result (stages.new.items ≡ stages.old.items) }
{
    let Some(index) = stage_of(stages, session, file.stage) else {
        return Err(Refusal::Broken(BrokenRule::NoSession));
    };
    let file = staged_file(alloc, file, stages[index].bytes())?;
    put_staged_file(alloc, dumps, session, path, file, full)?;
    stages.remove(index);
    Ok(())
}
