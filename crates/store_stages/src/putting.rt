//! The bytes of a stage are put into a dump's tree.

ghost use Rattle.std.specs.Prelude.{◌≡◌, ◌<◌, ◌==◌, ℕ, Some, false, true, length, slice_get, slice_set, IfSome, IfNone, IfErr, OnOk, OnErr};
ghost use Rattle.std.specs.List.{position_from};
ghost use Rattle.attr_records.specs.declared.trees.PutRule.{PutRule};
ghost use Rattle.attr_records.specs.Trees.{with_node, IsTree, broken_rule};
ghost use Rattle.attr_tables.specs.declared.records.Record.TheVariants.{File as FileRecord};
ghost use Rattle.attr_tables.specs.Records.{IsContentOf, is_dir};
ghost use Rattle.open_sessions.specs.declared.sessions.OpenDump.{OpenDump};
ghost use Rattle.open_sessions.specs.declared.stages.OpenStage.{OpenStage as Held};
ghost use Rattle.open_sessions.specs.Opened.{OnlyDumps, AreAlike, edited, IsFreshFor};
ghost use Rattle.office_model.specs.declared.event.Event.TheVariants.{Put};
ghost use Rattle.office_model.specs.declared.event.PutItem.TheVariants.{Staged};
ghost use Rattle.receipts.specs.Session.{is_same_session};
ghost use Rattle.store_parts.specs.Runs.{Runs};
ghost use Rattle.store_parts.specs.FoundLaws.{dump_place};
ghost use Rattle.store_dumps.specs.Tokens.{judged_token};
ghost use Rattle.store_stages.specs.Losing.{NamesLost};
ghost use Rattle.store_stages.specs.Ending.{without_stage};

use crate::taking::take_stage;
use attr_records::PathName;
use attr_tables::{Record, StoredFile};
use disk_trait::Disk;
use dump_session::{NodeKind, PutFault};
use office_model::{Answer, BrokenRule, Refusal, SessionName, StagedFile};
use open_sessions::{OpenStage, Sessions, Stages};
use pool_name::Namer;
use receipts::Token;
use std::alloc::Global;
use store_dumps::{EditToken, content_of, judge_edit, refused_put, release};
use store_parts::{StoreParts, refusal_of_pool};

/// Where the open stage of a number is, if it is one of this dump.
fn stage_of<S: Drop>(stages: &Stages<S>, session: SessionName, number: u64) -> Option<usize>
    ensures found { IfSome result (λ at. Some at ≡ position_from (λ stage. stage.number == number) 0 stages.now.items.items) }
    ensures within { IfSome result (λ at. at < length stages.now.items.items) }
    ensures of_dump { IfSome result (λ at. (stage : Held S) → slice_get stages.now.items.items at ≡ Some stage
        → is_same_session stage.dump session ≡ true) }
    ensures none { IfNone result ((at : ℕ) (stage : Held S)
        → Some at ≡ position_from (λ stage. stage.number == number) 0 stages.now.items.items
        → slice_get stages.now.items.items at ≡ Some stage → is_same_session stage.dump session ≡ false) }
{
    let at = match stages.at(number) {
        Some(at) => at,
        None => return None,
    };
    if stages.items[at].dump.is_same(session) {
        Some(at)
    } else {
        None
    }
}

/// Ends the open stage of a number, if it is one of this dump. Takes no memory.
fn end_stage<S: Drop>(stages: &mut Stages<S>, session: SessionName, number: u64)
    ensures left { stages.new.items.items ≡ without_stage stages.old.items.items session number }
    ensures next { stages.new.next ≡ stages.old.next }
{
    match stage_of(stages, session, number) {
        Some(at) => {
            let _stage = stages.take(at);
        }
        None => {}
    }
}

/// The open stage at an index.
fn stage_at<S: Drop>(sessions: &Sessions<S>, index: usize) -> &OpenStage<S>
    requires { index < length sessions.now.stages.items.items }
    ensures { slice_get sessions.now.stages.items.items index ≡ Some result.now }
{
    &sessions.stages.items[index]
}

/// Puts a File into the tree of a dump, which keeps the token then, if there is one; or says that memory is wanting or the first rule
/// that this breaks, and the same is open as before.
fn put_file<S: Drop>(
    sessions: &mut Sessions<S>,
    alloc: Global,
    at: usize,
    path: &PathName,
    file: StoredFile,
    token: Option<Token>,
) -> Result<(), PutFault>
    requires within { at < length sessions.old.dumps.items }
    requires fresh { (dump : OpenDump) → slice_get sessions.old.dumps.items at ≡ Some dump → IsFreshFor dump.kept token }
    requires content { IsContentOf file.size file.content }
    ensures put { OnOk result ((dump : OpenDump) → slice_get sessions.old.dumps.items at ≡ Some dump
        → sessions.new.dumps.items ≡ slice_set sessions.old.dumps.items at (edited dump (with_node dump.tree path.now (FileRecord file)) token)) }
    ensures only { OnOk result (OnlyDumps sessions.old sessions.new) }
    ensures err { OnErr result (AreAlike sessions.old sessions.new) }
    ensures rule { IfErr result (λ fault. (rule : PutRule) (dump : OpenDump) → fault ≡ PutFault.Broken rule
        → slice_get sessions.old.dumps.items at ≡ Some dump → IsTree is_dir dump.tree
        → broken_rule is_dir dump.tree path.now false false ≡ Some rule) }
{
    let path = path.copy(alloc)?;
    sessions.put(at, path, Record::File(file), token)
}

/// Puts the bytes of an open stage of the dump that is there at a path of its tree, as `put_staged` says; no earlier edit of the dump
/// had its token, and there is room for it.
fn put_first<D: Disk, N: Namer>(
    parts: &mut StoreParts<D, N>,
    alloc: Global,
    session: SessionName,
    at: usize,
    path: &PathName,
    file: &StagedFile,
    token: Option<Token>,
) -> Result<Answer, Refusal>
    requires ready { parts.old.halted ≡ false }
    requires journal_ready { parts.old.journal.halted ≡ false }
    requires found { Some at ≡ dump_place parts.old session }
    requires within { at < length parts.old.sessions.dumps.items }
    requires first { (dump : OpenDump) → slice_get parts.old.sessions.dumps.items at ≡ Some dump → judged_token dump.kept token ≡ EditToken.Fresh }
    ensures runs { Runs parts.old (Put session path.now (Staged file.now) token) result parts.new }
    ensures lost { NamesLost parts.old file.now.stage result }
{
    let stage = match stage_of(&parts.sessions.stages, session, file.stage) {
        Some(stage) => stage,
        None => return Err(Refusal::Broken(BrokenRule::NoSession)),
    };
    let dump = parts.sessions.dump(at);
    match dump.tree.check_put(path, NodeKind::File) {
        Ok(()) => {}
        Err(rule) => return Err(Refusal::Broken(BrokenRule::Put(rule))),
    }
    let held = stage_at(&parts.sessions, stage);
    let size = held.size;
    let content = match take_stage(&mut parts.pool, &mut parts.journal, alloc, held) {
        Ok(content) => content,
        Err(fault) => return Err(refusal_of_pool(fault)),
    };
    let before = content_of(parts.sessions.find(at, path));
    let node = StoredFile {
        attr: file.attr,
        group: file.group,
        size,
        content,
    };
    match put_file(&mut parts.sessions, alloc, at, path, node, token) {
        Ok(()) => {
            release(&mut parts.pool, before);
            let _stage = parts.sessions.stages.take(stage);
            Ok(Answer::Done)
        }
        Err(fault) => {
            release(&mut parts.pool, content);
            Err(refused_put(fault))
        }
    }
}

/// Puts the bytes of an open stage of a dump at a path of its tree, in the place of what was there, whose claim is let go. They get
/// the name of the file in the pool that holds them, or are copied to a new one, and the stage ends. After a refusal the stage
/// is open, and nothing has changed but that a file of the pool may have been staged, which is then to be swept.
///
/// With a token it is carried out once: with one that the dump keeps it is Done, before any file is looked at, and the stage ends, if it
/// is one of the dump; after Ok the dump keeps it.
///
/// `Damaged` names the file of the stage, which somebody else has cut or removed. (A stage has no more bytes than a content may have,
/// so none is too large.)
pub fn put_staged<D: Disk, N: Namer>(
    parts: &mut StoreParts<D, N>,
    alloc: Global,
    session: SessionName,
    path: &PathName,
    file: &StagedFile,
    token: Option<Token>,
) -> Result<Answer, Refusal>
    requires ready { parts.old.halted ≡ false }
    requires journal_ready { parts.old.journal.halted ≡ false }
    ensures runs { Runs parts.old (Put session path.now (Staged file.now) token) result parts.new }
    ensures lost { NamesLost parts.old file.now.stage result }
{
    let at = parts.dump(session)?;
    match judge_edit(&parts.sessions.dumps[at].kept, token) {
        EditToken::Fresh => put_first(parts, alloc, session, at, path, file, token),
        EditToken::Kept => {
            end_stage(&mut parts.sessions.stages, session, file.stage);
            Ok(Answer::Done)
        }
        EditToken::Full => Err(Refusal::Broken(BrokenRule::TokensFull)),
    }
}
