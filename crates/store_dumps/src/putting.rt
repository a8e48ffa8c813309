//! A node is put: the content of a file is staged first.

ghost use Rattle.std.specs.Prelude.{◌≡◌, ◌<◌, ℕ, List, Option, false, Some, None, length, slice_get, slice_set, IfOk, IfErr, OnOk, OnErr, IsErrOf};
ghost use Rattle.std.specs.Option.{option_copied};
ghost use Rattle.fault_counts.specs.Counts.{Counted};
ghost use Rattle.disk_trait.specs.declared.ids.PoolId.{PoolId};
ghost use Rattle.disk_trait.specs.Files.{Files};
ghost use Rattle.disk_trait.specs.Images.{Leaves};
ghost use Rattle.intent_journal.specs.Overlay.{ComesTo};
ghost use Rattle.attr_records.specs.declared.trees.PutRule.{PutRule};
ghost use Rattle.attr_records.specs.Items.{is_dir as is_dir_item, is_large};
ghost use Rattle.attr_records.specs.Trees.{with_node, IsTree, broken_rule};
ghost use Rattle.attr_tables.specs.Records.{IsContentOf, is_dir};
ghost use Rattle.dump_session.specs.Kinds.{is_dir_kind};
ghost use Rattle.pool_changes.specs.Kept.{slots_of};
ghost use Rattle.pool_changes.specs.Slots.{unlisted};
ghost use Rattle.pool_store.specs.Chains.{SaysDamaged, SaysGiven};
ghost use Rattle.pool_store.specs.Pools.{Misses, IsCertain, IsNotForeign};
ghost use Rattle.open_sessions.specs.declared.sessions.OpenDump.{OpenDump};
ghost use Rattle.office_model.specs.declared.event.Event.TheVariants.{Put};
ghost use Rattle.office_model.specs.declared.event.PutItem.TheVariants.{Whole};
ghost use Rattle.tree_frames.specs.Frames.{bytes_of};
ghost use Rattle.office_model.specs.History.{IsUndamaged};
ghost use Rattle.store_parts.specs.Runs.{Runs};
ghost use Rattle.open_sessions.specs.Opened.{OnlyDumps, AreAlike, edited, IsFreshFor};
ghost use Rattle.store_dumps.specs.Putting.{record_for, content_found, TakesIn, refused_put};

use crate::claims::release;
use crate::comparing::{claim_again, held_by, likely_content};
use crate::tokens::{EditToken, judge_edit};
use attr_records::{Item, PathName, PutRule};
use attr_tables::{Record, StoredFile};
use disk_trait::{Disk, PoolId};
use dump_session::{NodeKind, PutFault, Session};
use intent_journal::Journal;
use office_model::{Answer, BrokenRule, Refusal, SessionName};
use open_sessions::Sessions;
use pool_name::Namer;
use pool_store::{Pool, PoolFault};
use receipts::Token;
use std::alloc::{AllocError, Global};
use store_parts::{StoreParts, refusal_of_pool};

/// The refusal that a fault of a dump's tree is.
pub fn refused_put(fault: PutFault) -> Refusal
    ensures { result ≡ refused_put fault }
{
    match fault {
        PutFault::Broken(rule) => Refusal::Broken(BrokenRule::Put(rule)),
        PutFault::Memory => Refusal::Memory,
    }
}

/// The bytes of a file, none of another node.
fn bytes_of(item: &Item) -> &[u8]
    ensures { result.now ≡ bytes_of item.now }
{
    match item {
        Item::File(file) => file.bytes.as_slice(),
        Item::Dir(_) => &[],
        Item::Link(_) => &[],
    }
}

fn kind_of(item: &Item) -> NodeKind
    ensures { is_dir_kind result ≡ is_dir_item item.now }
{
    match item {
        Item::File(_) => NodeKind::File,
        Item::Dir(_) => NodeKind::Dir,
        Item::Link(_) => NodeKind::Link,
    }
}

/// The first rule of trees that a put breaks.
fn broken_rule(tree: &Session, path: &PathName, item: &Item) -> Option<PutRule>
    ensures { IsTree is_dir tree.now → result ≡ broken_rule is_dir tree.now path.now (is_dir_item item.now) (is_large item.now) }
{
    match tree.check_put(path, kind_of(item)) {
        Err(rule) => Some(rule),
        Ok(()) => {
            if item.is_large() {
                Some(PutRule::FileTooLarge)
            } else {
                None
            }
        }
    }
}

/// The name of a content, which is staged if it is new, and claimed; none if there are no bytes. Bytes that the likely content
/// holds have its name, and no digest is made; all others are hashed.
fn stage<D: Disk, N: Namer>(
    pool: &mut Pool<N>,
    journal: &mut Journal<D>,
    alloc: Global,
    likely: Option<PoolId>,
    bytes: &[u8],
) -> Result<Option<PoolId>, PoolFault>
    requires { journal.old.halted ≡ false }
    ensures takes { IfOk result (λ content. TakesIn N.digest_of (slots_of pool.old.names) (slots_of pool.new.names) (D.files journal.old.disk) (D.files journal.new.disk) content bytes.now) }
    ensures shape { IfOk result (λ content. IsContentOf (length bytes.now) content) }
    ensures misses { IfErr result (λ fault. Misses N.digest_of (slots_of pool.old.names) (slots_of pool.new.names) (D.files journal.old.disk) (D.files journal.new.disk) bytes.now fault) }
    ensures some { OnErr result (0 < length bytes.now) }
    ensures damaged { IfErr result (SaysDamaged N.digest_of (D.files journal.old.disk)) }
    ensures given { IfErr result (SaysGiven (slots_of pool.old.names)) }
    ensures kind { IfErr result IsNotForeign }
    ensures undamaged { IfErr result (λ fault. (other : PoolId) (found : Option (List ℕ)) → fault ≡ PoolFault.Damaged other found → ⊥) }
    ensures certain { IsCertain (slots_of pool.old.names) (D.uncertain journal.old.disk) → IsCertain (slots_of pool.old.names) (D.uncertain journal.new.disk) }
    ensures crash { (all : Files) → D.files journal.old.disk ≡ Some all → IsCertain (slots_of pool.old.names) (D.uncertain journal.old.disk)
        → Leaves D.moment D.left_since journal.old.disk journal.new.disk (ComesTo all (unlisted (slots_of pool.old.names))) }
    ensures form { pool.new.in_one_file ≡ pool.old.in_one_file }
    ensures stays { journal.new.halted ≡ journal.old.halted }
    ensures counted { Counted (D.fault_count journal.old.disk) (D.fault_count journal.new.disk) (IsErrOf result PoolFault.Disk) }
{
    if bytes.is_empty() {
        return Ok(None);
    }
    match held_by(pool, journal, alloc, likely, bytes) {
        Ok(Some(id)) => {
            return match claim_again(pool, id) {
                Ok(()) => Ok(Some(id)),
                Err(_) => Err(PoolFault::Memory),
            };
        }
        Ok(None) => {}
        Err(fault) => return Err(fault),
    }
    match pool.match_or_stage(alloc, journal, bytes) {
        Ok(id) => Ok(Some(id)),
        Err(fault) => Err(fault),
    }
}

/// The record of an item whose bytes are kept under this name, or want of memory.
fn record_of(alloc: Global, item: &Item, content: Option<PoolId>) -> Result<Record, AllocError>
    ensures { IfOk result (λ node. node ≡ record_for item.now content) }
{
    match item {
        Item::File(file) => Ok(Record::File(StoredFile {
            attr: file.attr,
            group: file.group,
            size: file.bytes.len() as u64,
            content,
        })),
        Item::Dir(dir) => Ok(Record::Dir(*dir)),
        Item::Link(link) => Ok(Record::Link(link.copy(alloc)?)),
    }
}

/// The name of the content of what was found, if it has one.
pub fn content_of(found: Option<&Record>) -> Option<PoolId>
    ensures { result ≡ content_found (option_copied found.entry) }
{
    match found {
        Some(Record::File(file)) => file.content,
        _ => None,
    }
}

/// Puts an item into the tree of a dump, its bytes under this name, and the dump keeps the token, if there is one; or says that
/// memory is wanting or the first rule that this breaks, and the same is open as before.
fn put_item<S: Drop>(
    sessions: &mut Sessions<S>,
    alloc: Global,
    at: usize,
    path: &PathName,
    item: &Item,
    content: Option<PoolId>,
    token: Option<Token>,
) -> Result<(), PutFault>
    requires within { at < length sessions.old.dumps.items }
    requires fresh { (dump : OpenDump) → slice_get sessions.old.dumps.items at ≡ Some dump → IsFreshFor dump.kept token }
    requires content { IsContentOf (length (bytes_of item.now)) content }
    ensures put { OnOk result ((dump : OpenDump) → slice_get sessions.old.dumps.items at ≡ Some dump
        → sessions.new.dumps.items ≡ slice_set sessions.old.dumps.items at (edited dump (with_node dump.tree path.now (record_for item.now content)) token)) }
    ensures only { OnOk result (OnlyDumps sessions.old sessions.new) }
    ensures err { OnErr result (AreAlike sessions.old sessions.new) }
    ensures rule { IfErr result (λ fault. (rule : PutRule) (dump : OpenDump) → fault ≡ PutFault.Broken rule
        → slice_get sessions.old.dumps.items at ≡ Some dump → IsTree is_dir dump.tree
        → broken_rule is_dir dump.tree path.now (is_dir_item item.now) false ≡ Some rule) }
{
    let path = path.copy(alloc)?;
    let node = record_of(alloc, item, content)?;
    sessions.put(at, path, node, token)
}

/// Puts a node into the tree of an open dump, in the place of what was there, whose claim is let go. The bytes of a file get
/// the name of the file in the pool that holds them, or are staged under a new one. After a refusal nothing has changed but
/// that a file may have been staged, which is then to be swept.
///
/// With a token it is carried out once: with one that the dump keeps it is Done, before any file is looked at, and nothing changes;
/// after Ok the dump keeps it.
pub fn put<D: Disk, N: Namer>(
    parts: &mut StoreParts<D, N>,
    alloc: Global,
    session: SessionName,
    path: &PathName,
    item: &Item,
    token: Option<Token>,
) -> Result<Answer, Refusal>
    requires ready { parts.old.halted ≡ false }
    requires journal_ready { parts.old.journal.halted ≡ false }
    ensures runs { Runs parts.old (Put session path.now (Whole item.now) token) result parts.new }
    ensures undamaged { IsUndamaged result }
{
    let at = parts.dump(session)?;
    let dump = parts.sessions.dump(at);
    match judge_edit(&dump.kept, token) {
        EditToken::Fresh => {}
        EditToken::Kept => return Ok(Answer::Done),
        EditToken::Full => return Err(Refusal::Broken(BrokenRule::TokensFull)),
    }
    match broken_rule(&dump.tree, path, item) {
        Some(rule) => return Err(Refusal::Broken(BrokenRule::Put(rule))),
        None => {}
    }
    let bytes = bytes_of(item);
    let likely = likely_content(&parts.sessions, at, path, bytes.len());
    let content = match stage(&mut parts.pool, &mut parts.journal, alloc, likely, bytes) {
        Ok(content) => content,
        Err(fault) => return Err(refusal_of_pool(fault)),
    };
    let before = content_of(parts.sessions.find(at, path));
    match put_item(&mut parts.sessions, alloc, at, path, item, content, token) {
        Ok(()) => {
            release(&mut parts.pool, before);
            Ok(Answer::Done)
        }
        Err(fault) => {
            release(&mut parts.pool, content);
            Err(refused_put(fault))
        }
    }
}
