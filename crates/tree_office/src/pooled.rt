ghost use Rattle.std.specs.Prelude.{◌≡◌, false, IfOk, IfErr, Ok};
ghost use Rattle.std.specs.Option.{unwrap_or};
ghost use Rattle.office_model.specs.declared.refusal.BrokenRule.TheVariants.{NoContent};
ghost use Rattle.office_model.specs.Pool.{mark_of};
ghost use Rattle.office_model.specs.Ids.{content_at};
ghost use Rattle.office_model.specs.Meaning.{found};
ghost use Rattle.office_model.specs.events.PoolList.{items_of};
ghost use Rattle.tree_parts.specs.Steps.{IsPartRefusal};
ghost use Rattle.tree_office.specs.Names.{pooled_in};

use crate::office::MemoryOffice;
use disk_trait::{Bytes, PoolId};
use office_model::{Answer, BrokenRule, PIECE_LIMIT, PoolItemList, Refusal};
use pool_index::IndexItem;
use std::alloc::{AllocError, Global};
use std::collections::BTreeMap;
use tree_parts::{Content, is_pooled};

/// Whether a content is marked; none that isn't pooled is.
fn is_marked(pool: &BTreeMap<Content, bool>, content: &[u8]) -> bool
    ensures { result ≡ unwrap_or (mark_of pool.now.entries content.now) false }
{
    for (pooled, mark) in pool.iter() {
        if content.cmp(pooled.as_slice()).is_eq() {
            return *mark;
        }
    }
    false
}

/// The pooled contents whose digests begin with a byte, or want of memory.
fn items_of(
    alloc: Global,
    part: u8,
    pool: &BTreeMap<Content, bool>,
    ids: &BTreeMap<PoolId, Bytes>,
) -> Result<PoolItemList, AllocError>
    ensures { IfOk result (λ items. items ≡ items_of part pool.now.entries ids.now.entries) }
{
    let mut items = PoolItemList::new(alloc);
    for (id, content) in ids.iter() {
        if id.digest[0] == part {
            let mark = is_marked(pool, content.as_slice());
            let size = content.len() as u64;
            items.push(IndexItem {
                id: *id,
                size,
                mark,
            })?;
        }
    }
    Ok(items)
}

/// The content of a name, or the rule that none has it.
fn content_of(ids: &BTreeMap<PoolId, Bytes>, id: PoolId) -> Result<&Bytes, Refusal>
    ensures ok { IfOk result (λ content. found NoContent (content_at ids.now.entries id) ≡ Ok content.now) }
    ensures err { IfErr result (IsPartRefusal (found NoContent (content_at ids.now.entries id))) }
{
    match ids.get(&id) {
        Some(content) => Ok(content),
        None => Err(Refusal::Broken(BrokenRule::NoContent)),
    }
}

/// Takes out the names of contents that are not pooled.
fn keep_pooled(ids: &mut BTreeMap<PoolId, Bytes>, pool: &BTreeMap<Content, bool>)
    ensures { ids.new.entries ≡ pooled_in pool.now.entries ids.old.entries }
{
    ids.retain(|_, content| is_pooled(pool, content.as_slice()));
}

/// The pool by the names of its contents.
impl MemoryOffice {
    ghost use Rattle.std.specs.Prelude.{◌≡◌};
    ghost use Rattle.office_model.specs.Office.{with_ids};
    ghost use Rattle.office_model.specs.events.PoolList.{carried as pool_list};
    ghost use Rattle.office_model.specs.events.PoolPiece.{carried as pool_piece};
    ghost use Rattle.tree_office.specs.Names.{pooled_in};
    ghost use Rattle.tree_office.specs.Steps.{IsMemoryStep, piece_carried};

    /// Takes those of these names of which the pool has the contents.
    pub(crate) fn take_ids(&mut self, ids: BTreeMap<PoolId, Bytes>)
        ensures { self.new ≡ with_ids self.old (pooled_in self.old.pool ids.entries) }
    {
        self.ids = ids;
        keep_pooled(&mut self.ids, &self.pool);
    }

    pub(crate) fn pool_list(&self, alloc: Global, part: u8) -> Result<Answer, Refusal>
        ensures { IsMemoryStep (pool_list part self.now) self.now result self.now }
    {
        let items = items_of(alloc, part, &self.pool, &self.ids)?;
        Ok(Answer::PoolItems(items))
    }

    /// A piece of at most so many bytes.
    fn piece_in(&self, alloc: Global, id: PoolId, from: u64, room: usize) -> Result<Answer, Refusal>
        ensures { IsMemoryStep (piece_carried room id from self.now) self.now result self.now }
    {
        let content = content_of(&self.ids, id)?;
        Ok(Answer::Part(content.piece(alloc, from, room)?))
    }

    #[tactic(auto, unfolding(office_model::specs::Office::piece_limit))]
    pub(crate) fn pool_piece(&self, alloc: Global, id: PoolId, from: u64) -> Result<Answer, Refusal>
        ensures { IsMemoryStep (pool_piece id from self.now) self.now result self.now }
    {
        self.piece_in(alloc, id, from, PIECE_LIMIT)
    }
}
