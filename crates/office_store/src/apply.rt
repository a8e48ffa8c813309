//! One event of a store, whichever it is.

ghost use Rattle.std.specs.Prelude.{◌≡◌, ◌||◌, false};
ghost use Rattle.journal_view.specs.View.{told};
ghost use Rattle.office_store.specs.Damage.{IsThere, SaysOfFiles, WritesNoFile};
ghost use Rattle.office_store.specs.Serves.{is_reopen};
ghost use Rattle.store_parts.specs.Runs.{Runs};

use crate::store::Store;
use disk_trait::Disk;
use office_model::{Answer, Event, PutItem, Refusal};
use pool_name::Namer;
use std::alloc::Global;
use store_checks::{pool_list, pool_piece};
use store_cleaning::{clean, sweep};
use store_commits::{adopt_dump, commit_dump};
use store_deletions::{delete, expire};
use store_dumps::{abort, open_dump, put, remove, resume};
use store_hosts::{add_host, backups, contact, due, hosts, keep, set_rules, stats};
use store_migrations::migrate;
use store_partials::{drop_partial, park, partial_info};
use store_parts::StoreParts;
use store_readers::{close_file, open_file, read_part};
use store_reads::{list, lookup, read_file};
use store_restores::{close_read, open_read, read_next};
use store_stages::{put_staged, stage_drop, stage_open, stage_piece};

/// Whether an event opens the store again.
fn is_reopen(event: &Event) -> bool
    ensures { result ≡ is_reopen event.now }
{
    matches!(event, Event::Reopen)
}

/// Carries out an event of parts at work.
fn carry_out<D: Disk, N: Namer>(
    parts: &mut StoreParts<D, N>,
    alloc: Global,
    event: &Event,
) -> Result<Answer, Refusal>
    requires ready { parts.old.halted ≡ false }
    requires journal_ready { parts.old.journal.halted ≡ false }
    requires other { is_reopen event.now ≡ false }
    ensures runs { Runs parts.old event.now result parts.new }
    ensures there { IsThere parts.old event.now result }
    ensures files { SaysOfFiles parts.old event.now result parts.new }
    ensures quiet { WritesNoFile event.now → told parts.new.journal ≡ told parts.old.journal }
{
    match event {
        Event::AddHost { host, rules } => add_host(parts, alloc, host, rules),
        Event::SetRules { host, change } => set_rules(parts, alloc, host, change),
        Event::OpenDump {
            host,
            kind,
            now,
            token,
        } => open_dump(parts, alloc, host, *kind, *now, *token),
        Event::Put {
            dump,
            path,
            item,
            token,
        } => match item {
            PutItem::Whole(item) => put(parts, alloc, *dump, path, item, *token),
            PutItem::Staged(file) => put_staged(parts, alloc, *dump, path, file, *token),
        },
        Event::Remove { dump, path, token } => remove(parts, alloc, *dump, path, *token),
        Event::StageOpen { dump } => stage_open(parts, *dump),
        Event::StagePiece { stage, bytes } => stage_piece(parts, *stage, bytes.as_slice()),
        Event::StageDrop { stage } => stage_drop(parts, *stage),
        Event::Commit { dump, now } => commit_dump(parts, alloc, *dump, *now),
        Event::Adopt {
            dump,
            number,
            start,
            end,
            kind,
        } => adopt_dump(parts, alloc, *dump, *number, *start, *end, *kind),
        Event::Abort { dump } => abort(parts, alloc, *dump),
        Event::Park { dump } => park(parts, alloc, *dump),
        Event::Resume { host } => resume(parts, alloc, host),
        Event::DropPartial { host } => drop_partial(parts, alloc, host),
        Event::PartialInfo { host } => partial_info(parts, host),
        Event::List {
            host,
            number,
            directory,
        } => list(parts, alloc, host, *number, directory.as_ref()),
        Event::Lookup { host, number, path } => lookup(parts, alloc, host, *number, path),
        Event::ReadFile { host, number, path } => read_file(parts, alloc, host, *number, path),
        Event::OpenFile { host, number, path } => open_file(parts, alloc, host, *number, path),
        Event::ReadPart { reader } => read_part(parts, alloc, *reader),
        Event::CloseFile { reader } => close_file(parts, *reader),
        Event::OpenRead { host, number, base } => open_read(parts, alloc, host, *number, *base),
        Event::ReadNext { restore } => read_next(parts, alloc, *restore),
        Event::CloseRead { restore } => close_read(parts, *restore),
        Event::Keep { host, number, on } => keep(parts, alloc, host, *number, *on),
        Event::Delete { host, number } => delete(parts, alloc, host, *number),
        Event::Expire { host, now } => expire(parts, alloc, host, *now),
        Event::Migrate { host } => migrate(parts, alloc, host),
        Event::Contact { host, good } => contact(parts, alloc, host, *good),
        Event::Due { host, now, local } => due(parts, host, *now, local),
        Event::Clean { bucket } => clean(parts, alloc, *bucket),
        Event::Sweep => sweep(parts, alloc),
        Event::Stats => stats(parts),
        Event::Hosts => hosts(parts, alloc),
        Event::Backups { host } => backups(parts, alloc, host),
        Event::PoolList { part } => pool_list(parts, alloc, *part),
        Event::PoolPiece { id, from } => pool_piece(parts, alloc, *id, *from),
        Event::Reopen => unreachable!(),
    }
}

impl<D: Disk, N: Namer> Store<D, N> {
    ghost use Rattle.office_model.specs.declared.event.Event.TheVariants.{Reopen};
    ghost use Rattle.store_opening.specs.Reopens.{Reopens};
    ghost use Rattle.office_store.specs.Serves.{Serves};

    /// Whether the store is halted: a commit or an opening failed since it was last opened.
    pub fn is_halted(&self) -> bool
        ensures { result ≡ (self.now.parts.halted || self.now.parts.journal.halted) }
    {
        self.parts.halted || self.parts.journal.halted()
    }

    /// Carries out one event, as one step of the office. A halted store answers `Halted` to each but `Reopen`.
    ///
    /// After Ok what it did is durable. After a refusal the office is as it was, but for `DiskFault` of an event that commits,
    /// which halts the store: it then answers `Halted` until a `Reopen` finds which of two offices the disk has.
    ///
    /// A `Reopen` opens the store again, whether it is at work or halted. After Ok it is at work in the next epoch, with the
    /// office that was durable, or of a halted one the one of its two that the disk has; open dumps, restores, stages and readers
    /// are gone, and the numbers of stages and readers go on. After `Broken` and `Memory` it is as it was. After `DiskFault` it is
    /// halted, and the disk has the office as it was or in its next epoch; so after `Damaged`, which never comes on a disk that a
    /// store left.
    pub fn apply(&mut self, alloc: Global, event: &Event) -> Result<Answer, Refusal>
        ensures serves { Serves self.old event.now result self.new }
        ensures reopens { event.now ≡ Reopen → Reopens self.old.parts result self.new.parts }
    {
        if is_reopen(event) {
            return store_opening::reopen(&mut self.parts, alloc, self.namer);
        }
        if self.is_halted() {
            return Err(Refusal::Halted);
        }
        carry_out(&mut self.parts, alloc, event)
    }
}
