//! A dump is opened.

ghost use Rattle.std.specs.Prelude.{◌≡◌, ◌==◌, ◌<◌, ◌-◌, ◌^◌, false, is_some, IfOk, OnOk, OnErr};
ghost use Rattle.std.specs.List.{position_from};
ghost use Rattle.std.specs.Arc.{arc_value};
ghost use Rattle.office_model.specs.declared.event.Event.TheVariants.{OpenDump as OpenDumpEvent};
ghost use Rattle.store_parts.specs.Runs.{Runs};
ghost use Rattle.store_dumps.specs.Base.{has_base};
ghost use Rattle.store_dumps.specs.Opening.{further_rule, opening_rule, IsFresh, IsOpened, HasOpened, HasKept, OpensDump};
ghost use Rattle.open_sessions.specs.Opened.{AreAlike};

use crate::base::{Begun, base_of, has_base};
use crate::claims::{claim_dump, reserve_dump};
use crate::tokens::repeated;
use attr_records::HostName;
use attr_tables::Table;
use backup_index::HostIndex;
use backup_rules::Kind;
use disk_trait::Disk;
use dump_session::Session;
use office_model::{Answer, BrokenRule, Refusal, SessionName};
use open_sessions::{OpenDump, Sessions};
use pool_name::Namer;
use receipts::{Token, TokenSet};
use shared_tables::SharedTable;
use std::alloc::{AllocError, Global};
use std::sync::Arc;
use store_parts::StoreParts;
use stream_traits::Moment;

/// The numbers of backups end here.
const NUMBERS: u64 = 1 << 32;

/// The first rule that keeps a further dump of a host from being opened, whatever it begins with.
pub(crate) fn further_rule<S: Drop>(
    sessions: &Sessions<S>,
    host: usize,
    index: &HostIndex,
) -> Option<BrokenRule>
    ensures { result ≡ further_rule (is_some (position_from (λ dump. dump.host == host) 0 sessions.now.dumps.items)) index.now.next sessions.now.sequence }
{
    if sessions.dump_of_host(host).is_some() {
        return Some(BrokenRule::SessionOpen);
    }
    if index.next() >= NUMBERS {
        return Some(BrokenRule::NumbersSpent);
    }
    if sessions.sequence >= u64::MAX {
        return Some(BrokenRule::NumbersSpent);
    }
    None
}

/// The first rule that keeps a dump of a host from being opened.
fn broken_rule<S: Drop>(
    sessions: &Sessions<S>,
    host: usize,
    index: &HostIndex,
    kind: Kind,
) -> Option<BrokenRule>
    ensures { result ≡ opening_rule (has_base kind index.now.lines) (is_some (position_from (λ dump. dump.host == host) 0 sessions.now.dumps.items)) index.now.next sessions.now.sequence }
{
    if !has_base(kind, index.lines().lines()) {
        return Some(BrokenRule::NoBackup);
    }
    further_rule(sessions, host, index)
}

/// A dump whose tree is still its base, opened with this token or with none.
fn fresh_dump(
    alloc: Global,
    name: SessionName,
    host: usize,
    kind: Kind,
    start: u64,
    token: Option<Token>,
    base: Arc<Table>,
    hint: Option<SharedTable>,
) -> Result<OpenDump, AllocError>
    ensures { IfOk result (λ dump. IsFresh name host kind start token (arc_value base) dump) }
{
    let tree = Session::begin_incr(alloc, base.clone()?);
    Ok(OpenDump {
        name,
        host,
        kind,
        start,
        base,
        hint,
        tree,
        token,
        kept: TokenSet::new(alloc),
    })
}

/// Opens a dump with this base and this hint; or says that memory is wanting, and the same is open as before.
fn open_session<S: Drop>(
    sessions: &mut Sessions<S>,
    alloc: Global,
    epoch: u64,
    host: usize,
    kind: Kind,
    start: u64,
    token: Option<Token>,
    base: Arc<Table>,
    hint: Option<SharedTable>,
) -> Result<SessionName, AllocError>
    requires { sessions.old.sequence < 2 ^ 64 - 1 }
    ensures ok { IfOk result (λ name. IsOpened sessions.old epoch host kind start token (arc_value base) name sessions.new) }
    ensures err { OnErr result (AreAlike sessions.old sessions.new) }
{
    let name = SessionName {
        epoch,
        sequence: sessions.sequence,
    };
    let dump = fresh_dump(alloc, name, host, kind, start, token, base, hint)?;
    sessions.open_dump(dump)?;
    Ok(name)
}

/// Opens a dump that begins with these rows, each of which claims its content for the tree and for the base; or says that
/// memory is wanting, and the same is open and claimed as before.
pub(crate) fn open_with<D: Disk, N: Namer>(
    parts: &mut StoreParts<D, N>,
    alloc: Global,
    host: usize,
    kind: Kind,
    start: u64,
    token: Option<Token>,
    begun: Begun,
) -> Result<SessionName, AllocError>
    requires { parts.old.sessions.sequence < 2 ^ 64 - 1 }
    ensures ok { IfOk result (λ name. HasOpened parts.old host kind start token begun.rows name parts.new) }
    ensures err { OnErr result (HasKept parts.old parts.new) }
{
    let Begun { rows, hint } = begun;
    let base = Arc::new(alloc, rows)?;
    let shared = base.clone()?;
    reserve_dump(&mut parts.pool, base.rows(), base.rows())?;
    let epoch = parts.catalog.epoch();
    let name = open_session(
        &mut parts.sessions,
        alloc,
        epoch,
        host,
        kind,
        start,
        token,
        shared,
        hint,
    )?;
    claim_dump(&mut parts.pool, base.rows(), base.rows());
    Ok(name)
}

/// Opens a dump of a host: a full one begins with the empty tree, an incremental with the tree of the host's newest backup,
/// whose contents it claims. After a refusal nothing has changed; `Damaged` names the table of that backup, with what was
/// found of it. A full one reads that table, too, to compare with; it is opened without it if it is damaged, or if there is
/// no memory for it.
///
/// With a token it is carried out once: with that of a receipt of the host it is Already done, and with that of the host's open dump
/// that dump is the answer. Nothing changes then, and no file is read.
pub fn open_dump<D: Disk, N: Namer>(
    parts: &mut StoreParts<D, N>,
    alloc: Global,
    host: &HostName,
    kind: Kind,
    now: Moment,
    token: Option<Token>,
) -> Result<Answer, Refusal>
    requires ready { parts.old.halted ≡ false }
    requires journal_ready { parts.old.journal.halted ≡ false }
    ensures runs { Runs parts.old (OpenDumpEvent host.now kind now token) result parts.new }
    ensures base { OpensDump parts.old host.now kind now token result parts.new }
{
    let at = parts.host(host)?;
    let index = &parts.catalog.hosts()[at];
    match repeated(&parts.sessions, at, index, token) {
        Some(answer) => return Ok(answer),
        None => {}
    }
    match broken_rule(&parts.sessions, at, index, kind) {
        Some(rule) => return Err(Refusal::Broken(rule)),
        None => {}
    }
    let begun = match base_of(parts, alloc, at, kind) {
        Ok(begun) => begun,
        Err(refusal) => return Err(refusal),
    };
    match open_with(parts, alloc, at, kind, now.seconds(), token, begun) {
        Ok(name) => Ok(Answer::Dump(name)),
        Err(_) => Err(Refusal::Memory),
    }
}
