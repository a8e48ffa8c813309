//! All asks that don't rest on answers, from one number.

ghost use Rattle.std.specs.Prelude.{◌≡◌, ◌+◌, ◌<◌, ◌≤◌, ◌++◌, ◌∷◌, [], ◌/◌, OnOk, IfOk};
ghost use Rattle.demo_work.specs.declared.asks.Ask.TheVariants as Q;
ghost use Rattle.demo_work.specs.Plan.{each, each_drawn, put, edit, edits, kind_of, moment_of, dirs, opening, closing, dump, clean, sweep, upkeep, day_of, days, plan};
ghost use Rattle.demo_work.specs.Steps.{Planned};

use crate::asks::Ask;
use crate::draws::Draws;
use backup_rules::Kind;
use std::alloc::{AllocError, Global};
use stream_traits::Moment;

/// How many hosts there are.
const HOSTS: u64 = 4;
/// How many days the job goes on.
const DAYS: u64 = 60;
/// How many directories a dump has, and how many names of files each may have.
const NAMES: u64 = 10;
/// How many buckets the pool has.
const BUCKETS: u8 = 16;

/// Adds the put of a drawn file.
fn push_put(asks: &mut Vec<Ask>, draws: &mut Draws, dir: u64, file: u64) -> Result<(), AllocError>
    ensures { OnOk result (Planned asks.old.items asks.new.items draws.new.state (put dir file draws.old.state)) }
{
    let value = draws.below(50);
    let times = 1 + draws.below(100);
    asks.push(Ask::PutFile {
        dir,
        file,
        value,
        times,
    })?;
    Ok(())
}

/// Adds an edit: in one of four cases a removal, else a put.
#[tactic(auto, unfolding(crate::specs::Plan::edit))]
fn push_edit(asks: &mut Vec<Ask>, draws: &mut Draws) -> Result<(), AllocError>
    ensures { OnOk result (Planned asks.old.items asks.new.items draws.new.state (edit draws.old.state)) }
{
    let dir = draws.below(NAMES);
    let file = draws.below(NAMES);
    if draws.below(4) == 0 {
        asks.push(Ask::Remove { dir, file })?;
        return Ok(());
    }
    push_put(asks, draws, dir, file)
}

/// Adds one to twenty edits.
fn push_edits(asks: &mut Vec<Ask>, draws: &mut Draws) -> Result<(), AllocError>
    ensures { OnOk result (Planned asks.old.items asks.new.items draws.new.state (edits draws.old.state)) }
{
    let count = 1 + draws.below(20);
    for _edit in 0..count {
        push_edit(asks, draws)?;
    }
    Ok(())
}

/// The kind of a host's dump of a day: full once a week. On day 0, before the first commit, the host has no backup, and so it is
/// full, too; each later day has one, since an expiry leaves the newest.
#[tactic(auto, unfolding(crate::specs::Plan::kind_of))]
fn kind_of(day: u64, host: u64) -> Kind
    ensures { result ≡ kind_of day host }
{
    if day % 7 == host || day == 0 {
        Kind::Full
    } else {
        Kind::Incr
    }
}

/// The moment so many seconds behind that of a host's dump of a day.
#[tactic(auto, unfolding(crate::specs::Plan::moment_of))]
fn moment(day: u64, host: u64, seconds: u64) -> Moment
    requires day { day < 60 }
    requires host { host < 4 }
    requires seconds { seconds ≤ 120 }
    ensures { result ≡ moment_of day host + seconds }
{
    match Moment::new(1_700_000_000 + 86_400 * day + 600 * host + seconds) {
        Some(moment) => moment,
        None => unreachable!(),
    }
}

/// Adds a directory of each number.
fn push_dirs(asks: &mut Vec<Ask>) -> Result<(), AllocError>
    ensures { OnOk result (asks.new.items ≡ asks.old.items ++ dirs) }
{
    for dir in 0..NAMES {
        asks.push(Ask::PutDir { dir })?;
    }
    Ok(())
}

/// Adds what opens a host's dump of a day, and its directories.
#[tactic(auto, unfolding(crate::specs::Plan::opening))]
fn push_opening(asks: &mut Vec<Ask>, day: u64, host: u64) -> Result<(), AllocError>
    requires day { day < 60 }
    requires host { host < 4 }
    ensures { OnOk result (asks.new.items ≡ asks.old.items ++ opening day host) }
{
    let kind = kind_of(day, host);
    let now = moment(day, host, 0);
    asks.push(Ask::OpenDump { host, kind, now })?;
    push_dirs(asks)
}

/// Adds the commit of a host's dump of a day, and the expiry behind it.
#[tactic(auto, unfolding(crate::specs::Plan::closing))]
fn push_closing(asks: &mut Vec<Ask>, day: u64, host: u64) -> Result<(), AllocError>
    requires day { day < 60 }
    requires host { host < 4 }
    ensures { OnOk result (asks.new.items ≡ asks.old.items ++ closing day host) }
{
    let now = moment(day, host, 60);
    asks.push(Ask::Commit { now })?;
    let now = moment(day, host, 120);
    asks.push(Ask::Expire { host, now })?;
    Ok(())
}

/// Adds a host's dump of a day, and the expiry behind it.
fn push_dump(asks: &mut Vec<Ask>, draws: &mut Draws, day: u64, host: u64) -> Result<(), AllocError>
    requires day { day < 60 }
    requires host { host < 4 }
    ensures { OnOk result (Planned asks.old.items asks.new.items draws.new.state (dump day host draws.old.state)) }
{
    push_opening(asks, day, host)?;
    push_edits(asks, draws)?;
    push_closing(asks, day, host)?;
    Ok(())
}

/// Adds a dump of each host.
fn push_dumps(asks: &mut Vec<Ask>, draws: &mut Draws, day: u64) -> Result<(), AllocError>
    requires { day < 60 }
    ensures { OnOk result (Planned asks.old.items asks.new.items draws.new.state (each_drawn (dump day) 4 draws.old.state)) }
{
    for host in 0..HOSTS {
        push_dump(asks, draws, day, host)?;
    }
    Ok(())
}

/// Adds the cleaning of a bucket, if it is one of the day's.
fn push_clean(asks: &mut Vec<Ask>, day: u64, bucket: u8) -> Result<(), AllocError>
    ensures { OnOk result (asks.new.items ≡ asks.old.items ++ clean day bucket) }
{
    if u64::from(bucket) % 4 == day % 4 {
        asks.push(Ask::Clean { bucket })?;
    }
    Ok(())
}

/// Adds the cleaning of each of the day's buckets, rising.
fn push_cleans(asks: &mut Vec<Ask>, day: u64) -> Result<(), AllocError>
    ensures { OnOk result (asks.new.items ≡ asks.old.items ++ each (clean day) 16) }
{
    for bucket in 0..BUCKETS {
        push_clean(asks, day, bucket)?;
    }
    Ok(())
}

/// Adds a sweep, once a week.
#[tactic(auto, unfolding(crate::specs::Plan::sweep))]
fn push_sweep(asks: &mut Vec<Ask>, day: u64) -> Result<(), AllocError>
    ensures { OnOk result (asks.new.items ≡ asks.old.items ++ sweep day) }
{
    if day % 7 == 6 {
        asks.push(Ask::Sweep)?;
    }
    Ok(())
}

/// Adds the upkeep of the pool behind a day's dumps: cleanings, and once a week a sweep.
#[tactic(auto, using(crate::proofs::PlanLaws::upkeep_is))]
fn push_upkeep(asks: &mut Vec<Ask>, day: u64) -> Result<(), AllocError>
    ensures { OnOk result (asks.new.items ≡ asks.old.items ++ upkeep day) }
{
    push_cleans(asks, day)?;
    push_sweep(asks, day)
}

/// Adds a day.
fn push_day(asks: &mut Vec<Ask>, draws: &mut Draws, day: u64) -> Result<(), AllocError>
    requires { day < 60 }
    ensures { OnOk result (Planned asks.old.items asks.new.items draws.new.state (day_of day draws.old.state)) }
{
    push_dumps(asks, draws, day)?;
    push_upkeep(asks, day)?;
    Ok(())
}

/// Adds all days.
fn push_days(asks: &mut Vec<Ask>, number: u64) -> Result<(), AllocError>
    ensures { OnOk result (asks.new.items ≡ asks.old.items ++ (days number).0) }
{
    let mut draws = Draws { state: number };
    for day in 0..DAYS {
        push_day(asks, &mut draws, day)?;
    }
    Ok(())
}

/// Adds each host.
fn push_hosts(asks: &mut Vec<Ask>) -> Result<(), AllocError>
    ensures { OnOk result (asks.new.items ≡ asks.old.items ++ each (λ host. Q.AddHost host ∷ []) 4) }
{
    for host in 0..HOSTS {
        asks.push(Ask::AddHost { host })?;
    }
    Ok(())
}

/// Adds the list of each host's backups.
fn push_lists(asks: &mut Vec<Ask>) -> Result<(), AllocError>
    ensures { OnOk result (asks.new.items ≡ asks.old.items ++ each (λ host. Q.Backups host ∷ []) 4) }
{
    for host in 0..HOSTS {
        asks.push(Ask::Backups { host })?;
    }
    Ok(())
}

/// The asks of a number, in their order.
pub(crate) fn plan(alloc: Global, number: u64) -> Result<Vec<Ask>, AllocError>
    ensures { IfOk result (λ asks. asks.items ≡ plan number) }
{
    let mut asks = Vec::new(alloc);
    push_hosts(&mut asks)?;
    push_days(&mut asks, number)?;
    asks.push(Ask::Stats)?;
    push_lists(&mut asks)?;
    Ok(asks)
}
