//! Whether a host is left alone, and which dump of it is due.

ghost use Rattle.std.specs.Prelude.{◌≡◌};
ghost use Rattle.std.specs.List.{list_any, list_all};
ghost use Rattle.wake_schedule.specs.Contact.{has_weekday, day_before, holds, blackout_of, is_since, is_no_full_since, due_of};

use crate::zone::Local;
use backup_rules::{Kind, Line, Period, Rules, Setting};

/// Whether a weekday, of which 0 is Sunday, is one of the period's.
fn has_weekday(period: &Period, weekday: u8) -> bool
    ensures { result ≡ has_weekday period.now weekday }
{
    let weekdays = period.weekdays();
    weekday < 7 && (weekdays >> weekday) % 2 == 1
}

/// The weekday of the day before.
fn day_before(weekday: u8) -> u8
    ensures { result ≡ day_before weekday }
{
    ((u16::from(weekday) + 6) % 7) as u8
}

/// Whether the local minute lies in the period. One that passes midnight goes on to its end on the day after.
fn holds(local: &Local, period: &Period) -> bool
    ensures { result ≡ holds local.now period.now }
{
    let begun = has_weekday(period, local.weekday) && period.begin() <= local.minute;
    if period.begin() < period.end() {
        begun && local.minute < period.end()
    } else {
        let goes_on = has_weekday(period, day_before(local.weekday));
        begun || (goes_on && local.minute < period.end())
    }
}

/// Whether a host is left alone: it had `BlackoutGoodCnt` good contacts, and the local minute lies in one of
/// `BlackoutPeriods`.
pub fn blackout(rules: &Rules, good: u32, local: &Local) -> bool
    ensures { result ≡ blackout_of rules.now good local.now }
{
    good >= rules.number(Setting::BlackoutGoodCnt)
        && in_period(rules.blackout_periods().as_slice(), local)
}

/// Whether the local minute lies in one of the periods.
fn in_period(periods: &[Period], local: &Local) -> bool
    ensures { result ≡ list_any (holds local.now) periods.now }
{
    periods.iter().any(|period| holds(local, period))
}

/// Whether a backup began at least so many seconds ago. One that begins after now didn't.
fn is_since(line: &Line, now: u64, seconds: u32) -> bool
    ensures { result ≡ is_since now seconds line.now }
{
    now.checked_sub(line.start)
        .is_some_and(|age| age >= u64::from(seconds))
}

/// Whether no backup began since.
fn no_dump_since(lines: &[Line], now: u64, seconds: u32) -> bool
    ensures { result ≡ list_all (is_since now seconds) lines.now }
{
    lines.iter().all(|line| is_since(line, now, seconds))
}

/// Whether a backup is an incremental, or began at least so many seconds ago.
fn is_no_full_since(line: &Line, now: u64, seconds: u32) -> bool
    ensures { result ≡ is_no_full_since now seconds line.now }
{
    line.kind == Kind::Incr || is_since(line, now, seconds)
}

/// Whether no full began since.
fn no_full_since(lines: &[Line], now: u64, seconds: u32) -> bool
    ensures { result ≡ list_all (is_no_full_since now seconds) lines.now }
{
    lines
        .iter()
        .all(|line| is_no_full_since(line, now, seconds))
}

/// The dump of a host that is due at a moment, in seconds since 1970. A full is due if each full began `FullPeriod` ago or
/// earlier, and each backup `IncrPeriod` ago; else an incremental if the second holds. A host without backups is due a full.
pub fn due(lines: &[Line], rules: &Rules, now: u64) -> Option<Kind>
    ensures { result ≡ due_of rules.now now lines.now }
{
    if !no_dump_since(lines, now, rules.number(Setting::IncrPeriod)) {
        None
    } else if no_full_since(lines, now, rules.number(Setting::FullPeriod)) {
        Some(Kind::Full)
    } else {
        Some(Kind::Incr)
    }
}
