//! The groups of candidates, and what each is judged by.

ghost use Rattle.std.specs.Prelude.{◌≡◌, ◌≤◌, ◌*◌};
ghost use Rattle.backup_rules.specs.Settings.{most};
ghost use Rattle.backup_rules.specs.Values.{number_of};
ghost use Rattle.keep_rules.specs.Groups.{exceeds, is_old, is_side, is_in, days, counts_of, unfilled_of, cycle_of};

use backup_rules::{KeepCounts, Line, Rules, Setting};

/// The seconds of a day.
const DAY: u64 = 86_400;

/// Candidates that are judged together: those whose age exceeds `OldAge` days, or the others.
#[derive(Clone, Copy, Debug, PartialEq, Eq)]
pub enum Group {
    Recent,
    Old,
}

/// A setting of days, in seconds.
pub fn days(rules: &Rules, setting: Setting) -> u64
    ensures value { result ≡ days (number_of rules.now setting) }
    ensures within { result ≤ 86400 * most setting }
{
    u64::from(rules.number(setting)) * DAY
}

/// Whether a backup's age exceeds these seconds; one that starts after now has an age below zero.
#[tactic(auto, using(crate::proofs::Ages::is_above))]
pub fn exceeds(line: &Line, now: u64, seconds: u64) -> bool
    ensures { result ≡ exceeds now seconds line.now }
{
    now.saturating_sub(line.start) > seconds
}

/// Whether a backup's age exceeds `OldAge` days.
fn is_old(line: &Line, rules: &Rules, now: u64) -> bool
    ensures { result ≡ is_old rules.now now line.now }
{
    rules.number(Setting::OldAge) != 0 && exceeds(line, now, days(rules, Setting::OldAge))
}

impl Group {
    /// Whether it has the old backups, or those that aren't.
    fn is_side(self, old: bool) -> bool
        ensures { result ≡ is_side self old }
    {
        match self {
            Group::Recent => !old,
            Group::Old => old,
        }
    }

    /// Whether a backup is in the group. One that is kept whatever the rules say is in none.
    #[tactic(auto, unfolding(crate::specs::Groups::is_in))]
    pub fn has(self, line: &Line, rules: &Rules, now: u64) -> bool
        ensures { result ≡ is_in rules.now now self line.now }
    {
        !line.keep && self.is_side(is_old(line, rules, now))
    }

    /// The numbers of filled backups that are kept at growing distances.
    pub fn counts(self, rules: &Rules) -> &KeepCounts
        ensures { result.now ≡ counts_of rules.now self }
    {
        match self {
            Group::Recent => rules.full_keep_cnt(),
            Group::Old => rules.old_full_keep_cnt(),
        }
    }

    /// The number of unfilled backups that are kept.
    pub fn unfilled_count(self, rules: &Rules) -> u32
        ensures { result ≡ unfilled_of rules.now self }
    {
        match self {
            Group::Recent => rules.number(Setting::IncrKeepCnt),
            Group::Old => rules.number(Setting::OldIncrKeepCnt),
        }
    }
}

/// The seconds of a cycle of filled backups: `FillCycle` days, or `FullPeriod` without a cycle.
pub fn cycle(rules: &Rules) -> u64
    ensures value { result ≡ cycle_of rules.now }
    ensures small { result ≤ 315360000 }
{
    match rules.number(Setting::FillCycle) {
        0 => u64::from(rules.number(Setting::FullPeriod)),
        _ => days(rules, Setting::FillCycle),
    }
}
