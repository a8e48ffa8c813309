//! The walk over a group, from the newest backup to the oldest.

ghost use Rattle.std.specs.Prelude.{◌≡◌, ◌<◌, ◌≤◌, ◌+◌, cond, true, not, ◌&&◌, length};
ghost use Rattle.keep_rules.specs.Groups.{is_in};
ghost use Rattle.keep_rules.specs.Keeping.{is_kept, next_older};
ghost use Rattle.keep_rules.specs.Named.{names_filled, names_unfilled};
ghost use Rattle.keep_rules.specs.Walk.{judged, walked};

use crate::gaps::{is_kept, raised_age};
use crate::groups::{Group, days, exceeds};
use backup_rules::{Line, Rules, Setting};

/// What a group has among the newer lines: the filled backups that the counts keep, all filled ones, and the unfilled ones.
#[derive(Clone, Copy, Debug)]
pub struct Newer {
    kept: usize,
    filled: usize,
    unfilled: usize,
}

/// The start of the next older filled backup of the group.
fn next_older(group: Group, older: &[Line], rules: &Rules, now: u64) -> Option<u64>
    ensures { result ≡ next_older rules.now now group older.now }
{
    for index in (0..older.len()).rev() {
        let line = &older[index];
        if group.has(line, rules, now) && line.filled {
            return Some(line.start);
        }
    }
    None
}

impl Newer {
    /// Whether the rules name a filled backup of the group.
    fn names_filled(&self, kept: bool, group: Group, line: &Line, rules: &Rules, now: u64) -> bool
        ensures { result ≡ names_filled rules.now now group kept self.now.filled line.now }
    {
        let spare = self.filled as u64 >= u64::from(rules.number(Setting::FullKeepCntMin));
        !kept || (spare && exceeds(line, now, raised_age(group, rules)))
    }

    /// Whether the rules name an unfilled backup of the group.
    fn names_unfilled(&self, group: Group, line: &Line, rules: &Rules, now: u64) -> bool
        ensures { result ≡ names_unfilled rules.now now group self.now.unfilled line.now }
    {
        let rank = self.unfilled as u64;
        let spare = rank >= u64::from(rules.number(Setting::IncrKeepCntMin));
        rank >= u64::from(group.unfilled_count(rules))
            || (spare && exceeds(line, now, days(rules, Setting::IncrAgeMax)))
    }

    /// Whether the rules name a backup of the group, which is then one of the newer ones.
    fn judge(&mut self, group: Group, line: &Line, older: &[Line], rules: &Rules, now: u64) -> bool
        requires kept { self.old.kept < usize.MAX }
        requires filled { self.old.filled < usize.MAX }
        requires unfilled { self.old.unfilled < usize.MAX }
        ensures named { let next = next_older rules.now now group older.now in
            result ≡ judged rules.now now group next line.now self.old.kept self.old.filled self.old.unfilled }
        ensures kept { let next = next_older rules.now now group older.now in
            self.new.kept ≡ cond (line.now.filled && is_kept rules.now group self.old.kept line.now.start next) 1 0 + self.old.kept }
        ensures filled { self.new.filled ≡ cond line.now.filled 1 0 + self.old.filled }
        ensures unfilled { self.new.unfilled ≡ cond (not line.now.filled) 1 0 + self.old.unfilled }
    {
        if !line.filled {
            let named = self.names_unfilled(group, line, rules, now);
            self.unfilled += 1;
            return named;
        }
        let next = next_older(group, older, rules, now);
        let kept = is_kept(group, rules, self.kept, line.start, next);
        let named = self.names_filled(kept, group, line, rules, now);
        self.filled += 1;
        self.kept += usize::from(kept);
        named
    }
}

/// Flags each backup of a group that the rules name, and takes the flag of each other one of the group; the flags of backups
/// of no group and of the other group stay.
pub fn judge_group(group: Group, lines: &[Line], rules: &Rules, now: u64, out: &mut [bool])
    requires { length lines.now ≤ length out.old }
    ensures { out.new ≡ walked rules.now now group None lines.now out.old }
{
    let mut newer = Newer {
        kept: 0,
        filled: 0,
        unfilled: 0,
    };
    for index in (0..lines.len()).rev() {
        let line = &lines[index];
        if group.has(line, rules, now) {
            out[index] = newer.judge(group, line, &lines[..index], rules, now);
        }
    }
}
