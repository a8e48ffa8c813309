//! How far apart the filled backups stand that the counts keep.

ghost use Rattle.std.specs.Prelude.{◌≡◌, ◌≤◌, length};
ghost use Rattle.backup_rules.specs.Ranges.{IsKeepCounts};
ghost use Rattle.keep_rules.specs.Keeping.{gap_of, is_apart, is_kept};
ghost use Rattle.keep_rules.specs.Named.{reach, raised_of};

use crate::groups::{Group, cycle, days};
use backup_rules::{Rules, Setting};

/// The distance to the next older filled backup that keeps one, if so many newer ones are kept: the span of a cycle doubles
/// with each count that they use up, and half a cycle is taken off. None where they use up all counts.
pub fn gap(counts: &[u32], cycle: u64, kept: usize) -> Option<u64>
    requires few { length counts.now ≤ 16 }
    requires small { cycle ≤ 315360000 }
    ensures { result ≡ gap_of cycle counts.now kept }
{
    let half = cycle / 2;
    let mut span = cycle;
    let mut left = kept as u64;
    for &count in counts {
        let count = u64::from(count);
        if left < count {
            return Some(span - half);
        }
        left -= count;
        span *= 2;
    }
    None
}

/// Whether a filled backup stands this far from the next older one, if there is one.
fn is_apart(gap: Option<u64>, start: u64, older: Option<u64>) -> bool
    ensures { result ≡ is_apart gap start older }
{
    match (gap, older) {
        (None, _) => false,
        (Some(_), None) => true,
        (Some(gap), Some(older)) => start
            .checked_sub(older)
            .is_some_and(|distance| distance >= gap),
    }
}

/// Whether the counts keep a filled backup, by the number of newer ones that they keep.
#[tactic(auto, unfolding(crate::specs::Keeping::is_kept))]
pub fn is_kept(group: Group, rules: &Rules, kept: usize, start: u64, older: Option<u64>) -> bool
    ensures { result ≡ is_kept rules.now group kept start older }
{
    let counts = group.counts(rules).as_slice();
    is_apart(gap(counts, cycle(rules), kept), start, older)
}

/// The time that the counts reach back: each count times its span.
fn reach(counts: &[u32], cycle: u64) -> u64
    requires counts { IsKeepCounts counts.now }
    requires small { cycle ≤ 315360000 }
    ensures { result ≡ reach cycle counts.now }
{
    let mut span = cycle;
    let mut total = 0;
    for &count in counts {
        total += u64::from(count) * span;
        span *= 2;
    }
    total
}

/// The age that a filled backup may reach: `FullAgeMax`, or what the counts reach back if that is more.
#[tactic(auto, unfolding(crate::specs::Named::raised_of))]
pub fn raised_age(group: Group, rules: &Rules) -> u64
    ensures { result ≡ raised_of rules.now group }
{
    let counts = group.counts(rules).as_slice();
    days(rules, Setting::FullAgeMax).max(reach(counts, cycle(rules)))
}
