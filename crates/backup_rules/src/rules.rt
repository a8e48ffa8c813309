ghost use Rattle.std.specs.Prelude.{◌≡◌, IfOk};
ghost use Rattle.backup_rules.specs.Values.{rules_from, number_of};
ghost use Rattle.backup_rules.specs.Ranges.{IsOf, IsRules};
ghost use Rattle.backup_rules.specs.Changes.{default_rules, changed};

use crate::change::RuleChange;
use crate::counts::KeepCounts;
use crate::numbers::Numbers;
use crate::periods::Periods;
use crate::settings::Setting;
use std::alloc::{AllocError, Global};
use std::marker::Model;

/// The settings of a host, each in its range.
#[derive(Debug)]
pub struct Rules {
    numbers: Numbers,
    full_keep_cnt: KeepCounts,
    blackout_periods: Periods,
    old_full_keep_cnt: KeepCounts,
}

impl Model for Rules {
    ghost use Rattle.backup_rules.specs.Values.{RuleSet, rules_from};
    ghost use Rattle.backup_rules.specs.Ranges.{IsRules};

    ghost Value = { RuleSet };

    ghost view = { λ r. rules_from r.numbers r.full_keep_cnt r.blackout_periods r.old_full_keep_cnt };

    ghost invariant = { λ r. IsRules (rules_from r.numbers r.full_keep_cnt r.blackout_periods r.old_full_keep_cnt) };
}

/// Written out: what is in it is then dropped here, for the prover too, and not in each crate above.
impl Drop for Rules {
    fn drop(self) {
        let Rules {
            numbers: _,
            full_keep_cnt: _,
            blackout_periods: _,
            old_full_keep_cnt: _,
        } = self;
    }
}

impl Rules {
    /// The rules of a host of which nothing is said, or want of memory.
    pub fn defaults(alloc: Global) -> Result<Rules, AllocError>
        ensures { IfOk result (λ rules. rules ≡ default_rules) }
    {
        Ok(Rules {
            numbers: Numbers::defaults(),
            full_keep_cnt: KeepCounts::one(alloc)?,
            blackout_periods: Periods::one(alloc)?,
            old_full_keep_cnt: KeepCounts::one(alloc)?,
        })
    }

    /// The rules that are made of these parts, which takes no memory.
    pub(crate) fn from_parts(
        numbers: Numbers,
        full_keep_cnt: KeepCounts,
        blackout_periods: Periods,
        old_full_keep_cnt: KeepCounts,
    ) -> Rules
        ensures { result ≡ rules_from numbers full_keep_cnt blackout_periods old_full_keep_cnt }
    {
        let _ = numbers.get(Setting::FillCycle);
        let _ = full_keep_cnt.as_slice();
        let _ = old_full_keep_cnt.as_slice();
        let _ = blackout_periods.as_slice();
        Rules {
            numbers,
            full_keep_cnt,
            blackout_periods,
            old_full_keep_cnt,
        }
    }

    /// A setting of one number.
    pub fn number(&self, setting: Setting) -> u32
        ensures value { result ≡ number_of self.now setting }
        ensures in_range { IsOf setting result }
    {
        self.numbers.get(setting)
    }

    pub fn full_keep_cnt(&self) -> &KeepCounts
        ensures { result.now ≡ self.now.full_keep_cnt }
    {
        &self.full_keep_cnt
    }

    pub fn blackout_periods(&self) -> &Periods
        ensures { result.now ≡ self.now.blackout_periods }
    {
        &self.blackout_periods
    }

    pub fn old_full_keep_cnt(&self) -> &KeepCounts
        ensures { result.now ≡ self.now.old_full_keep_cnt }
    {
        &self.old_full_keep_cnt
    }

    // The settings of one number.
    pub(crate) fn numbers(&self) -> &Numbers
        ensures numbers { result.now ≡ self.now.numbers }
        ensures in_range { IsRules self.now }
    {
        &self.numbers
    }

    /// Equal rules, or want of memory.
    pub fn copy(&self, alloc: Global) -> Result<Rules, AllocError>
        ensures { IfOk result (λ copy. copy ≡ self.now) }
    {
        Ok(Rules {
            numbers: self.numbers,
            full_keep_cnt: self.full_keep_cnt.copy(alloc)?,
            blackout_periods: self.blackout_periods.copy(alloc)?,
            old_full_keep_cnt: self.old_full_keep_cnt.copy(alloc)?,
        })
    }

    /// The rules after a change, or want of memory.
    pub fn changed(&self, alloc: Global, change: &RuleChange) -> Result<Rules, AllocError>
        ensures { IfOk result (λ rules. rules ≡ changed self.now change.now) }
    {
        let counts = change.full_keep_cnt().unwrap_or(&self.full_keep_cnt);
        let periods = change.blackout_periods().unwrap_or(&self.blackout_periods);
        let old_counts = change
            .old_full_keep_cnt()
            .unwrap_or(&self.old_full_keep_cnt);
        Ok(Rules {
            numbers: self.numbers.changed(change.numbers()),
            full_keep_cnt: counts.copy(alloc)?,
            blackout_periods: periods.copy(alloc)?,
            old_full_keep_cnt: old_counts.copy(alloc)?,
        })
    }
}
