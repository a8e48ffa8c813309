ghost use Rattle.std.specs.Prelude.{◌≡◌, Some, OnOk, OnErr, IfOk, IfErr};
ghost use Rattle.std.specs.Option.{option_copied};
ghost use Rattle.backup_rules.specs.Values.{named_at};
ghost use Rattle.backup_rules.specs.Ranges.{IsOf, IsChange};
ghost use Rattle.backup_rules.specs.Changes.{no_change, with_number};

use crate::counts::KeepCounts;
use crate::faults::OutOfRange;
use crate::numbers::Named;
use crate::periods::Periods;
use crate::settings::Setting;
use std::alloc::{AllocError, Global};
use std::marker::Model;

/// New values for some settings, each in its range.
#[derive(Debug)]
pub struct RuleChange {
    numbers: Named,
    full_keep_cnt: Option<KeepCounts>,
    blackout_periods: Option<Periods>,
    old_full_keep_cnt: Option<KeepCounts>,
}

impl Model for RuleChange {
    ghost use Rattle.backup_rules.specs.Values.{RuleChanges};
    ghost use Rattle.backup_rules.specs.Values.{change_from};
    ghost use Rattle.backup_rules.specs.Ranges.{IsChange};

    ghost Value = { RuleChanges };

    ghost view = { λ c. change_from c.numbers c.full_keep_cnt c.blackout_periods c.old_full_keep_cnt };

    ghost invariant = { λ c. IsChange (change_from c.numbers c.full_keep_cnt c.blackout_periods c.old_full_keep_cnt) };
}

/// Written out: what is in it is then dropped here, for the prover too, and not in each crate above.
impl Drop for RuleChange {
    fn drop(self) {
        let RuleChange {
            numbers: _,
            full_keep_cnt: _,
            blackout_periods: _,
            old_full_keep_cnt: _,
        } = self;
    }
}

/// Equal numbers, where there are some.
fn copied_counts(
    alloc: Global,
    counts: &Option<KeepCounts>,
) -> Result<Option<KeepCounts>, AllocError>
    ensures { IfOk result (λ copy. copy ≡ counts.now) }
{
    match counts {
        Some(counts) => Ok(Some(counts.copy(alloc)?)),
        None => Ok(None),
    }
}

/// Equal periods, where there are some.
fn copied_periods(alloc: Global, periods: &Option<Periods>) -> Result<Option<Periods>, AllocError>
    ensures { IfOk result (λ copy. copy ≡ periods.now) }
{
    match periods {
        Some(periods) => Ok(Some(periods.copy(alloc)?)),
        None => Ok(None),
    }
}

impl RuleChange {
    /// A change that names no setting; takes no memory.
    pub fn none() -> RuleChange
        ensures { result ≡ no_change }
    {
        RuleChange {
            numbers: Named::none(),
            full_keep_cnt: None,
            blackout_periods: None,
            old_full_keep_cnt: None,
        }
    }

    /// Names a setting of one number; refused exactly where the number is out of its range, and then the change is as
    /// it was.
    pub fn set(&mut self, setting: Setting, value: u32) -> Result<(), OutOfRange>
        ensures ok { OnOk result (self.new ≡ with_number self.old setting value) }
        ensures in_range { OnOk result (IsOf setting value) }
        ensures err { OnErr result (self.new ≡ self.old) }
        ensures out { IfErr result (λ fault. (fault.0 ≡ setting) × (IsOf setting value → ⊥)) }
    {
        if !setting.takes(value) {
            return Err(OutOfRange(setting));
        }
        self.numbers.put(setting, value);
        Ok(())
    }

    /// Names FullKeepCnt.
    pub fn set_full_keep_cnt(&mut self, counts: KeepCounts)
        ensures { self.new ≡ record self.old { full_keep_cnt = Some counts } }
    {
        let _ = counts.as_slice();
        self.full_keep_cnt = Some(counts);
    }

    /// Names BlackoutPeriods.
    pub fn set_blackout_periods(&mut self, periods: Periods)
        ensures { self.new ≡ record self.old { blackout_periods = Some periods } }
    {
        let _ = periods.as_slice();
        self.blackout_periods = Some(periods);
    }

    /// Names OldFullKeepCnt.
    pub fn set_old_full_keep_cnt(&mut self, counts: KeepCounts)
        ensures { self.new ≡ record self.old { old_full_keep_cnt = Some counts } }
    {
        let _ = counts.as_slice();
        self.old_full_keep_cnt = Some(counts);
    }

    /// An equal change, or want of memory.
    pub fn copy(&self, alloc: Global) -> Result<RuleChange, AllocError>
        ensures { IfOk result (λ copy. copy ≡ self.now) }
    {
        Ok(RuleChange {
            numbers: self.numbers,
            full_keep_cnt: copied_counts(alloc, &self.full_keep_cnt)?,
            blackout_periods: copied_periods(alloc, &self.blackout_periods)?,
            old_full_keep_cnt: copied_counts(alloc, &self.old_full_keep_cnt)?,
        })
    }

    /// The new number of a setting, if it is named.
    pub fn number(&self, setting: Setting) -> Option<u32>
        ensures { result ≡ named_at self.now.numbers setting }
    {
        self.numbers.get(setting)
    }

    pub fn full_keep_cnt(&self) -> Option<&KeepCounts>
        ensures { option_copied result ≡ self.now.full_keep_cnt }
    {
        self.full_keep_cnt.as_ref()
    }

    pub fn blackout_periods(&self) -> Option<&Periods>
        ensures { option_copied result ≡ self.now.blackout_periods }
    {
        self.blackout_periods.as_ref()
    }

    pub fn old_full_keep_cnt(&self) -> Option<&KeepCounts>
        ensures { option_copied result ≡ self.now.old_full_keep_cnt }
    {
        self.old_full_keep_cnt.as_ref()
    }

    // The settings of one number that the change names.
    pub(crate) fn numbers(&self) -> &Named
        ensures { result.now ≡ self.now.numbers }
    {
        &self.numbers
    }
}
