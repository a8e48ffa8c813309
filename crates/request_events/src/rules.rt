//! The rules that a query names.

ghost use Rattle.std.specs.Prelude.{◌≡◌, Some, IfSome};
ghost use Rattle.http_query.specs.declared.keys.QueryRule.TheVariants.{Value};
ghost use Rattle.backup_rules.specs.Changes.{no_change};
ghost use Rattle.backup_rules.specs.Ranges.{IsOf};
ghost use Rattle.rule_texts.specs.Counts.{counts_of};
ghost use Rattle.rule_texts.specs.Periods.{periods_of};
ghost use Rattle.request_events.specs.declared.refusal.RequestRefusal.TheVariants.{BadQuery};
ghost use Rattle.request_events.specs.Said.{Says, or_refuse};
ghost use Rattle.request_events.specs.Rules.{setting_number, with_setting, with_settings, with_full_keep_cnt, with_blackout_periods, with_old_full_keep_cnt, change_in};

use crate::refusal::RequestFault;
use crate::values::{BAD_VALUE, in_form};
use backup_rules::{KeepCounts, Periods, RuleChange, Setting};
use http_query::{Query, read_number};
use rule_texts::{TextFault, read_counts, read_periods};
use std::alloc::Global;

/// The number that a text gives a setting.
fn setting_number(setting: Setting, text: &str) -> Option<u32>
    ensures value { result ≡ setting_number setting text.now }
    ensures in_range { IfSome result (IsOf setting) }
{
    match read_number(text.as_bytes(), setting.most() as u64) {
        Some(number) => {
            if number >= setting.least() as u64 {
                Some(number as u32)
            } else {
                None
            }
        }
        None => None,
    }
}

/// The change with a setting as the query has it.
fn with_setting(setting: Setting, query: &Query, change: RuleChange) -> Option<RuleChange>
    ensures { result ≡ with_setting setting query.now change }
{
    let mut change = change;
    match query.value(setting.name()) {
        Some(text) => {
            let number = setting_number(setting, text)?;
            match change.set(setting, number) {
                Ok(()) => Some(change),
                Err(_) => unreachable!(),
            }
        }
        None => Some(change),
    }
}

/// The change with each of these settings as the query has it.
fn with_settings(settings: &[Setting], query: &Query) -> Option<RuleChange>
    ensures { result ≡ with_settings settings.now query.now no_change }
{
    let mut change = RuleChange::none();
    for setting in settings {
        change = with_setting(*setting, query, change)?;
    }
    Some(change)
}

/// The numbers of filled backups that a text writes.
fn counts_of(alloc: Global, text: &str) -> Result<KeepCounts, RequestFault>
    ensures { Says result (or_refuse (BadQuery Value) (counts_of text.now)) }
{
    match read_counts(alloc, text.as_bytes()) {
        Ok(counts) => Ok(counts),
        Err(TextFault::BadText) => Err(BAD_VALUE),
        Err(TextFault::Memory) => Err(RequestFault::Memory),
    }
}

/// The periods that a text writes.
fn periods_of(alloc: Global, text: &str) -> Result<Periods, RequestFault>
    ensures { Says result (or_refuse (BadQuery Value) (periods_of text.now)) }
{
    match read_periods(alloc, text.as_bytes()) {
        Ok(periods) => Ok(periods),
        Err(TextFault::BadText) => Err(BAD_VALUE),
        Err(TextFault::Memory) => Err(RequestFault::Memory),
    }
}

/// The change with FullKeepCnt as the query has it.
fn with_full_keep_cnt(
    alloc: Global,
    query: &Query,
    change: RuleChange,
) -> Result<RuleChange, RequestFault>
    ensures { Says result (with_full_keep_cnt query.now change) }
{
    let Some(text) = query.value("FullKeepCnt") else {
        return Ok(change);
    };
    let counts = counts_of(alloc, text)?;
    let mut change = change;
    change.set_full_keep_cnt(counts);
    Ok(change)
}

/// The change with BlackoutPeriods as the query has them.
fn with_blackout_periods(
    alloc: Global,
    query: &Query,
    change: RuleChange,
) -> Result<RuleChange, RequestFault>
    ensures { Says result (with_blackout_periods query.now change) }
{
    let Some(text) = query.value("BlackoutPeriods") else {
        return Ok(change);
    };
    let periods = periods_of(alloc, text)?;
    let mut change = change;
    change.set_blackout_periods(periods);
    Ok(change)
}

/// The change with OldFullKeepCnt as the query has it.
fn with_old_full_keep_cnt(
    alloc: Global,
    query: &Query,
    change: RuleChange,
) -> Result<RuleChange, RequestFault>
    ensures { Says result (with_old_full_keep_cnt query.now change) }
{
    let Some(text) = query.value("OldFullKeepCnt") else {
        return Ok(change);
    };
    let counts = counts_of(alloc, text)?;
    let mut change = change;
    change.set_old_full_keep_cnt(counts);
    Ok(change)
}

/// A new value for each setting whose key the query has, or the refusal of a value.
#[tactic(auto, unfolding(crate::specs::Rules::change_in))]
pub fn change_in(alloc: Global, query: &Query) -> Result<RuleChange, RequestFault>
    ensures { Says result (change_in query.now) }
{
    let numbers = in_form(with_settings(Setting::all(), query))?;
    let counts = with_full_keep_cnt(alloc, query, numbers)?;
    let periods = with_blackout_periods(alloc, query, counts)?;
    with_old_full_keep_cnt(alloc, query, periods)
}
