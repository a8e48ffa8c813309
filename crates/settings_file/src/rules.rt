//! The rules of the settings file.

ghost use Rattle.std.specs.Prelude.{◌≡◌, Some, None, Ok, IfOk, IfErr, OnOk, IsErrOf};
ghost use Rattle.toml.specs.View.{view, table_view};
ghost use Rattle.backup_rules.specs.Changes.{no_change};
ghost use Rattle.settings_file.specs.declared.key.RuleKey.TheVariants.{Number};
ghost use Rattle.settings_file.specs.declared.fault.ValueFault.TheVariants.{Wrong};
ghost use Rattle.settings_file.specs.Keys.{rule_keys};
ghost use Rattle.settings_file.specs.Document.{with_value, with_key, change_by, change_in, wrong_of, AreRulesOf, IsFaultOf};

use crate::document::value_at;
use crate::fault::{SettingsFault, ValueFault};
use crate::key::{Key, RuleKey, rule_keys};
use crate::values::{counts_in, number_in, periods_in};
use backup_rules::{RuleChange, Rules, Setting};
use std::alloc::Global;
use toml::{Table, Value};

/// Changes a setting that is one number.
fn with_number(setting: Setting, change: &mut RuleChange, value: &Value) -> Result<(), ValueFault>
    ensures ok { OnOk result (with_value (Number setting) change.old (view value.now) ≡ Some change.new) }
    ensures wrong { IsErrOf result Wrong → with_value (Number setting) change.old (view value.now) ≡ None }
{
    let Some(number) = number_in(value, setting.least(), setting.most()) else {
        return Err(ValueFault::Wrong);
    };
    match change.set(setting, number) {
        Ok(()) => Ok(()),
        Err(_) => unreachable!(),
    }
}

/// Changes the setting of a key.
fn with_value(
    alloc: Global,
    key: RuleKey,
    change: &mut RuleChange,
    value: &Value,
) -> Result<(), ValueFault>
    ensures ok { OnOk result (with_value key change.old (view value.now) ≡ Some change.new) }
    ensures wrong { IsErrOf result Wrong → with_value key change.old (view value.now) ≡ None }
{
    match key {
        RuleKey::Number(setting) => return with_number(setting, change, value),
        RuleKey::FullKeepCnt => change.set_full_keep_cnt(counts_in(alloc, value)?),
        RuleKey::BlackoutPeriods => change.set_blackout_periods(periods_in(alloc, value)?),
        RuleKey::OldFullKeepCnt => change.set_old_full_keep_cnt(counts_in(alloc, value)?),
    }
    Ok(())
}

/// Changes the setting of a key, if the table has it.
fn with_key(
    alloc: Global,
    table: &Table,
    key: RuleKey,
    change: &mut RuleChange,
) -> Result<(), ValueFault>
    ensures ok { OnOk result (with_key (table_view table.now) key change.old ≡ Some change.new) }
    ensures wrong { IsErrOf result Wrong → with_key (table_view table.now) key change.old ≡ None }
{
    match value_at(table, key.name()) {
        Some(value) => with_value(alloc, key, change, value),
        None => Ok(()),
    }
}

/// The change that a table of rules asks for.
fn change_by(alloc: Global, table: &Table) -> Result<RuleChange, SettingsFault>
    ensures ok { IfOk result (λ change. change_by (table_view table.now) rule_keys no_change ≡ Ok change) }
    ensures err { IfErr result (IsFaultOf (wrong_of (change_by (table_view table.now) rule_keys no_change))) }
{
    let mut change = RuleChange::none();
    let keys = rule_keys();
    for &key in keys {
        match with_key(alloc, table, key, &mut change) {
            Ok(()) => {}
            Err(ValueFault::Wrong) => return Err(SettingsFault::BadKey(Key::Rule(key))),
            Err(ValueFault::Memory) => return Err(SettingsFault::Memory),
        }
    }
    Ok(change)
}

/// The change that the document asks for.
fn change_in(alloc: Global, table: &Table) -> Result<RuleChange, SettingsFault>
    ensures ok { IfOk result (λ change. change_in (table_view table.now) ≡ Ok change) }
    ensures err { IfErr result (IsFaultOf (wrong_of (change_in (table_view table.now)))) }
{
    let Some(value) = value_at(table, Key::Rules.name()) else {
        return Ok(RuleChange::none());
    };
    match value.as_table() {
        Some(rules) => change_by(alloc, rules),
        None => Err(SettingsFault::BadKey(Key::Rules)),
    }
}

/// The rules of the document: the default ones, but for what it names.
pub fn rules_in(alloc: Global, table: &Table) -> Result<Rules, SettingsFault>
    ensures ok { IfOk result (AreRulesOf (change_in (table_view table.now))) }
    ensures err { IfErr result (IsFaultOf (wrong_of (change_in (table_view table.now)))) }
{
    let change = change_in(alloc, table)?;
    Ok(Rules::defaults(alloc)?.changed(alloc, &change)?)
}
