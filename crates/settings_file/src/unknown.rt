//! Keys that no setting has.

ghost use Rattle.std.specs.Prelude.{◌≡◌, map, bytes_eq, false};
ghost use Rattle.std.specs.List.{list_any};
ghost use Rattle.std.specs.Option.{option_map_or};
ghost use Rattle.toml.specs.View.{table_view};
ghost use Rattle.settings_file.specs.declared.key.Key.TheVariants.{Rules};
ghost use Rattle.settings_file.specs.Keys.{top_names, rule_names};
ghost use Rattle.settings_file.specs.Document.{value_at, rules_in, is_unknown, has_unknown, has_unknowns};

use crate::document::value_at;
use crate::key::Key;
use toml::Table;

/// The names of the keys in the file.
const TOP_NAMES: [&str; 4] = ["Zone", "WakeupSchedule", "BackupPCNightlyPeriod", "Rules"];

/// The names of the keys in the table `Rules`.
const RULE_NAMES: [&str; 15] = [
    "FillCycle",
    "FullPeriod",
    "IncrPeriod",
    "FullKeepCnt",
    "FullKeepCntMin",
    "FullAgeMax",
    "IncrKeepCnt",
    "IncrKeepCntMin",
    "IncrAgeMax",
    "BlackoutGoodCnt",
    "BlackoutBadPingLimit",
    "BlackoutPeriods",
    "OldAge",
    "OldFullKeepCnt",
    "OldIncrKeepCnt",
];

/// Whether a name isn't one of these.
fn is_unknown(known: &[&str], name: &str) -> bool
    ensures { result ≡ is_unknown (map (λ k. k.now) known.now) name.now }
{
    for other in known {
        if name == *other {
            return false;
        }
    }
    true
}

/// Whether a table has a key with another name than these.
fn has_unknown(known: &[&str], table: &Table) -> bool
    ensures { result ≡ has_unknown (map (λ k. k.now) known.now) (table_view table.now) }
{
    for name in table.keys() {
        if is_unknown(known, name.as_str()) {
            return true;
        }
    }
    false
}

/// Whether there is such a key in the file, or in its table `Rules`.
pub fn has_unknowns(table: &Table) -> bool
    ensures { result ≡ has_unknowns (table_view table.now) }
{
    if has_unknown(&TOP_NAMES, table) {
        return true;
    }
    let Some(value) = value_at(table, Key::Rules.name()) else {
        return false;
    };
    match value.as_table() {
        Some(rules) => has_unknown(&RULE_NAMES, rules),
        None => false,
    }
}
