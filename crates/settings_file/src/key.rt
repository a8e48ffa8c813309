//! The keys of the settings file.

ghost use Rattle.std.specs.Prelude.{◌≡◌};
ghost use Rattle.settings_file.specs.Keys.{rule_name, key_name, rule_keys};

use backup_rules::Setting;

/// A key of the table `Rules`.
#[derive(Clone, Copy, Debug, PartialEq, Eq)]
pub enum RuleKey {
    /// A setting that is one number.
    Number(Setting),
    FullKeepCnt,
    BlackoutPeriods,
    OldFullKeepCnt,
}

const RULE_KEYS: [RuleKey; 15] = [
    RuleKey::Number(Setting::FillCycle),
    RuleKey::Number(Setting::FullPeriod),
    RuleKey::Number(Setting::IncrPeriod),
    RuleKey::FullKeepCnt,
    RuleKey::Number(Setting::FullKeepCntMin),
    RuleKey::Number(Setting::FullAgeMax),
    RuleKey::Number(Setting::IncrKeepCnt),
    RuleKey::Number(Setting::IncrKeepCntMin),
    RuleKey::Number(Setting::IncrAgeMax),
    RuleKey::Number(Setting::BlackoutGoodCnt),
    RuleKey::Number(Setting::BlackoutBadPingLimit),
    RuleKey::BlackoutPeriods,
    RuleKey::Number(Setting::OldAge),
    RuleKey::OldFullKeepCnt,
    RuleKey::Number(Setting::OldIncrKeepCnt),
];

/// The keys of the table `Rules`, in their order.
pub fn rule_keys() -> &'static [RuleKey]
    ensures { result.now ≡ rule_keys }
{
    &RULE_KEYS
}

/// A key of the settings file.
#[derive(Clone, Copy, Debug, PartialEq, Eq)]
pub enum Key {
    Zone,
    WakeupSchedule,
    BackupPCNightlyPeriod,
    Rules,
    Rule(RuleKey),
}

impl RuleKey {
    /// Its name.
    pub fn name(self) -> &'static str
        ensures { result.now ≡ rule_name self }
    {
        match self {
            RuleKey::Number(setting) => setting.name(),
            RuleKey::FullKeepCnt => "FullKeepCnt",
            RuleKey::BlackoutPeriods => "BlackoutPeriods",
            RuleKey::OldFullKeepCnt => "OldFullKeepCnt",
        }
    }
}

impl Key {
    /// Its name.
    pub fn name(self) -> &'static str
        ensures { result.now ≡ key_name self }
    {
        match self {
            Key::Zone => "Zone",
            Key::WakeupSchedule => "WakeupSchedule",
            Key::BackupPCNightlyPeriod => "BackupPCNightlyPeriod",
            Key::Rules => "Rules",
            Key::Rule(key) => key.name(),
        }
    }
}
