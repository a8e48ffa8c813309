ghost use Rattle.std.specs.Prelude.{◌≡◌, ◌↔◌, ◌<◌, IsTrue};
ghost use Rattle.backup_rules.specs.Settings.{row_of, name_of, least, most, default_of, settings, index_of, setting_at};
ghost use Rattle.backup_rules.specs.Ranges.{IsOf};

/// A setting that is one number.
#[derive(Clone, Copy, Debug, PartialEq, Eq)]
pub enum Setting {
    /// The cycle of filled backups in days.
    FillCycle,
    /// The seconds between full dumps.
    FullPeriod,
    /// The seconds between dumps.
    IncrPeriod,
    /// The least number of filled backups.
    FullKeepCntMin,
    /// The days that a filled backup is kept.
    FullAgeMax,
    /// The number of unfilled backups.
    IncrKeepCnt,
    /// The least number of unfilled backups.
    IncrKeepCntMin,
    /// The days that an unfilled backup is kept.
    IncrAgeMax,
    /// The good contacts after which a blackout begins.
    BlackoutGoodCnt,
    /// The bad contacts after which it ends.
    BlackoutBadPingLimit,
    /// The days after which a backup is old, and counts of its own hold for it; 0 is never.
    OldAge,
    /// The number of old unfilled backups.
    OldIncrKeepCnt,
}

/// How many settings are one number.
pub const SETTING_COUNT: usize = 12;

/// The settings that are one number, in their order.
pub const SETTINGS: [Setting; SETTING_COUNT] = [
    Setting::FillCycle,
    Setting::FullPeriod,
    Setting::IncrPeriod,
    Setting::FullKeepCntMin,
    Setting::FullAgeMax,
    Setting::IncrKeepCnt,
    Setting::IncrKeepCntMin,
    Setting::IncrAgeMax,
    Setting::BlackoutGoodCnt,
    Setting::BlackoutBadPingLimit,
    Setting::OldAge,
    Setting::OldIncrKeepCnt,
];

/// The seconds of ten years of 365 days.
const TEN_YEARS: u32 = 315_360_000;
/// The greatest number of backups that a setting names.
const MAX_KEPT: u32 = 1_000_000;
/// The greatest number of days that a backup is kept.
const MAX_DAYS: u32 = 36_500;

/// A row of the table of settings.
#[derive(Clone, Copy)]
struct SettingRow {
    name: &'static str,
    least: u32,
    most: u32,
    default: u32,
}

/// The row of these.
fn row(name: &'static str, least: u32, most: u32, default: u32) -> SettingRow
    ensures name { result.name.now ≡ name.now }
    ensures least { result.least ≡ least }
    ensures most { result.most ≡ most }
    ensures default { result.default ≡ default }
{
    SettingRow {
        name,
        least,
        most,
        default,
    }
}

impl Setting {
    // The table of settings.
    fn row(self) -> SettingRow
        ensures name { result.name.now ≡ (row_of self).name }
        ensures least { result.least ≡ (row_of self).least }
        ensures most { result.most ≡ (row_of self).most }
        ensures default { result.default ≡ (row_of self).default }
    {
        match self {
            Setting::FillCycle => row("FillCycle", 0, 3_650, 0),
            Setting::FullPeriod => row("FullPeriod", 1, TEN_YEARS, 602_208),
            Setting::IncrPeriod => row("IncrPeriod", 1, TEN_YEARS, 83_808),
            Setting::FullKeepCntMin => row("FullKeepCntMin", 0, MAX_KEPT, 1),
            Setting::FullAgeMax => row("FullAgeMax", 1, MAX_DAYS, 180),
            Setting::IncrKeepCnt => row("IncrKeepCnt", 0, MAX_KEPT, 6),
            Setting::IncrKeepCntMin => row("IncrKeepCntMin", 0, MAX_KEPT, 1),
            Setting::IncrAgeMax => row("IncrAgeMax", 1, MAX_DAYS, 30),
            Setting::BlackoutGoodCnt => row("BlackoutGoodCnt", 0, MAX_KEPT, 7),
            Setting::BlackoutBadPingLimit => row("BlackoutBadPingLimit", 1, MAX_KEPT, 3),
            Setting::OldAge => row("OldAge", 0, MAX_DAYS, 0),
            Setting::OldIncrKeepCnt => row("OldIncrKeepCnt", 0, MAX_KEPT, 0),
        }
    }

    /// Its name.
    pub fn name(self) -> &'static str
        ensures { result.now ≡ name_of self }
    {
        self.row().name
    }

    /// The least number that it takes.
    pub fn least(self) -> u32
        ensures { result ≡ least self }
    {
        self.row().least
    }

    /// The greatest number that it takes.
    pub fn most(self) -> u32
        ensures { result ≡ most self }
    {
        self.row().most
    }

    /// The number that holds if nothing is said.
    pub fn default_number(self) -> u32
        ensures { result ≡ default_of self }
    {
        self.row().default
    }

    /// Whether a number is in its range.
    pub fn takes(self, value: u32) -> bool
        ensures { IsTrue result ↔ IsOf self value }
    {
        let row = self.row();
        row.least <= value && value <= row.most
    }

    /// How many settings stand before it.
    pub fn index(self) -> usize
        ensures index { result ≡ index_of self }
        ensures within { result < 12 }
        ensures back { setting_at result ≡ self }
    {
        self as usize
    }

    /// The one of this index.
    pub(crate) fn at(index: usize) -> Setting
        requires { index < 12 }
        ensures setting { result ≡ setting_at index }
        ensures back { index_of result ≡ index }
    {
        SETTINGS[index]
    }

    /// All of them, in their order.
    pub fn all() -> &'static [Setting]
        ensures { result.now ≡ settings }
    {
        &SETTINGS
    }
}
