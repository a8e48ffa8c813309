use backup_rules::{SETTINGS, Setting};
use settings_file::{Key, RuleKey, Settings, SettingsFault, read_settings};
use std::alloc::Global;
use std::test::Fail;
use wake_schedule::Zone;

// The text of examples/backup_server.toml.
const EXAMPLE: &str = "# The settings of a backup server, each with its default.\n\
\n\
# The time zone: UTC, +HH:MM or -HH:MM up to 14:59, or a POSIX rule such as CET-1CEST,M3.5.0,M10.5.0/3.\n\
Zone = \"UTC\"\n\
# The minutes of the day at which the server wakes, 1 to 24 of them; the first is that of the nightly work.\n\
WakeupSchedule = [60, 120, 180, 240, 300, 360, 420, 480, 540, 600, 660, 720, 780, 840, 900, 960, 1020, 1080, 1140, 1200, 1260, 1320, 1380]\n\
# In how many nights each part of the pool is cleaned once: 1, 2, 4, 8 or 16.\n\
BackupPCNightlyPeriod = 1\n\
\n\
[Rules]\n\
# The cycle of filled backups in days, 0 to 3,650: a backup whose number it divides stays filled. Without one, 0, each full does.\n\
FillCycle = 0\n\
# Seconds between full dumps, 1 to 315,360,000.\n\
FullPeriod = 602208\n\
# Seconds between dumps, 1 to 315,360,000.\n\
IncrPeriod = 83808\n\
# How many filled backups are kept at one cycle's distance, at two, at four ..: a number, or 1 to 16 of 0 to 1,000.\n\
FullKeepCnt = 1\n\
# The least number of filled backups that an age doesn't touch, 0 to 1,000,000.\n\
FullKeepCntMin = 1\n\
# The days that a filled backup is kept beyond that, 1 to 36,500.\n\
FullAgeMax = 180\n\
# How many unfilled backups are kept, 0 to 1,000,000.\n\
IncrKeepCnt = 6\n\
# The least number of unfilled backups that an age doesn't touch, 0 to 1,000,000.\n\
IncrKeepCntMin = 1\n\
# The days that an unfilled backup is kept beyond that, 1 to 36,500.\n\
IncrAgeMax = 30\n\
# The good contacts after which a host is left alone in the periods below, 0 to 1,000,000.\n\
BlackoutGoodCnt = 7\n\
# The bad contacts in a row after which the good ones are forgotten, 1 to 1,000,000.\n\
BlackoutBadPingLimit = 3\n\
# At most 16 of B-E:days with a semicolon between each two: minutes of the day, and digits of weekdays from 0, Sunday.\n\
BlackoutPeriods = \"420-1170:12345\"\n\
# The days after which a backup is old, and judged by the two counts below, 0 to 36,500; 0 is never.\n\
OldAge = 0\n\
# As FullKeepCnt, for old backups.\n\
OldFullKeepCnt = 1\n\
# As IncrKeepCnt, for old backups.\n\
OldIncrKeepCnt = 0\n";

// The schedule of a server of which nothing is said.
const SCHEDULE: [u16; 23] = [
    60, 120, 180, 240, 300, 360, 420, 480, 540, 600, 660, 720, 780, 840, 900, 960, 1_020, 1_080,
    1_140, 1_200, 1_260, 1_320, 1_380,
];

fn expect_defaults(settings: &Settings) -> Result<(), Fail> {
    if settings.wake.as_slice() != SCHEDULE.as_slice() || settings.period != 1 {
        return Err(Fail::new("another schedule"));
    }
    if settings.zone.local(0).day != 0 || settings.zone.local(0).minute != 0 {
        return Err(Fail::new("another zone"));
    }
    for setting in SETTINGS {
        if settings.rules.number(setting) != setting.default_number() {
            return Err(Fail::new("another number"));
        }
    }
    let periods = settings.rules.blackout_periods().as_slice();
    let is_default =
        matches!(periods, [period] if period.begin() == 420 && period.end() == 1_170 && period.weekdays() == 62);
    if settings.rules.full_keep_cnt().as_slice() == [1].as_slice()
        && settings.rules.old_full_keep_cnt().as_slice() == [1].as_slice()
        && is_default
    {
        Ok(())
    } else {
        Err(Fail::new("another list"))
    }
}

#[test]
fn the_example_has_the_defaults(rt: HostRuntime) -> Result<(), Fail> {
    let alloc = rt.alloc();
    for text in [EXAMPLE, ""] {
        match read_settings(alloc, text.as_bytes()) {
            Ok(settings) => expect_defaults(&settings)?,
            Err(_) => return Err(Fail::new("refused")),
        }
    }
    Ok(())
}

// A file, and what is wrong with it.
const REFUSED: [(&str, SettingsFault); 12] = [
    ("Zone = ", SettingsFault::NotToml),
    (
        "WakeupSchedule = []\nZone = 1",
        SettingsFault::BadKey(Key::Zone),
    ),
    ("Zone = \"Europe/Berlin\"", SettingsFault::BadKey(Key::Zone)),
    (
        "WakeupSchedule = [1440]",
        SettingsFault::BadKey(Key::WakeupSchedule),
    ),
    (
        "BackupPCNightlyPeriod = 3\nRules = 1",
        SettingsFault::BadKey(Key::BackupPCNightlyPeriod),
    ),
    ("Rules = 1\nNo = 1", SettingsFault::BadKey(Key::Rules)),
    (
        "[Rules]\nOldAge = -1\nFillCycle = -1",
        SettingsFault::BadKey(Key::Rule(RuleKey::Number(Setting::FillCycle))),
    ),
    (
        "[Rules]\nFullKeepCnt = [1001]\nFullAgeMax = 0",
        SettingsFault::BadKey(Key::Rule(RuleKey::FullKeepCnt)),
    ),
    (
        "[Rules]\nBlackoutPeriods = \"7-7:1\"",
        SettingsFault::BadKey(Key::Rule(RuleKey::BlackoutPeriods)),
    ),
    (
        "[Rules]\nOldFullKeepCnt = \"1\"\nOldIncrKeepCnt = 1.0",
        SettingsFault::BadKey(Key::Rule(RuleKey::OldFullKeepCnt)),
    ),
    ("zone = \"UTC\"", SettingsFault::UnknownKey),
    ("[Rules]\nFillcycle = 7", SettingsFault::UnknownKey),
];

#[test]
fn a_refusal_names_the_first_wrong_thing(rt: HostRuntime) -> Result<(), Fail> {
    let alloc = rt.alloc();
    for (text, fault) in REFUSED {
        match read_settings(alloc, text.as_bytes()) {
            Err(found) if found == fault => {}
            _ => return Err(Fail::new(text)),
        }
    }
    Ok(())
}
