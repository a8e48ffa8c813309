use backup_rules::{
    KeepCounts, Kind, Line, Period, Periods, RuleChange, Rules, RulesFault, RulesLayout, Setting,
    fill_rule, put_line, put_rules, read_line, read_rules,
};
use std::alloc::Global;
use std::test::Fail;
use wire_bytes::Reader;

// The default rules in the second layout, as Python's `struct` packs them: twelve numbers and three lists of one item.
const DEFAULTS: &[u8; 64] =
    b"\x00\x00\x00\x00\x00\x09\x30\x60\x00\x01\x47\x60\x01\x00\x00\x00\x01\x00\x00\x00\x01\x00\x00\x00\xb4\x00\x00\x00\x06\x00\x00\x00\x01\x00\x00\x00\x1e\x00\x00\x00\x07\x00\x00\x00\x03\x01\x01\xa4\x04\x92\x3e\x00\x00\x00\x00\x01\x00\x00\x00\x01\x00\x00\x00\x00";

// How much of them is the first layout.
const FIRST: usize = 51;

// Where each of their fields and items begins.
const STARTS: [usize; 18] = [
    0, 4, 8, 12, 13, 17, 21, 25, 29, 33, 37, 41, 45, 46, 51, 55, 56, 60,
];

// The same with FillCycle 7, FullKeepCnt 4, 2, 3, BlackoutBadPingLimit 5, no BlackoutPeriods, OldAge 4, OldFullKeepCnt
// 0, 2 and OldIncrKeepCnt 9.
const CHANGED: &[u8; 71] =
    b"\x00\x00\x00\x07\x00\x09\x30\x60\x00\x01\x47\x60\x03\x00\x00\x00\x04\x00\x00\x00\x02\x00\x00\x00\x03\x00\x00\x00\x01\x00\x00\x00\xb4\x00\x00\x00\x06\x00\x00\x00\x01\x00\x00\x00\x1e\x00\x00\x00\x07\x00\x00\x00\x05\x00\x00\x00\x00\x04\x02\x00\x00\x00\x00\x00\x00\x00\x02\x00\x00\x00\x09";

// An incremental, filled and not kept.
const LINE: &[u8; 23] =
    b"\x00\x00\x00\x05\x00\x00\x00\x00\x65\x53\xf1\x00\x00\x00\x00\x00\x65\x53\xf1\x3c\x02\x01\x00";

// A setting, its name, its range and its default.
struct Row(Setting, &'static str, u32, u32, u32);

const TABLE: [Row; 12] = [
    Row(Setting::FillCycle, "FillCycle", 0, 3_650, 0),
    Row(Setting::FullPeriod, "FullPeriod", 1, 315_360_000, 602_208),
    Row(Setting::IncrPeriod, "IncrPeriod", 1, 315_360_000, 83_808),
    Row(Setting::FullKeepCntMin, "FullKeepCntMin", 0, 1_000_000, 1),
    Row(Setting::FullAgeMax, "FullAgeMax", 1, 36_500, 180),
    Row(Setting::IncrKeepCnt, "IncrKeepCnt", 0, 1_000_000, 6),
    Row(Setting::IncrKeepCntMin, "IncrKeepCntMin", 0, 1_000_000, 1),
    Row(Setting::IncrAgeMax, "IncrAgeMax", 1, 36_500, 30),
    Row(Setting::BlackoutGoodCnt, "BlackoutGoodCnt", 0, 1_000_000, 7),
    Row(
        Setting::BlackoutBadPingLimit,
        "BlackoutBadPingLimit",
        1,
        1_000_000,
        3,
    ),
    Row(Setting::OldAge, "OldAge", 0, 36_500, 0),
    Row(Setting::OldIncrKeepCnt, "OldIncrKeepCnt", 0, 1_000_000, 0),
];

fn expect(holds: bool, text: &'static str) -> Result<(), Fail> {
    if holds { Ok(()) } else { Err(Fail::new(text)) }
}

// Whether a change takes a number for a setting.
fn takes(setting: Setting, value: u32) -> bool {
    let mut change = RuleChange::none();
    change.set(setting, value).is_ok() && change.number(setting) == Some(value)
}

fn expect_row(row: &Row) -> Result<(), Fail> {
    let Row(setting, name, least, most, default) = row;
    let (setting, least, most) = (*setting, *least, *most);
    expect(setting.name() == *name, "another name")?;
    expect(takes(setting, least) && takes(setting, most), "too narrow")?;
    expect(!takes(setting, most.wrapping_add(1)), "too great")?;
    expect(least == 0 || !takes(setting, 0), "too small")?;
    expect(takes(setting, *default), "a default out of range")?;
    expect(setting.default_number() == *default, "another default")
}

// Numbers of filled backups, and whether they are in range.
struct Counts(&'static [u32], bool);

const COUNTS: [Counts; 5] = [
    Counts(&[], false),
    Counts(&[0], true),
    Counts(&[1_000; 16], true),
    Counts(&[1; 17], false),
    Counts(&[4, 1_001], false),
];

fn expect_counts(alloc: Global, counts: &Counts) -> Result<(), Fail> {
    let kept = KeepCounts::from_vec(Vec::from_slice(alloc, counts.0)?);
    expect(kept.is_some() == counts.1, "counts in or out of range")
}

fn counts_of(alloc: Global, numbers: &[u32]) -> Result<KeepCounts, Fail> {
    match KeepCounts::from_vec(Vec::from_slice(alloc, numbers)?) {
        Some(counts) => Ok(counts),
        None => Err(Fail::new("counts out of range")),
    }
}

// The minutes and weekdays of a period, and whether they are in range.
struct Minutes(u16, u16, u8, bool);

const PERIODS: [Minutes; 7] = [
    Minutes(0, 1_439, 127, true),
    Minutes(1_439, 0, 1, true),
    Minutes(420, 420, 62, false),
    Minutes(1_440, 0, 62, false),
    Minutes(0, 1_440, 62, false),
    Minutes(420, 1_170, 0, false),
    Minutes(420, 1_170, 128, false),
];

fn expect_period(minutes: &Minutes) -> Result<(), Fail> {
    let period = Period::new(minutes.0, minutes.1, minutes.2);
    expect(period.is_some() == minutes.3, "a period in or out of range")
}

fn expect_written(alloc: Global, rules: &Rules, expected: &[u8]) -> Result<(), Fail> {
    let mut bytes = Vec::new(alloc);
    put_rules(&mut bytes, rules)?;
    expect(bytes.as_slice() == expected, "other bytes")
}

// Rules that are read are written, after a copy, as these bytes.
fn expect_read(
    alloc: Global,
    layout: RulesLayout,
    bytes: &[u8],
    expected: &[u8],
) -> Result<(), Fail> {
    let mut reader = Reader::new(bytes);
    let rules = read_rules(alloc, &mut reader, layout)?;
    expect(reader.is_at_end(), "bytes are left")?;
    expect_written(alloc, &rules.copy(alloc)?, expected)
}

// Rules break at an offset, and the reader is where it was.
fn expect_break(
    alloc: Global,
    layout: RulesLayout,
    bytes: &[u8],
    offset: usize,
) -> Result<(), Fail> {
    let mut reader = Reader::new(bytes);
    match read_rules(alloc, &mut reader, layout) {
        Err(RulesFault::BadRules(found)) => {
            expect(found == offset && reader.offset() == 0, "another offset")
        }
        _ => Err(Fail::new("no break")),
    }
}

// Each beginning of these bytes breaks where its last field or item begins.
fn expect_cuts(alloc: Global, layout: RulesLayout, bytes: &[u8]) -> Result<(), Fail> {
    let mut offset = 0;
    for len in 0..bytes.len() {
        if STARTS.contains(&len) {
            offset = len;
        }
        expect_break(alloc, layout, &bytes[..len], offset)?;
    }
    Ok(())
}

// The index of a byte, the byte that is put there, and where the default rules break then.
struct Broken(usize, u8, usize);

const BROKEN: [Broken; 13] = [
    Broken(0, 1, 0),
    Broken(4, 255, 4),
    Broken(8, 255, 8),
    Broken(12, 0, 12),
    Broken(12, 17, 12),
    Broken(13, 1, 13),
    Broken(45, 17, 45),
    Broken(50, 0, 46),
    Broken(50, 128, 46),
    Broken(51, 1, 51),
    Broken(55, 0, 55),
    Broken(56, 1, 56),
    Broken(60, 1, 60),
];

fn expect_broken(alloc: Global, broken: &Broken) -> Result<(), Fail> {
    let mut bytes = DEFAULTS.to_vec(alloc)?;
    if let Some(changed) = bytes.get_mut(broken.0) {
        *changed = broken.1;
    }
    expect_break(alloc, RulesLayout::Second, bytes.as_slice(), broken.2)
}

fn line_of(kind: Kind, number: u32) -> Line {
    Line {
        number,
        start: 1_700_000_000,
        end: 1_700_000_060,
        kind,
        filled: true,
        keep: false,
    }
}

// A cycle, the kind and the number of a backup, and whether it stays filled.
struct Filled(u32, Kind, u32, bool);

const FILLED: [Filled; 7] = [
    Filled(0, Kind::Full, 5, true),
    Filled(0, Kind::Incr, 5, false),
    Filled(7, Kind::Full, 0, true),
    Filled(7, Kind::Incr, 7, true),
    Filled(7, Kind::Full, 8, false),
    Filled(7, Kind::Incr, 8, false),
    Filled(1, Kind::Incr, 8, true),
];

// The default rules with these numbers in place of their own.
fn rules_with(alloc: Global, numbers: &[(Setting, u32)]) -> Result<Rules, Fail> {
    let mut change = RuleChange::none();
    for (setting, value) in numbers {
        change.set(*setting, *value)?;
    }
    let defaults = Rules::defaults(alloc)?;
    Ok(defaults.changed(alloc, &change)?)
}

fn expect_filled(alloc: Global, filled: &Filled) -> Result<(), Fail> {
    let rules = rules_with(alloc, &[(Setting::FillCycle, filled.0)])?;
    let stays = fill_rule(&line_of(filled.1, filled.2), &rules);
    expect(stays == filled.3, "filled or not")
}

const NUMBERS: [(Setting, u32); 4] = [
    (Setting::FillCycle, 7),
    (Setting::BlackoutBadPingLimit, 5),
    (Setting::OldAge, 4),
    (Setting::OldIncrKeepCnt, 9),
];

// A copy of the change that names the lists of CHANGED.
fn lists_of(alloc: Global) -> Result<RuleChange, Fail> {
    let mut lists = RuleChange::none();
    lists.set_full_keep_cnt(counts_of(alloc, &[4, 2, 3])?);
    lists.set_old_full_keep_cnt(counts_of(alloc, &[0, 2])?);
    lists.set_blackout_periods(Periods::none(alloc));
    Ok(lists.copy(alloc)?)
}

#[test]
fn settings_are_the_table() -> Result<(), Fail> {
    for row in &TABLE {
        expect_row(row)?;
    }
    Ok(())
}

#[test]
fn lists_take_their_ranges(rt: HostRuntime) -> Result<(), Fail> {
    let alloc = rt.alloc();
    for counts in &COUNTS {
        expect_counts(alloc, counts)?;
    }
    for minutes in &PERIODS {
        expect_period(minutes)?;
    }
    Ok(())
}

#[test]
fn sixteen_periods_are_all(rt: HostRuntime) -> Result<(), Fail> {
    let mut full = Periods::none(rt.alloc());
    for _i in 0..16 {
        full.push(Period::default())?;
    }
    expect(full.push(Period::default()).is_err(), "a seventeenth")?;
    expect(full.as_slice().len() == 16, "not sixteen")
}

#[test]
fn rules_are_written_and_read(rt: HostRuntime) -> Result<(), Fail> {
    let alloc = rt.alloc();
    expect_written(alloc, &Rules::defaults(alloc)?, DEFAULTS)?;
    expect_read(alloc, RulesLayout::Second, DEFAULTS, DEFAULTS)?;
    expect_read(alloc, RulesLayout::First, &DEFAULTS[..FIRST], DEFAULTS)?;
    expect_read(alloc, RulesLayout::Second, CHANGED, CHANGED)
}

#[test]
fn a_change_leaves_what_it_does_not_name(rt: HostRuntime) -> Result<(), Fail> {
    let alloc = rt.alloc();
    let rules = rules_with(alloc, &NUMBERS)?;
    let lists = lists_of(alloc)?;
    expect_written(alloc, &rules.changed(alloc, &lists)?, CHANGED)
}

#[test]
fn rules_break_at_the_field_that_is_cut(rt: HostRuntime) -> Result<(), Fail> {
    let alloc = rt.alloc();
    expect_cuts(alloc, RulesLayout::Second, DEFAULTS)?;
    expect_cuts(alloc, RulesLayout::First, &DEFAULTS[..FIRST])
}

#[test]
fn rules_break_at_the_first_value_out_of_range(rt: HostRuntime) -> Result<(), Fail> {
    let alloc = rt.alloc();
    for broken in &BROKEN {
        expect_broken(alloc, broken)?;
    }
    Ok(())
}

#[test]
fn newest_stays_filled_by_the_fill_rule(rt: HostRuntime) -> Result<(), Fail> {
    let alloc = rt.alloc();
    for filled in &FILLED {
        expect_filled(alloc, filled)?;
    }
    Ok(())
}

#[test]
fn a_line_is_written_and_read(rt: HostRuntime) -> Result<(), Fail> {
    let line = line_of(Kind::Incr, 5);
    let mut bytes = Vec::new(rt.alloc());
    put_line(&mut bytes, &line)?;
    expect(bytes.as_slice() == LINE.as_slice(), "other bytes")?;
    expect(read_line(&mut Reader::new(LINE))? == line, "another line")?;
    let mut cut = Reader::new(&LINE[..22]);
    expect(read_line(&mut cut).is_err(), "a line of 22 bytes")?;
    expect(cut.offset() == 0, "the reader moved")
}
