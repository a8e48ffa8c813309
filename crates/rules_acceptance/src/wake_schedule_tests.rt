use backup_rules::{Kind, Line, Period, Periods, RuleChange, Rules};
use std::alloc::Global;
use std::test::Fail;
use wake_schedule::{BadZone, Local, Wakeup, Zone, blackout, due, nightly_buckets, wake};

// A text of a zone, a moment, and the day, the minute and the weekday that its clock shows then. The values are those of
// Python's `datetime` and `zoneinfo`.
struct Shown {
    text: &'static str,
    now: u64,
    day: i64,
    minute: u16,
    weekday: u8,
}

const SHOWN: [Shown; 8] = [
    // 2023-11-14 22:13:20, a Tuesday
    Shown {
        text: "UTC",
        now: 1_700_000_000,
        day: 19_675,
        minute: 1_333,
        weekday: 2,
    },
    Shown {
        text: "+05:30",
        now: 1_700_000_000,
        day: 19_676,
        minute: 223,
        weekday: 3,
    },
    Shown {
        text: "-01:00",
        now: 0,
        day: -1,
        minute: 1_380,
        weekday: 3,
    },
    Shown {
        text: "+14:59",
        now: 0,
        day: 0,
        minute: 899,
        weekday: 4,
    },
    Shown {
        text: "CET-1CEST,M3.5.0,M10.5.0/3",
        now: 1_700_000_000,
        day: 19_675,
        minute: 1_393,
        weekday: 2,
    },
    // the last second before summer time begins on 2024-03-31, and the first of it
    Shown {
        text: "CET-1CEST,M3.5.0,M10.5.0/3",
        now: 1_711_846_799,
        day: 19_813,
        minute: 119,
        weekday: 0,
    },
    Shown {
        text: "CET-1CEST,M3.5.0,M10.5.0/3",
        now: 1_711_846_800,
        day: 19_813,
        minute: 180,
        weekday: 0,
    },
    Shown {
        text: "EST5EDT,M3.2.0,M11.1.0",
        now: 1_720_000_000,
        day: 19_907,
        minute: 346,
        weekday: 3,
    },
];

const BAD_ZONES: [&str; 8] = [
    "",
    "utc",
    "+15:00",
    "+05:60",
    "+5:30",
    "05:30",
    "Europe/Berlin",
    "EST5EDT",
];

fn expect_shown(shown: &Shown) -> Result<(), Fail> {
    let Ok(zone) = Zone::read(shown.text) else {
        return Err(Fail::new("no zone"));
    };
    if shown.now >= 1 << 37 {
        return Err(Fail::new("too late a moment"));
    }
    let local = zone.local(shown.now);
    if local.day == shown.day && local.minute == shown.minute && local.weekday == shown.weekday {
        Ok(())
    } else {
        Err(Fail::new("another local time"))
    }
}

#[test]
fn clocks_of_zones_show_these_times() -> Result<(), Fail> {
    for shown in &SHOWN {
        expect_shown(shown)?;
    }
    for text in BAD_ZONES {
        if !matches!(Zone::read(text), Err(BadZone)) {
            return Err(Fail::new("a zone of no text"));
        }
    }
    Ok(())
}

// Whether a host with so many good contacts is left alone at a minute of a weekday.
struct Alone(u32, u8, u16, bool);

// From 7:00 up to 19:30 from Monday to Friday, after seven good contacts.
const BY_DEFAULT: [Alone; 6] = [
    Alone(6, 1, 420, false),
    Alone(7, 1, 420, true),
    Alone(7, 1, 419, false),
    Alone(7, 5, 1_169, true),
    Alone(7, 5, 1_170, false),
    Alone(7, 6, 420, false),
];

// From 22:00 on Friday up to 6:00 on Saturday.
const OVER_MIDNIGHT: [Alone; 6] = [
    Alone(7, 5, 1_320, true),
    Alone(7, 5, 1_319, false),
    Alone(7, 6, 359, true),
    Alone(7, 6, 360, false),
    Alone(7, 5, 359, false),
    Alone(7, 6, 1_320, false),
];

fn expect_alone(rules: &Rules, cases: &[Alone]) -> Result<(), Fail> {
    for case in cases {
        let local = Local {
            day: 0,
            weekday: case.1,
            minute: case.2,
        };
        if blackout(rules, case.0, &local) != case.3 {
            return Err(Fail::new("another blackout"));
        }
    }
    Ok(())
}

fn rules_over_midnight(alloc: Global, rules: &Rules) -> Result<Rules, Fail> {
    let Some(period) = Period::new(1_320, 360, 1 << 5) else {
        return Err(Fail::new("no period"));
    };
    let mut periods = Periods::none(alloc);
    if periods.push(period).is_err() {
        return Err(Fail::new("no room for a period"));
    }
    let mut change = RuleChange::none();
    change.set_blackout_periods(periods);
    Ok(rules.changed(alloc, &change)?)
}

#[test]
fn hosts_are_left_alone_in_these_minutes(rt: HostRuntime) -> Result<(), Fail> {
    let alloc = rt.alloc();
    let rules = Rules::defaults(alloc)?;
    expect_alone(&rules, &BY_DEFAULT)?;
    expect_alone(&rules_over_midnight(alloc, &rules)?, &OVER_MIDNIGHT)
}

const FULL: Line = Line {
    number: 0,
    start: 1_700_000_000,
    end: 1_700_000_060,
    kind: Kind::Full,
    filled: true,
    keep: false,
};

// The dump that is due at a moment behind one full backup.
const DUE: [(u64, Option<Kind>); 5] = [
    (1_699_999_999, None),
    (1_700_083_807, None),
    (1_700_083_808, Some(Kind::Incr)),
    (1_700_602_207, Some(Kind::Incr)),
    (1_700_602_208, Some(Kind::Full)),
];

#[test]
fn dumps_are_due_at_these_moments(rt: HostRuntime) -> Result<(), Fail> {
    let rules = Rules::defaults(rt.alloc())?;
    for (now, kind) in DUE {
        if due(&[FULL], &rules, now) != kind {
            return Err(Fail::new("another dump is due"));
        }
    }
    if due(&[], &rules, 0) == Some(Kind::Full) {
        Ok(())
    } else {
        Err(Fail::new("no full of a host without backups"))
    }
}

// Day 19,675 and the day before 1970.
const THIRD_OF_FOUR: [bool; 16] = [
    false, false, false, true, false, false, false, true, false, false, false, true, false, false,
    false, true,
];

const LAST_OF_SIXTEEN: [bool; 16] = [
    false, false, false, false, false, false, false, false, false, false, false, false, false,
    false, false, true,
];

#[test]
fn nights_clean_these_buckets() -> Result<(), Fail> {
    if nightly_buckets(19_675, 4) != THIRD_OF_FOUR || nightly_buckets(-1, 16) != LAST_OF_SIXTEEN {
        return Err(Fail::new("other buckets"));
    }
    let schedule = [60, 120, 60];
    let asked = [
        wake(&schedule, 60),
        wake(&schedule, 120),
        wake(&schedule, 61),
        wake(&[], 60),
    ];
    let wanted = [
        Wakeup::Nightly,
        Wakeup::Wake,
        Wakeup::Nothing,
        Wakeup::Nothing,
    ];
    if asked == wanted {
        Ok(())
    } else {
        Err(Fail::new("other wakeups"))
    }
}
