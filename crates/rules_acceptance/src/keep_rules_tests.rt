use backup_rules::{KeepCounts, Kind, Line, RuleChange, Rules, Setting};
use keep_rules::{named, numbers_rise};
use std::alloc::Global;
use std::test::Fail;

// The moment of all cases, in seconds since 1970.
const NOW: u64 = 2_000_000_000;

const SECOND: u64 = 1;

const DAY: u64 = 86_400;

const WEEK: u64 = 604_800;

// How many backups a case has at most.
const MOST: usize = 13;

// A setting and its number.
struct Number(Setting, u32);

// Rules, the ages of backups from the oldest to the newest in some unit, and which of them are named. The flags were
// computed in Python, straight from the equation on sets.
struct Case {
    numbers: &'static [Number],
    full: &'static [u32],
    old: &'static [u32],
    filled: bool,
    unit: u64,
    ages: &'static [u64],
    named: &'static [bool],
}

// Weekly backups at growing distances; the edges of FullAgeMax and FullKeepCntMin; old backups; unfilled ones.
const CASES: [Case; 8] = [
    Case {
        numbers: &[Number(Setting::FillCycle, 7)],
        full: &[4, 2, 3],
        old: &[1],
        filled: true,
        unit: WEEK,
        ages: &[14, 10, 8, 6, 5, 4, 3, 2, 1, 0],
        named: &[
            false, false, false, false, true, false, false, false, false, false,
        ],
    },
    Case {
        numbers: &[Number(Setting::FillCycle, 7)],
        full: &[4, 2, 3],
        old: &[1],
        filled: true,
        unit: WEEK,
        ages: &[12, 11, 10, 9, 8, 7, 6, 5, 4, 3, 2, 1, 0],
        named: &[
            false, true, true, true, true, true, true, true, false, false, false, false, false,
        ],
    },
    Case {
        numbers: &[
            Number(Setting::FillCycle, 1),
            Number(Setting::FullAgeMax, 10),
        ],
        full: &[2],
        old: &[1],
        filled: true,
        unit: SECOND,
        ages: &[864_000, 1, 0],
        named: &[false, false, false],
    },
    Case {
        numbers: &[
            Number(Setting::FillCycle, 1),
            Number(Setting::FullAgeMax, 10),
        ],
        full: &[2],
        old: &[1],
        filled: true,
        unit: SECOND,
        ages: &[864_001, 1, 0],
        named: &[true, false, false],
    },
    Case {
        numbers: &[
            Number(Setting::FillCycle, 1),
            Number(Setting::FullAgeMax, 10),
            Number(Setting::FullKeepCntMin, 2),
        ],
        full: &[2],
        old: &[1],
        filled: true,
        unit: SECOND,
        ages: &[864_001, 1, 0],
        named: &[false, false, false],
    },
    Case {
        numbers: &[Number(Setting::FillCycle, 1), Number(Setting::OldAge, 4)],
        full: &[10],
        old: &[0, 2],
        filled: true,
        unit: DAY,
        ages: &[8, 7, 6, 5, 4, 3, 2, 1, 0],
        named: &[false, true, true, true, false, false, false, false, false],
    },
    Case {
        numbers: &[
            Number(Setting::IncrKeepCnt, 3),
            Number(Setting::IncrAgeMax, 2),
        ],
        full: &[1],
        old: &[1],
        filled: false,
        unit: DAY,
        ages: &[5, 4, 3, 2, 1, 0],
        named: &[true, true, true, false, false, false],
    },
    Case {
        numbers: &[],
        full: &[1],
        old: &[1],
        filled: true,
        unit: DAY,
        ages: &[],
        named: &[],
    },
];

fn counts_of(alloc: Global, numbers: &[u32]) -> Result<KeepCounts, Fail> {
    match KeepCounts::from_vec(Vec::from_slice(alloc, numbers)?) {
        Some(counts) => Ok(counts),
        None => Err(Fail::new("counts out of range")),
    }
}

fn rules_of(alloc: Global, case: &Case) -> Result<Rules, Fail> {
    let mut change = RuleChange::none();
    for number in case.numbers {
        if change.set(number.0, number.1).is_err() {
            return Err(Fail::new("a number out of range"));
        }
    }
    change.set_full_keep_cnt(counts_of(alloc, case.full)?);
    change.set_old_full_keep_cnt(counts_of(alloc, case.old)?);
    Ok(Rules::defaults(alloc)?.changed(alloc, &change)?)
}

fn expect_case(alloc: Global, case: &Case) -> Result<(), Fail> {
    let rules = rules_of(alloc, case)?;
    let mut lines = Vec::new(alloc);
    let mut number = 0;
    for &age in case.ages {
        let start = NOW.saturating_sub(age.saturating_mul(case.unit));
        lines.push(Line {
            number,
            start,
            end: start,
            kind: Kind::Full,
            filled: case.filled,
            keep: false,
        })?;
        number = u32::wrapping_add(number, 1);
    }
    if !numbers_rise(lines.as_slice()) {
        return Err(Fail::new("numbers don't rise"));
    }
    let mut flags = [true; MOST];
    let Some(flags) = flags.get_mut(..lines.len()) else {
        return Err(Fail::new("too many backups"));
    };
    named(lines.as_slice(), &rules, NOW, flags);
    if &*flags == case.named {
        Ok(())
    } else {
        Err(Fail::new("others are named"))
    }
}

#[test]
fn backups_of_these_ages_are_named(rt: HostRuntime) -> Result<(), Fail> {
    let alloc = rt.alloc();
    for case in &CASES {
        expect_case(alloc, case)?;
    }
    Ok(())
}
