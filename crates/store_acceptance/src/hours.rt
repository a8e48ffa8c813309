//! What goes by the clock: the rules of keeping, blackout, and what is due.

use std::test::Fail;
use store_talks::scripts::Step::{Ask, Contact, Due, Dump, Expire, Gone, Held};
use store_talks::scripts::{At, Script, expect_script};
use store_talks::talks::{DONE, HOST, Machine, Row, START, blank_disk};

const WEEK: u64 = 604_800;

/// Full backups: how many weeks old they are, in the order of their numbers, and the numbers of those that the rules name.
struct Keeping {
    weeks: &'static [u64],
    named: &'static [usize],
}

/// Of ten backups the fifth is named; of thirteen seven are, and the first, which has no older one, stays.
const KEEPINGS: [Keeping; 2] = [
    Keeping {
        weeks: &[14, 10, 8, 6, 5, 4, 3, 2, 1, 0],
        named: &[4],
    },
    Keeping {
        weeks: &[12, 11, 10, 9, 8, 7, 6, 5, 4, 3, 2, 1, 0],
        named: &[1, 2, 3, 4, 5, 6, 7],
    },
];

const KEEP_RULES: Row = Row(
    "PUT /hosts/pc1/rules?FillCycle=7&FullKeepCnt=4,2,3",
    "",
    DONE,
);

/// Adds the dumps of backups that are so many weeks old, each at its moment.
fn add_dumps(script: &mut Script, weeks: &[u64]) -> Result<(), Fail> {
    for (number, weeks) in weeks.iter().enumerate() {
        let at = START.saturating_sub(weeks.saturating_mul(WEEK));
        script.add(at, &Dump(number, "full", &[]))?;
    }
    Ok(())
}

/// Adds a look at each of so many backups, of which these are gone.
fn add_looks(script: &mut Script, count: usize, gone: &[usize]) -> Result<(), Fail> {
    for number in 0..count {
        let step = if gone.contains(&number) {
            Gone(number)
        } else {
            Held(number)
        };
        script.add(START, &step)?;
    }
    Ok(())
}

/// Fails where the rules name other backups, or name any if they are followed again.
fn expect_keeping(rt: &impl Machine, keeping: &Keeping) -> Result<(), Fail> {
    let alloc = rt.alloc();
    let mut script = Script::new(alloc);
    script.add(START, &Ask(HOST))?;
    add_dumps(&mut script, keeping.weeks)?;
    script.add(START, &Ask(KEEP_RULES))?;
    script.add(START, &Expire(keeping.named.len()))?;
    add_looks(&mut script, keeping.weeks.len(), keeping.named)?;
    script.add(START, &Expire(0))?;
    let _ = expect_script(rt, blank_disk(alloc, &[])?, script)?;
    Ok(())
}

#[test]
fn the_rules_name_what_expires(rt: HostRuntime) -> Result<(), Fail> {
    for keeping in &KEEPINGS {
        expect_keeping(&rt, keeping)?;
    }
    Ok(())
}

const AGE_RULES: Row = Row(
    "PUT /hosts/pc1/rules?FillCycle=1&FullKeepCnt=3&FullAgeMax=10&FullKeepCntMin=1",
    "",
    DONE,
);

const KEEP_TWO: Row = Row("PUT /hosts/pc1/rules?FullKeepCntMin=2", "", DONE);

const KEEP_ONE: Row = Row("PUT /hosts/pc1/rules?FullKeepCntMin=1", "", DONE);

const TEN_DAYS_BEFORE: u64 = 1_699_136_000;

const A_SECOND_LATER: u64 = 1_700_000_001;

/// Ten days are no reason to go, and a second more is one, unless there are too few newer ones.
const BY_AGE: &[At] = &[
    At(TEN_DAYS_BEFORE, Ask(HOST)),
    At(TEN_DAYS_BEFORE, Ask(AGE_RULES)),
    At(TEN_DAYS_BEFORE, Dump(0, "full", &[])),
    At(1_699_900_000, Dump(1, "full", &[])),
    At(START, Dump(2, "full", &[])),
    At(START, Expire(0)),
    At(START, Ask(KEEP_TWO)),
    At(A_SECOND_LATER, Expire(0)),
    At(A_SECOND_LATER, Ask(KEEP_ONE)),
    At(A_SECOND_LATER, Expire(1)),
    At(A_SECOND_LATER, Gone(0)),
    At(A_SECOND_LATER, Held(1)),
    At(A_SECOND_LATER, Held(2)),
];

/// What is due before there is a backup, and at the three edges behind a full one.
const DUE: &[At] = &[
    At(START, Ask(HOST)),
    At(START, Due(false, "full")),
    At(START, Dump(0, "full", &[])),
    At(START, Due(false, "none")),
    At(1_700_083_807, Due(false, "none")),
    At(1_700_083_808, Due(false, "incr")),
    At(1_700_602_207, Due(false, "incr")),
    At(1_700_602_208, Due(false, "full")),
];

const FRIDAYS: Row = Row("PUT /hosts/pc1/rules?BlackoutPeriods=1320-360:5", "", DONE);

/// In UTC.
const FRIDAY_5_59: u64 = 1_700_200_740;

const SATURDAY_5_59: u64 = 1_700_287_140;

const SATURDAY_6_00: u64 = 1_700_287_200;

/// A blackout over the night of Friday begins with the seventh good contact, and ends with the third bad one in a row.
const BLACKOUT: &[At] = &[
    At(FRIDAY_5_59, Ask(HOST)),
    At(FRIDAY_5_59, Ask(FRIDAYS)),
    At(FRIDAY_5_59, Contact(1, 0, 1)),
    At(FRIDAY_5_59, Contact(1, 0, 2)),
    At(FRIDAY_5_59, Contact(1, 0, 3)),
    At(FRIDAY_5_59, Contact(1, 0, 4)),
    At(FRIDAY_5_59, Contact(1, 0, 5)),
    At(FRIDAY_5_59, Contact(1, 0, 6)),
    At(SATURDAY_5_59, Due(false, "full")),
    At(SATURDAY_6_00, Due(false, "full")),
    At(FRIDAY_5_59, Due(false, "full")),
    At(FRIDAY_5_59, Contact(1, 0, 7)),
    At(SATURDAY_5_59, Due(true, "full")),
    At(SATURDAY_6_00, Due(false, "full")),
    At(FRIDAY_5_59, Due(false, "full")),
    At(FRIDAY_5_59, Contact(0, 1, 7)),
    At(FRIDAY_5_59, Contact(0, 2, 7)),
    At(FRIDAY_5_59, Contact(1, 0, 8)),
    At(FRIDAY_5_59, Contact(0, 1, 8)),
    At(FRIDAY_5_59, Contact(0, 2, 8)),
    At(SATURDAY_5_59, Due(true, "full")),
    At(FRIDAY_5_59, Contact(0, 3, 0)),
    At(SATURDAY_5_59, Due(false, "full")),
];

/// What is asked from a disk without files on.
const CASES: [&[At]; 3] = [BY_AGE, DUE, BLACKOUT];

#[test]
fn the_clock_decides_at_its_edges(rt: HostRuntime) -> Result<(), Fail> {
    let alloc = rt.alloc();
    for steps in CASES {
        let mut script = Script::new(alloc);
        script.add_all(steps)?;
        let _ = expect_script(&rt, blank_disk(alloc, &[])?, script)?;
    }
    Ok(())
}
