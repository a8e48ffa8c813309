use night_work::{Night, NightEnd, night};
use office_model::{Answer, Event, Port, Refusal};
use office_talks::{HOST, NOW, Row, expect, expect_rows, moment_at};
use pool_name::Md5Namer;
use std::alloc::Global;
use std::test::Fail;
use stream_traits::FixedClock;
use tree_office::TreeOffice;
use wake_schedule::Zone;

/// An office that keeps a number for each call, refuses that at one place, and notes which buckets were cleaned, in which order.
#[derive(Drop)]
struct Noting {
    office: TreeOffice<Md5Namer>,
    calls: u64,
    refused: u64,
    buckets: Vec<u8>,
}

impl Port for Noting {
    ghost moves = { λ p calls q. Unit {0} };

    fn call(&mut self, alloc: Global, event: &Event) -> Result<Answer, Refusal> {
        self.calls = self.calls.saturating_add(1);
        if self.calls == self.refused {
            return Err(Refusal::Halted);
        }
        if let Event::Clean { bucket } = event {
            self.buckets.push(*bucket)?;
        }
        self.office.call(alloc, event)
    }

    ghost none = { λ p. tt };

    ghost joined = { λ p q r xs ys a b. tt };
}

/// The minutes at which the server wakes if nothing is said: each hour but midnight.
const SCHEDULE: [u16; 23] = [
    60, 120, 180, 240, 300, 360, 420, 480, 540, 600, 660, 720, 780, 840, 900, 960, 1_020, 1_080,
    1_140, 1_200, 1_260, 1_320, 1_380,
];

/// 22:13:20 on day 19,675, which is minute 1,333.
const EVENING: u64 = NOW;

const DAY: u64 = 86_400;

/// 400 days later, when the rules take the first backup of pc1 and the first two of pc3.
const LATER: u64 = EVENING + 400 * DAY;

/// An office without hosts that refuses this call.
fn office(alloc: Global, refused: u64) -> Noting {
    Noting {
        office: TreeOffice::new(alloc, Md5Namer),
        calls: 0,
        refused,
        buckets: Vec::new(alloc),
    }
}

/// A night: its moment, its period, whether it is scheduled, and its text.
struct Asked(u64, u32, bool, &'static str);

/// A night in UTC by the usual schedule.
fn run(alloc: Global, port: &mut Noting, asked: &Asked) -> Result<NightEnd, Fail> {
    let mut clock = FixedClock::new(moment_at(asked.0));
    if asked.1 == 0 {
        return Err(Fail::new("no period"));
    }
    match Zone::read("UTC") {
        Ok(zone) => Ok(night(alloc, port, &mut clock, &zone, &SCHEDULE, asked.1, asked.2)),
        Err(_) => Err(Fail::new("no zone")),
    }
}

/// The night ends with its text.
fn expect_night(alloc: Global, port: &mut Noting, asked: &Asked) -> Result<(), Fail> {
    let end = run(alloc, port, asked)?;
    match end.text() {
        Some(text) => expect(text.as_slice() == asked.3.as_bytes(), "another text"),
        None => Err(Fail::new("no text")),
    }
}

/// How many calls an office had, and which buckets it cleaned.
fn expect_noted(port: &Noting, calls: u64, buckets: &[u8]) -> Result<(), Fail> {
    expect(port.calls == calls, "other calls")?;
    expect(port.buckets.as_slice() == buckets, "other buckets")
}

const FOURTH: Asked = Asked(
    EVENING,
    4,
    false,
    "night 19675: expired 0, marked 0, unmarked 0, removed 0\n",
);

#[test]
fn night_of_a_period_of_four_cleans_each_fourth_bucket(rt: HostRuntime) -> Result<(), Fail> {
    let alloc = rt.alloc();
    let mut port = office(alloc, 0);
    expect_night(alloc, &mut port, &FOURTH)?;
    expect_noted(&port, 6, &[3, 7, 11, 15])
}

/// 2:00 is an entry of the schedule, but not its first.
const NOT_NOW: [Asked; 2] = [
    Asked(EVENING, 4, true, "not now\n"),
    Asked(2 * 3_600, 16, true, "not now\n"),
];

/// 1:00 is its first.
const FIRST: Asked = Asked(
    3_600,
    16,
    true,
    "night 0: expired 0, marked 0, unmarked 0, removed 0\n",
);

#[test]
fn scheduled_night_works_in_its_minute_alone(rt: HostRuntime) -> Result<(), Fail> {
    let alloc = rt.alloc();
    let mut port = office(alloc, 0);
    for asked in &NOT_NOW {
        expect_night(alloc, &mut port, asked)?;
        expect_noted(&port, 0, &[])?;
    }
    expect_night(alloc, &mut port, &FIRST)?;
    expect_noted(&port, 3, &[0])
}

/// What makes three hosts.
const HOSTS: [Row; 3] = [
    HOST,
    Row("PUT /hosts/pc2", "", "{\"host\":\"pc2\"}"),
    Row("PUT /hosts/pc3", "", "{\"host\":\"pc3\"}"),
];

/// What makes a full backup of one file, in order.
const BACKUPS: [[Row; 3]; 7] = [
    [
        Row("POST /hosts/pc1/dumps?kind=full", "", "{\"dump\":\"1-0\"}"),
        Row("PUT /dumps/1-0/entry?path=file&kind=file", "one", "{}"),
        Row("POST /dumps/1-0/commit", "", "{\"number\":0}"),
    ],
    [
        Row("POST /hosts/pc2/dumps?kind=full", "", "{\"dump\":\"1-1\"}"),
        Row("PUT /dumps/1-1/entry?path=file&kind=file", "two", "{}"),
        Row("POST /dumps/1-1/commit", "", "{\"number\":0}"),
    ],
    [
        Row("POST /hosts/pc3/dumps?kind=full", "", "{\"dump\":\"1-2\"}"),
        Row("PUT /dumps/1-2/entry?path=file&kind=file", "three", "{}"),
        Row("POST /dumps/1-2/commit", "", "{\"number\":0}"),
    ],
    [
        Row("POST /hosts/pc3/dumps?kind=full", "", "{\"dump\":\"1-3\"}"),
        Row("PUT /dumps/1-3/entry?path=file&kind=file", "four", "{}"),
        Row("POST /dumps/1-3/commit", "", "{\"number\":1}"),
    ],
    [
        Row("POST /hosts/pc1/dumps?kind=full", "", "{\"dump\":\"1-4\"}"),
        Row("PUT /dumps/1-4/entry?path=file&kind=file", "five", "{}"),
        Row("POST /dumps/1-4/commit", "", "{\"number\":1}"),
    ],
    [
        Row("POST /hosts/pc3/dumps?kind=full", "", "{\"dump\":\"1-5\"}"),
        Row("PUT /dumps/1-5/entry?path=file&kind=file", "six", "{}"),
        Row("POST /dumps/1-5/commit", "", "{\"number\":2}"),
    ],
    [
        Row("POST /hosts/pc1/dumps?kind=full", "", "{\"dump\":\"1-6\"}"),
        Row("PUT /dumps/1-6/entry?path=file&kind=file", "seven", "{}"),
        Row("POST /dumps/1-6/commit", "", "{\"number\":2}"),
    ],
];

/// Three hosts with three full backups, one and three, each a day after the one before. After 400 days the rules take the first
/// one of pc1, whose next two are more than half a week younger, and the first two of pc3.
fn fill(alloc: Global, port: &mut Noting) -> Result<(), Fail> {
    expect_rows(alloc, port, moment_at(EVENING), &HOSTS)?;
    let mut begun = EVENING;
    for rows in &BACKUPS {
        expect_rows(alloc, port, moment_at(begun), rows)?;
        begun = begun.saturating_add(DAY);
    }
    Ok(())
}

/// An office of these that refuses this call.
fn three_hosts(alloc: Global, refused: u64) -> Result<Noting, Fail> {
    let mut port = office(alloc, 0);
    fill(alloc, &mut port)?;
    port.calls = 0;
    port.refused = refused;
    Ok(port)
}

/// How many backups the rules of each host take, if it is asked for alone.
const EXPIRED: [Row; 3] = [
    Row("POST /hosts/pc1/expire", "", "{\"deleted\":1}"),
    Row("POST /hosts/pc2/expire", "", "{\"deleted\":0}"),
    Row("POST /hosts/pc3/expire", "", "{\"deleted\":2}"),
];

/// All backups that the rules take go in one night, and their contents leave in the next one.
const FIRST_NIGHT: Asked = Asked(
    LATER,
    1,
    false,
    "night 20075: expired 3, marked 3, unmarked 0, removed 0\n",
);

const SECOND_NIGHT: Asked = Asked(
    LATER + DAY,
    1,
    false,
    "night 20076: expired 0, marked 0, unmarked 0, removed 3\n",
);

#[test]
fn night_expires_all_hosts_and_cleans_behind_them(rt: HostRuntime) -> Result<(), Fail> {
    let alloc = rt.alloc();
    let mut port = three_hosts(alloc, 0)?;
    expect_night(alloc, &mut port, &FIRST_NIGHT)?;
    expect(port.calls == 21, "other calls")?;
    expect_night(alloc, &mut port, &SECOND_NIGHT)
}

/// The same answers, asked for one by one.
#[test]
fn hosts_expire_one_by_one_as_in_a_night(rt: HostRuntime) -> Result<(), Fail> {
    let mut port = three_hosts(rt.alloc(), 0)?;
    expect_rows(rt.alloc(), &mut port, moment_at(LATER), &EXPIRED)
}

/// A night that is refused at this call ends so.
fn expect_refused(alloc: Global, refused: u64) -> Result<(), Fail> {
    let mut port = three_hosts(alloc, refused)?;
    let end = run(alloc, &mut port, &FIRST_NIGHT)?;
    expect(
        matches!(end, NightEnd::Refused(Refusal::Halted)),
        "another end",
    )?;
    expect(end.text().is_none(), "a text")?;
    expect(port.calls == refused, "calls after a refusal")
}

#[test]
fn night_ends_at_its_first_refusal(rt: HostRuntime) -> Result<(), Fail> {
    for refused in [1, 3, 8, 21] {
        expect_refused(rt.alloc(), refused)?;
    }
    let mut port = three_hosts(rt.alloc(), 22)?;
    match run(rt.alloc(), &mut port, &FIRST_NIGHT)? {
        NightEnd::Done(Night { expired: 3, .. }) => Ok(()),
        _ => Err(Fail::new("another end")),
    }
}
