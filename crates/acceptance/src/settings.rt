//! What the settings file turns, and how a run ends whose settings are refused.

use crate::ends::{Case, Machine, QUIET, Want, expect_file, expect_run, expect_run_over};
use command_line::USAGE;
use disk_trait::FileId;
use std::test::Fail;

/// The command `night`.
const NIGHT: &str = "backup_server night --store store";

/// The command `serve`.
const SERVE: &str = "backup_server serve --listen 127.0.0.1:8080 --store store";

/// Adds a host, and asks what is due.
const FIRST: &str =
    "PUT /hosts/pc1 HTTP/1.1\r\nHost: b\r\n\r\nGET /hosts/pc1/due HTTP/1.1\r\nHost: b\r\n\r\n";

const FIRST_ADDED: &str =
    "HTTP/1.1 201 Created\r\nContent-Type: application/json\r\nContent-Length: 14\r\n\r\n{\"host\":\"pc1\"}";

/// Adds a second host, and asks what is due on both.
const SECOND: &str =
    "PUT /hosts/pc2 HTTP/1.1\r\nHost: b\r\n\r\nGET /hosts/pc1/due HTTP/1.1\r\nHost: b\r\n\r\n\
    GET /hosts/pc2/due HTTP/1.1\r\nHost: b\r\n\r\n";

const SECOND_ADDED: &str =
    "HTTP/1.1 201 Created\r\nContent-Type: application/json\r\nContent-Length: 14\r\n\r\n{\"host\":\"pc2\"}";

/// A host's first full is due, and may begin.
const OPEN: &str =
    "HTTP/1.1 200 OK\r\nContent-Type: application/json\r\nContent-Length: 31\r\n\r\n{\"blackout\":false,\"due\":\"full\"}";

/// It is due, and the host is to be left alone.
const BLACKED_OUT: &str =
    "HTTP/1.1 200 OK\r\nContent-Type: application/json\r\nContent-Length: 30\r\n\r\n{\"blackout\":true,\"due\":\"full\"}";

/// Settings, and what is due on a host that is added under them. A run's clock stands at 22:13 of a Tuesday in UTC; each
/// working day from 7:00 to 19:30 a host is left alone whose good contacts suffice.
const DUE: [(&str, &str); 7] = [
    ("", OPEN),
    ("Zone = \"-06:00\"", OPEN),
    ("[Rules]\nBlackoutGoodCnt = 0", OPEN),
    (
        "Zone = \"-06:00\"\n[Rules]\nBlackoutGoodCnt = 0",
        BLACKED_OUT,
    ),
    ("Zone = \"+06:00\"\n[Rules]\nBlackoutGoodCnt = 0", OPEN),
    ("Zone = \"EST5\"\n[Rules]\nBlackoutGoodCnt = 0", BLACKED_OUT),
    (
        "[Rules]\nBlackoutGoodCnt = 0\nBlackoutPeriods = \"1333-1334:2\"",
        BLACKED_OUT,
    ),
];

#[test]
fn the_settings_decide_what_is_due(rt: HostRuntime) -> Result<(), Fail> {
    for (settings, due) in DUE {
        let case = Case {
            settings,
            input: &[FIRST],
            ..QUIET
        };
        let want = Want {
            status: 0,
            said: "",
            output: &[FIRST_ADDED, due],
        };
        let _ = expect_run(&rt, &case, &want)?;
    }
    Ok(())
}

/// A host keeps the rules of the settings under which it was added; the zone is that of the run.
#[test]
fn a_host_keeps_the_rules_that_it_was_added_with(rt: HostRuntime) -> Result<(), Fail> {
    let first = Case {
        settings: "[Rules]\nBlackoutGoodCnt = 0",
        input: &[FIRST],
        ..QUIET
    };
    let added = Want {
        status: 0,
        said: "",
        output: &[FIRST_ADDED, OPEN],
    };
    let disk = expect_run(&rt, &first, &added)?;
    let second = Case {
        settings: "Zone = \"-06:00\"",
        input: &[SECOND],
        ..QUIET
    };
    let asked = Want {
        status: 0,
        said: "",
        output: &[SECOND_ADDED, BLACKED_OUT, OPEN],
    };
    let _ = expect_run_over(&rt, &second, disk, &asked)?;
    Ok(())
}

/// Settings that are refused, and what is said of them.
const REFUSED: [(&str, &str); 8] = [
    ("[Rules]\nFillCycle = -1", "bad settings: FillCycle"),
    ("[Rules]\nFillCycle = 3651", "bad settings: FillCycle"),
    (
        "WakeupSchedule = []\nZone = \"Europe/Berlin\"",
        "bad settings: Zone",
    ),
    (
        "BackupPCNightlyPeriod = 3",
        "bad settings: BackupPCNightlyPeriod",
    ),
    ("Rules = 7", "bad settings: Rules"),
    ("FillCycle = 7", "bad settings: unknown key"),
    ("[Rules]\nfill = 7", "bad settings: unknown key"),
    ("Zone", "bad settings: not TOML"),
];

/// Fails where a run with these settings doesn't end so, or touches the link or the disk.
fn expect_refused(
    rt: &impl Machine,
    line: &str,
    settings: &str,
    status: u8,
    said: &str,
) -> Result<(), Fail> {
    let case = Case {
        line,
        settings,
        input: &[FIRST],
        ..QUIET
    };
    let want = Want {
        status,
        said,
        output: &[],
    };
    let mut disk = expect_run(rt, &case, &want)?;
    expect_file(rt.alloc(), &mut disk, FileId::Head, None)
}

#[test]
fn bad_settings_open_no_store(rt: HostRuntime) -> Result<(), Fail> {
    for (settings, said) in REFUSED {
        expect_refused(&rt, QUIET.line, settings, 7, said)?;
        expect_refused(&rt, NIGHT, settings, 7, said)?;
        expect_refused(&rt, SERVE, settings, 7, said)?;
    }
    Ok(())
}

/// The words are read first.
#[test]
fn faulty_words_come_before_bad_settings(rt: HostRuntime) -> Result<(), Fail> {
    expect_refused(&rt, "backup_server frob", "Zone", 2, USAGE)
}
