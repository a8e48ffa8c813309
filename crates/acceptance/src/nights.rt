//! The command `night`: what it does, what it says, and how it ends.

use crate::ends::{Case, Machine, QUIET, Want, disk_of, expect_run, expect_run_over, run_over};
use crate::files::{COMMIT, COMMITTED};
use disk_trait::{Disk, FileId};
use std::test::Fail;

/// The command over an empty link.
const NIGHT: Case<'static> = Case {
    line: "backup_server night --store store",
    ..QUIET
};

/// Settings and words, and what is said of an empty store. A run's clock stands at 22:13 of day 19,675 in UTC.
const SAID: [(&str, &str, &str); 6] = [
    (
        "BackupPCNightlyPeriod = 4",
        "backup_server night --store store",
        "night 19675: expired 0, marked 0, unmarked 0, removed 0\n",
    ),
    (
        "Zone = \"+02:00\"",
        "backup_server night --store store",
        "night 19676: expired 0, marked 0, unmarked 0, removed 0\n",
    ),
    (
        "",
        "backup_server night --store store --scheduled",
        "not now\n",
    ),
    (
        "WakeupSchedule = [60, 1333]",
        "backup_server night --store store --scheduled",
        "not now\n",
    ),
    (
        "WakeupSchedule = [1333, 60]",
        "backup_server night --store store --scheduled",
        "night 19675: expired 0, marked 0, unmarked 0, removed 0\n",
    ),
    (
        "WakeupSchedule = [1273]\nZone = \"-01:00\"",
        "backup_server night --store store --scheduled",
        "night 19675: expired 0, marked 0, unmarked 0, removed 0\n",
    ),
];

#[test]
fn a_night_says_what_it_did(rt: HostRuntime) -> Result<(), Fail> {
    for (settings, line, said) in SAID {
        let case = Case {
            line,
            settings,
            ..QUIET
        };
        let want = Want {
            status: 0,
            said: "",
            output: &[said],
        };
        let _ = expect_run(&rt, &case, &want)?;
    }
    Ok(())
}

/// Takes the only backup away.
const DELETE: &str = "DELETE /hosts/pc1/backups/0 HTTP/1.1\r\nHost: b\r\n\r\n";

const DONE: &str =
    "HTTP/1.1 200 OK\r\nContent-Type: application/json\r\nContent-Length: 2\r\n\r\n{}";

/// Nights after that, by the number of nights in which each bucket is cleaned. The content lies in bucket 5, and 19,675 leaves 3
/// by 4.
const NIGHTS: [(&str, &str); 4] = [
    (
        "BackupPCNightlyPeriod = 4",
        "night 19675: expired 0, marked 0, unmarked 0, removed 0\n",
    ),
    (
        "BackupPCNightlyPeriod = 2",
        "night 19675: expired 0, marked 1, unmarked 0, removed 0\n",
    ),
    (
        "",
        "night 19675: expired 0, marked 0, unmarked 0, removed 1\n",
    ),
    (
        "",
        "night 19675: expired 0, marked 0, unmarked 0, removed 0\n",
    ),
];

/// A content that nothing holds is marked by one night and removed by another, if they clean its bucket.
#[test]
fn nights_clean_what_nothing_holds(rt: HostRuntime) -> Result<(), Fail> {
    let first = Case {
        input: &[COMMIT, DELETE],
        ..QUIET
    };
    let deleted = Want {
        status: 0,
        said: "",
        output: &[COMMITTED, DONE],
    };
    let mut disk = expect_run(&rt, &first, &deleted)?;
    for (settings, said) in NIGHTS {
        let want = Want {
            status: 0,
            said: "",
            output: &[said],
        };
        disk = expect_run_over(&rt, &Case { settings, ..NIGHT }, disk, &want)?;
    }
    Ok(())
}

/// Two hosts with an incremental each that its rules take at once.
const DUMPS: &str = "PUT /hosts/pc1 HTTP/1.1\r\nHost: b\r\n\r\n\
    PUT /hosts/pc2 HTTP/1.1\r\nHost: b\r\n\r\n\
    POST /hosts/pc1/dumps?kind=full HTTP/1.1\r\nHost: b\r\n\r\n\
    POST /hosts/pc2/dumps?kind=full HTTP/1.1\r\nHost: b\r\n\r\n\
    POST /dumps/1-0/commit HTTP/1.1\r\nHost: b\r\n\r\n\
    POST /dumps/1-1/commit HTTP/1.1\r\nHost: b\r\n\r\n\
    POST /hosts/pc1/dumps?kind=incr HTTP/1.1\r\nHost: b\r\n\r\n\
    POST /hosts/pc2/dumps?kind=incr HTTP/1.1\r\nHost: b\r\n\r\n\
    POST /dumps/1-2/commit HTTP/1.1\r\nHost: b\r\n\r\n\
    POST /dumps/1-3/commit HTTP/1.1\r\nHost: b\r\n\r\n\
    POST /hosts/pc1/dumps?kind=incr HTTP/1.1\r\nHost: b\r\n\r\n\
    POST /hosts/pc2/dumps?kind=incr HTTP/1.1\r\nHost: b\r\n\r\n\
    POST /dumps/1-4/commit HTTP/1.1\r\nHost: b\r\n\r\n\
    POST /dumps/1-5/commit HTTP/1.1\r\nHost: b\r\n\r\n";

/// Each host is expired, the last one, too.
#[test]
fn a_night_expires_each_host(rt: HostRuntime) -> Result<(), Fail> {
    let case = Case {
        settings: "[Rules]\nIncrKeepCnt = 0\nIncrKeepCntMin = 0",
        input: &[DUMPS],
        ..QUIET
    };
    let done = run_over(&rt, &case, disk_of(rt.alloc(), &case)?)?;
    let want = Want {
        status: 0,
        said: "",
        output: &["night 19675: expired 2, marked 0, unmarked 0, removed 0\n"],
    };
    let _ = expect_run_over(&rt, &NIGHT, done.disk, &want)?;
    Ok(())
}

/// The number of the link's call that fails, the room for its output, and the output: the line is written (call 0), and sent (1).
const LINK_FAULTS: [(u64, usize, &str); 3] = [
    (0, 999, ""),
    (
        1,
        999,
        "night 19675: expired 0, marked 0, unmarked 0, removed 0\n",
    ),
    (99, 10, "night 1967"),
];

#[test]
fn a_night_says_that_the_link_failed(rt: HostRuntime) -> Result<(), Fail> {
    for (link_fails, link_room, said) in LINK_FAULTS {
        let case = Case {
            link_fails,
            link_room,
            ..NIGHT
        };
        let want = Want {
            status: 3,
            said: "link failed",
            output: &[said],
        };
        let _ = expect_run(&rt, &case, &want)?;
    }
    Ok(())
}

/// Fails where a night on whose disk this call fails ends otherwise than by its status, says its line after a fault, or leaves a
/// disk that can't be opened. Returns whether the disk failed in the run.
fn ends_by_its_status(rt: &impl Machine, disk_fails: u64) -> Result<bool, Fail> {
    let case = Case {
        disk_fails,
        ..NIGHT
    };
    let done = run_over(rt, &case, disk_of(rt.alloc(), &case)?)?;
    let status = done.note.status();
    let is_said = !done.link.output().is_empty();
    let again = run_over(rt, &QUIET, done.disk)?;
    if (status != 0 && status != 4) || is_said != (status == 0) || again.note.status() != 0 {
        return Err(Fail::new(format_args!(
            "call {disk_fails}: status {status}, then {:?}",
            again.note
        )));
    }
    Ok(status == 4)
}

#[test]
fn a_night_ends_by_the_status_of_its_disk(rt: HostRuntime) -> Result<(), Fail> {
    let mut failed = 0u32;
    for disk_fails in 0..24 {
        if ends_by_its_status(&rt, disk_fails)? {
            failed = failed.saturating_add(1);
        }
    }
    if failed > 4 {
        return Ok(());
    }
    Err(Fail::new(format_args!("failed by {failed} calls")))
}

#[test]
fn a_night_names_a_foreign_file(rt: HostRuntime) -> Result<(), Fail> {
    let mut disk = disk_of(rt.alloc(), &NIGHT)?;
    disk.write(FileId::Head, b"abc")?;
    let want = Want {
        status: 5,
        said: "foreign head",
        output: &[],
    };
    let _ = expect_run_over(&rt, &NIGHT, disk, &want)?;
    Ok(())
}
