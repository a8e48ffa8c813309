//! Requests, words and disks that are refused.

use crate::ends::{
    Case, Machine, QUIET, Want, disk_of, expect_file, expect_run, expect_run_over, words_of,
};
use command_line::{CommandLine, LineFault, USAGE, parse};
use disk_trait::{Disk, FileId};
use std::test::Fail;

const ADD: &str = "PUT /hosts/pc1 HTTP/1.1\r\nHost: b\r\n\r\n";

const ADDED: &str =
    "HTTP/1.1 201 Created\r\nContent-Type: application/json\r\nContent-Length: 14\r\n\r\n{\"host\":\"pc1\"}";

/// The response to a second host of that name.
const EXISTS: &str =
    "HTTP/1.1 409 Conflict\r\nContent-Type: application/json\r\nContent-Length: 24\r\n\r\n{\"refused\":\"HostExists\"}";

/// A request without its field `Host`, and the response to it, after which the connection closes.
const BAD: &str = "PUT /hosts/pc1 HTTP/1.1\r\n\r\n";

const BAD_HEAD: &str =
    "HTTP/1.1 400 Bad Request\r\nContent-Type: application/json\r\nContent-Length: 21\r\nConnection: close\r\n\r\n{\"refused\":\"BadHead\"}";

/// The response to a head that is too large.
const TOO_LARGE: &str =
    "HTTP/1.1 431 Request Header Fields Too Large\r\nContent-Type: application/json\r\nContent-Length: 26\r\nConnection: close\r\n\r\n{\"refused\":\"HeadTooLarge\"}";

/// Fails where a run on this input doesn't end so.
fn expect_on(
    rt: &impl Machine,
    input: &[&str],
    status: u8,
    said: &str,
    output: &[&str],
) -> Result<(), Fail> {
    let want = Want {
        status,
        said,
        output,
    };
    let _ = expect_run(rt, &Case { input, ..QUIET }, &want)?;
    Ok(())
}

#[test]
fn a_bad_head_ends_the_run(rt: HostRuntime) -> Result<(), Fail> {
    expect_on(
        &rt,
        &[ADD, BAD, ADD],
        1,
        "request not understood",
        &[ADDED, BAD_HEAD],
    )
}

#[test]
fn too_large_a_head_ends_the_run(rt: HostRuntime) -> Result<(), Fail> {
    let text = String::from_utf8(vec![in rt.alloc(); b'x'; 16_383]?)?;
    let short = text.as_str();
    expect_on(&rt, &[short], 1, "input ended inside a request", &[])?;
    expect_on(
        &rt,
        &[short, "x"],
        1,
        "request not understood",
        &[TOO_LARGE],
    )
}

#[test]
fn a_host_added_twice_is_refused(rt: HostRuntime) -> Result<(), Fail> {
    expect_on(&rt, &[ADD, ADD], 0, "", &[ADDED, EXISTS])
}

/// Requests for what isn't there. The first one's name has 64 characters.
const ABSENT: &str =
    "GET /hosts/0123456789012345678901234567890123456789012345678901234567890123/backups/0/file?path=a.txt HTTP/1.1\r\nHost: b\r\n\r\n\
    POST /dumps/9-9/commit HTTP/1.1\r\nHost: b\r\n\r\n";

const NOT_FOUND: &str =
    "HTTP/1.1 404 Not Found\r\nContent-Type: application/json\r\nContent-Length: 20\r\n\r\n{\"refused\":\"NoHost\"}\
    HTTP/1.1 404 Not Found\r\nContent-Type: application/json\r\nContent-Length: 23\r\n\r\n{\"refused\":\"NoSession\"}";

#[test]
fn what_is_absent_keeps_the_connection(rt: HostRuntime) -> Result<(), Fail> {
    expect_on(&rt, &[ABSENT, ADD], 0, "", &[NOT_FOUND, ADDED])
}

/// Fails where words are taken, or the run on them does anything.
fn expect_usage(rt: &impl Machine, line: &str) -> Result<(), Fail> {
    let alloc = rt.alloc();
    let words = words_of(alloc, line)?;
    if !matches!(parse(alloc, words.as_slice()), Err(LineFault::NoParse)) {
        return Err(Fail::new("words were parsed"));
    }
    let case = Case {
        line,
        input: &[ADD],
        ..QUIET
    };
    let want = Want {
        status: 2,
        said: USAGE,
        output: &[],
    };
    let mut disk = expect_run(rt, &case, &want)?;
    expect_file(alloc, &mut disk, FileId::Head, None)
}

#[test]
fn faulty_words_are_refused(rt: HostRuntime) -> Result<(), Fail> {
    for line in [
        "backup_server frob",
        "backup_server",
        "backup_server pipe --store",
        "backup_server pipe --store a b",
        "backup_server pipe store --store",
        "backup_server pipe --store a --settings",
        "backup_server pipe --store a --zone b",
        "backup_server pipe --store a --scheduled",
        "backup_server night --scheduled",
        "backup_server serve --store a",
        "backup_server serve --listen 127.0.0.1:8080",
        "backup_server serve --store a --listen 127.0.0.1:8080 --connections x",
        "backup_server serve --store a --listen 127.0.0.1:8080 --scheduled",
        "backup_server pipe --store a --listen 127.0.0.1:8080",
    ] {
        expect_usage(&rt, line)?;
    }
    Ok(())
}

#[test]
fn words_name_the_folder(rt: HostRuntime) -> Result<(), Fail> {
    let words = words_of(rt.alloc(), QUIET.line)?;
    let line = parse(rt.alloc(), words.as_slice())?;
    if line.store.as_str() == "store" && line.settings.is_none() {
        return Ok(());
    }
    Err(Fail::new("another folder"))
}

#[test]
fn words_name_the_settings_file(rt: HostRuntime) -> Result<(), Fail> {
    let words = words_of(
        rt.alloc(),
        "backup_server pipe --store store --settings file",
    )?;
    let CommandLine {
        store,
        settings,
        ..
    } = parse(rt.alloc(), words.as_slice())?;
    let Some(file) = settings else {
        return Err(Fail::new("no file"));
    };
    if store.as_str() == "store" && file.as_str() == "file" {
        return Ok(());
    }
    Err(Fail::new("another file"))
}

#[test]
fn a_head_on_the_disk_is_foreign(rt: HostRuntime) -> Result<(), Fail> {
    let alloc = rt.alloc();
    let mut disk = disk_of(alloc, &QUIET)?;
    disk.write(FileId::Head, b"abc")?;
    let case = Case {
        input: &[ADD],
        ..QUIET
    };
    let want = Want {
        status: 5,
        said: "foreign head",
        output: &[],
    };
    let mut disk = expect_run_over(&rt, &case, disk, &want)?;
    expect_file(alloc, &mut disk, FileId::Head, Some(b"abc"))
}
