//! Nights over three hosts, by the store and by the office in memory: both say the same of them, and keep the same.

use crate::ends::{Case, Machine, QUIET, disk_of, link_of, new_clock, run_over};
use browse_http::{Interface, Served, serve_connection};
use disk_trait::MemoryDisk;
use night_work::night;
use pool_name::Md5Namer;
use request_events::Defaults;
use settings_file::read_settings;
use std::alloc::{AllocError, Global};
use std::test::Fail;
use stream_traits::{MemoryLink, OpenGate};
use tree_office::TreeOffice;

/// Of the incremental backups that are no longer the newest, one is kept.
const SETTINGS: &str = "[Rules]\nIncrKeepCnt = 1\nIncrKeepCntMin = 0";

/// The host, the kind and the content of each backup, in order. The rules take one of pc1, none of pc2 and two of pc3.
const BACKUPS: [(&str, &str, &str); 10] = [
    ("pc1", "full", "1a"),
    ("pc2", "full", "2a"),
    ("pc3", "full", "3a"),
    ("pc1", "incr", "1b"),
    ("pc3", "incr", "3b"),
    ("pc1", "incr", "1c"),
    ("pc3", "incr", "3c"),
    ("pc1", "incr", "1d"),
    ("pc3", "incr", "3d"),
    ("pc3", "incr", "3e"),
];

/// What each night says: the contents of expired backups are marked by the first, and removed by the second.
const SAID: [&str; 3] = [
    "night 19675: expired 3, marked 3, unmarked 0, removed 0\n",
    "night 19675: expired 0, marked 0, unmarked 0, removed 3\n",
    "night 19675: expired 0, marked 0, unmarked 0, removed 0\n",
];

/// Asks what is there.
const QUESTIONS: &str = "GET /hosts/pc1/backups HTTP/1.1\r\nHost: b\r\n\r\n\
    GET /hosts/pc2/backups HTTP/1.1\r\nHost: b\r\n\r\n\
    GET /hosts/pc3/backups HTTP/1.1\r\nHost: b\r\n\r\n\
    GET /stats HTTP/1.1\r\nHost: b\r\n\r\n";

/// The requests that make the hosts and their backups.
fn requests(alloc: Global) -> Result<String, AllocError> {
    let mut text = String::new(alloc);
    for host in ["pc1", "pc2", "pc3"] {
        let ask = format!(in alloc; "PUT /hosts/{host} HTTP/1.1\r\nHost: b\r\n\r\n")?;
        text.push_str(ask.as_str())?;
    }
    let mut sequence = 0u32;
    for (host, kind, content) in BACKUPS {
        let ask = format!(in alloc;
            "POST /hosts/{host}/dumps?kind={kind} HTTP/1.1\r\nHost: b\r\n\r\n\
            PUT /dumps/1-{sequence}/entry?path=f&kind=file HTTP/1.1\r\nHost: b\r\nContent-Length: 2\r\n\r\n{content}\
            POST /dumps/1-{sequence}/commit HTTP/1.1\r\nHost: b\r\n\r\n"
        )?;
        text.push_str(ask.as_str())?;
        sequence = sequence.saturating_add(1);
    }
    Ok(text)
}

/// What the program says to a line and its input, over this disk, which is given back.
fn told(
    rt: &impl Machine,
    line: &str,
    input: &str,
    disk: MemoryDisk,
) -> Result<(MemoryLink, MemoryDisk), Fail> {
    let case = Case {
        line,
        settings: SETTINGS,
        input: &[input],
        ..QUIET
    };
    let done = run_over(rt, &case, disk)?;
    if done.note.status() != 0 {
        return Err(Fail::new(format_args!("{:?}", done.note)));
    }
    Ok((done.link, done.disk))
}

/// What a connection over the office is told.
fn answered(
    alloc: Global,
    office: &mut TreeOffice<Md5Namer>,
    input: &str,
) -> Result<MemoryLink, Fail> {
    let case = Case {
        line: "",
        settings: SETTINGS,
        input: &[input],
        ..QUIET
    };
    let settings = read_settings(alloc, SETTINGS.as_bytes())?;
    let defaults = Defaults {
        rules: settings.rules,
        zone: settings.zone,
    };
    let interface = Interface::new(alloc, defaults)?;
    let link = link_of(alloc, &case)?;
    let Served { link, .. } = serve_connection(
        alloc,
        office,
        link,
        &mut new_clock(),
        &mut OpenGate,
        &interface,
    );
    Ok(link)
}

/// Fails where the two were told different things.
fn expect_same(store: &MemoryLink, office: &MemoryLink) -> Result<(), Fail> {
    if store.output() == office.output() {
        return Ok(());
    }
    Err(Fail::new("the store and the office answer differently"))
}

/// Fails where the night of the office, or the line of the store's, says something else.
fn expect_night(
    alloc: Global,
    office: &mut TreeOffice<Md5Namer>,
    store: &MemoryLink,
    said: &str,
) -> Result<(), Fail> {
    let settings = read_settings(alloc, SETTINGS.as_bytes())?;
    let end = night(
        alloc,
        office,
        &mut new_clock(),
        &settings.zone,
        settings.wake.as_slice(),
        1,
        false,
    );
    let Some(text) = end.text() else {
        return Err(Fail::new(format_args!("{end:?}")));
    };
    if text.as_slice() == said.as_bytes() && store.output() == said.as_bytes() {
        return Ok(());
    }
    Err(Fail::new(format_args!("not {said}")))
}

#[test]
fn nights_of_the_store_are_those_of_the_office(rt: HostRuntime) -> Result<(), Fail> {
    let alloc = rt.alloc();
    let asked = requests(alloc)?;
    let mut office = TreeOffice::new(alloc, Md5Namer);
    let (link, mut disk) = told(&rt, QUIET.line, asked.as_str(), disk_of(alloc, &QUIET)?)?;
    expect_same(&link, &answered(alloc, &mut office, asked.as_str())?)?;
    for said in SAID {
        let (link, left) = told(&rt, "backup_server night --store store", "", disk)?;
        expect_night(alloc, &mut office, &link, said)?;
        let (link, left) = told(&rt, QUIET.line, QUESTIONS, left)?;
        expect_same(&link, &answered(alloc, &mut office, QUESTIONS)?)?;
        disk = left;
    }
    Ok(())
}
