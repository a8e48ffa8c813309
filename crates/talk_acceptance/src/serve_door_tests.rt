use crate::interfaces::interface;
use caller_doors::{Came, Door, ListDoor};
use door_server::*;
use pool_name::Md5Namer;
use std::alloc::Global;
use std::collections::VecDeque;
use std::test::Fail;
use stream_traits::{Faults, FixedClock, MemoryLink, Moment, OpenGate};
use tree_office::TreeOffice;

const BACKUP: &[u8] = b"PUT /hosts/pc1 HTTP/1.1\r\nHost: b\r\n\r\n\
POST /hosts/pc1/dumps?kind=full HTTP/1.1\r\nHost: b\r\n\r\n\
PUT /dumps/1-0/entry?path=a.txt&kind=file HTTP/1.1\r\nHost: b\r\nContent-Length: 5\r\n\r\nhello\
POST /dumps/1-0/commit HTTP/1.1\r\nHost: b\r\n\r\n";

const BACKUP_OUTPUT: &[u8] =
    b"HTTP/1.1 201 Created\r\nContent-Type: application/json\r\nContent-Length: 14\r\n\r\n{\"host\":\"pc1\"}\
HTTP/1.1 201 Created\r\nContent-Type: application/json\r\nContent-Length: 14\r\n\r\n{\"dump\":\"1-0\"}\
HTTP/1.1 200 OK\r\nContent-Type: application/json\r\nContent-Length: 2\r\n\r\n{}\
HTTP/1.1 201 Created\r\nContent-Type: application/json\r\nContent-Length: 12\r\n\r\n{\"number\":0}";

const READ: &[u8] =
    b"GET /hosts/pc1/backups/0/file?path=a.txt HTTP/1.1\r\nHost: b\r\nConnection: close\r\n\r\n";

const READ_OUTPUT: &[u8] =
    b"HTTP/1.1 200 OK\r\nContent-Type: application/octet-stream\r\nContent-Length: 5\r\nConnection: close\r\n\r\nhello";

/// A link that gives a backup to be made, and one that asks for its file; the first fails at one of its calls, and the door at
/// one of its own.
fn door(alloc: Global, link_fails: u64, door_fails: u64) -> Result<ListDoor, Fail> {
    let fails = Vec::from_array(alloc, [link_fails])?;
    let mut links = VecDeque::new(alloc);
    links.push_back(MemoryLink::new(alloc, BACKUP.to_vec(alloc)?, 1_024, fails)?)?;
    let reader = MemoryLink::new(alloc, READ.to_vec(alloc)?, 1_024, Vec::new(alloc))?;
    links.push_back(reader)?;
    let fails = Vec::from_array(alloc, [door_fails])?;
    Ok(ListDoor::new(alloc, links, fails)?)
}

/// Serves a door over an office of its own, and gives it with the end.
fn serve(alloc: Global, mut door: ListDoor) -> Result<(ListDoor, DoorEnd), Fail> {
    let mut office = TreeOffice::new(alloc, Md5Namer);
    let mut clock = FixedClock::new(Moment::first());
    let interface = interface(alloc)?;
    let end = serve_door(
        alloc,
        &mut office,
        &mut door,
        &mut clock,
        &mut OpenGate,
        &interface,
    );
    Ok((door, end))
}

/// What was sent on the served link at an index.
fn sent(door: &ListDoor, index: usize) -> Result<&[u8], Fail> {
    match door.served().get(index) {
        Some(link) => Ok(link.sent()),
        None => Err(Fail::new("no link")),
    }
}

/// How many calls of the served link at an index failed.
fn faults_of(door: &ListDoor, index: usize) -> Result<u64, Fail> {
    match door.served().get(index) {
        Some(link) => Ok(link.faults()),
        None => Err(Fail::new("no link")),
    }
}

#[test]
fn one_link_reads_what_another_stored(rt: HostRuntime) -> Result<(), Fail> {
    let (door, end) = serve(rt.alloc(), door(rt.alloc(), u64::MAX, u64::MAX)?)?;
    assert_eq!(rt;
        (end, door.faults(), door.served().len()),
        (DoorEnd::Closed, 0, 2)
    );
    assert_eq!(rt; sent(&door, 0)?, BACKUP_OUTPUT);
    assert_eq!(rt; sent(&door, 1)?, READ_OUTPUT);
    Ok(())
}

#[test]
fn a_link_that_fails_ends_its_connection_alone(rt: HostRuntime) -> Result<(), Fail> {
    for fails in 0..8 {
        let (door, end) = serve(rt.alloc(), door(rt.alloc(), fails, u64::MAX)?)?;
        assert_eq!(rt;
            (end, door.faults(), door.served().len()),
            (DoorEnd::Closed, 0, 2)
        );
        assert_eq!(rt; (faults_of(&door, 0)?, faults_of(&door, 1)?), (1, 0));
        assert!(rt; BACKUP_OUTPUT.starts_with(sent(&door, 0)?));
        assert!(rt; sent(&door, 1)?.starts_with(b"HTTP/1.1 "));
    }
    Ok(())
}

#[test]
fn a_door_that_fails_is_left(rt: HostRuntime) -> Result<(), Fail> {
    let (mut door, end) = serve(rt.alloc(), door(rt.alloc(), u64::MAX, 1)?)?;
    assert_eq!(rt;
        (end, door.faults(), door.served().len()),
        (DoorEnd::Failed, 1, 1)
    );
    assert_eq!(rt; sent(&door, 0)?, BACKUP_OUTPUT);
    assert!(rt; matches!(door.next(), Came::Link(_)));
    Ok(())
}
