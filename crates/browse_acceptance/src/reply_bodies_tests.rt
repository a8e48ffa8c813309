use attr_records::{Attr, Dir, HostName, Link, LinkTarget, PathName};
use backup_rules::{Kind, Line, Rules};
use disk_trait::{Bytes, FileId, PoolId};
use office_model::{
    Answer, BrokenRule, EntryList, Event, FileNode, Frame, HostList, LineList, NamedNode, Node,
    OfficeStats, Refusal, SessionName,
};
use reply_bodies::*;
use std::alloc::Global;
use std::test::Fail;

const DUMP: SessionName = SessionName {
    epoch: u64::MAX,
    sequence: 0,
};

const LINE: Line = Line {
    number: 3,
    start: 1_700_000_000,
    end: 1_700_000_060,
    kind: Kind::Incr,
    filled: true,
    keep: false,
};

const STATS: OfficeStats = OfficeStats {
    hosts: 1,
    backups: 2,
    dumps: 3,
    restores: 4,
    files: 5,
    marked: 6,
    bytes: 7,
};

fn expect_bytes(body: &[u8], expected: &[u8]) -> Result<(), Fail> {
    if body == expected {
        return Ok(());
    }
    Err(Fail::new("another body"))
}

/// Expects a body of JSON.
fn expect_json(alloc: Global, event: &Event, answer: Answer, expected: &str) -> Result<(), Fail> {
    if let Some(text) = answer_text(event, &answer) {
        return expect_bytes(text.as_slice(), expected.as_bytes());
    }
    match answer_body(alloc, &answer)? {
        Some(body) => expect_bytes(body.as_slice(), expected.as_bytes()),
        None => Err(Fail::new("no body")),
    }
}

#[test]
fn what_was_done_has_its_body(rt: HostRuntime) -> Result<(), Fail> {
    let alloc = rt.alloc();
    let host = HostName::read(alloc, b"pc-1.example")?;
    let rules = Rules::defaults(alloc)?;
    let added = Event::AddHost { host, rules };
    let sweep = Event::Sweep;
    expect_json(alloc, &added, Answer::Done, "{\"host\":\"pc-1.example\"}")?;
    expect_json(alloc, &sweep, Answer::Done, "{}")?;
    let text = "{\"dump\":\"18446744073709551615-0\"}";
    expect_json(alloc, &sweep, Answer::Dump(DUMP), text)?;
    let text = "{\"restore\":\"18446744073709551615-0\"}";
    expect_json(alloc, &sweep, Answer::Restore(DUMP), text)?;
    expect_json(alloc, &sweep, Answer::Committed(0), "{\"number\":0}")?;
    expect_json(alloc, &sweep, Answer::Already(4), "{\"number\":4}")?;
    let partial = Answer::Partial {
        entries: 3,
        kind: Kind::Incr,
        start: 1_700_000_000,
    };
    let text = "{\"entries\":3,\"kind\":\"incr\",\"start\":1700000000}";
    expect_json(alloc, &sweep, partial, text)?;
    expect_json(alloc, &sweep, Answer::Stage(7), "{\"stage\":7}")?;
    let opened = Answer::Opened {
        reader: 3,
        size: 12,
    };
    expect_json(alloc, &sweep, opened, "{\"reader\":3,\"size\":12}")?;
    expect_json(alloc, &sweep, Answer::Expired(12), "{\"deleted\":12}")?;
    expect_json(alloc, &sweep, Answer::Reopened(2), "{\"epoch\":2}")
}

#[test]
fn contacts_have_their_body(rt: HostRuntime) -> Result<(), Fail> {
    let contacts = Answer::Contacts { good: 7, bad: 2 };
    expect_json(
        rt.alloc(),
        &Event::Stats,
        contacts,
        "{\"bad\":2,\"good\":7}",
    )
}

/// What is due, and its body.
const DUE: [(bool, Option<Kind>, &str); 3] = [
    (
        true,
        Some(Kind::Incr),
        "{\"blackout\":true,\"due\":\"incr\"}",
    ),
    (
        false,
        Some(Kind::Full),
        "{\"blackout\":false,\"due\":\"full\"}",
    ),
    (false, None, "{\"blackout\":false,\"due\":\"none\"}"),
];

#[test]
fn what_is_due_has_its_body(rt: HostRuntime) -> Result<(), Fail> {
    for (blackout, kind, text) in DUE {
        expect_json(
            rt.alloc(),
            &Event::Stats,
            Answer::Due { blackout, kind },
            text,
        )?;
    }
    Ok(())
}

#[test]
fn what_was_cleaned_has_its_body(rt: HostRuntime) -> Result<(), Fail> {
    let cleaned = Answer::Cleaned {
        marked: 1,
        unmarked: 2,
        removed: 3,
    };
    let text = "{\"marked\":1,\"removed\":3,\"unmarked\":2}";
    expect_json(rt.alloc(), &Event::Stats, cleaned, text)
}

#[test]
fn stats_have_their_body(rt: HostRuntime) -> Result<(), Fail> {
    let text =
        "{\"backups\":2,\"bytes\":7,\"dumps\":3,\"files\":5,\"hosts\":1,\"marked\":6,\"restores\":4}";
    expect_json(rt.alloc(), &Event::Stats, Answer::Stats(STATS), text)
}

fn push_host(alloc: Global, hosts: &mut HostList, name: &str) -> Result<(), Fail> {
    let name = HostName::read(alloc, name.as_bytes())?;
    hosts.push(alloc, &name)?;
    Ok(())
}

#[test]
fn hosts_have_their_body(rt: HostRuntime) -> Result<(), Fail> {
    let alloc = rt.alloc();
    let mut hosts = HostList::new(alloc);
    for name in ["pc2", "pc1"] {
        push_host(alloc, &mut hosts, name)?;
    }
    expect_json(
        alloc,
        &Event::Hosts,
        Answer::Hosts(hosts),
        "{\"hosts\":[\"pc2\",\"pc1\"]}",
    )
}

#[test]
fn backups_have_their_body(rt: HostRuntime) -> Result<(), Fail> {
    let alloc = rt.alloc();
    let event = Event::Hosts;
    let mut lines = LineList::new(alloc);
    lines.push(LINE)?;
    lines.push(LINE)?;
    let backups = Answer::Backups {
        lines,
        next: 4_294_967_296,
        dump: Some(DUMP),
    };
    let text =
        "{\"backups\":[{\"end\":1700000060,\"filled\":true,\"keep\":false,\"kind\":\"incr\",\"number\":3,\"start\":1700000000},{\"end\":1700000060,\"filled\":true,\"keep\":false,\"kind\":\"incr\",\"number\":3,\"start\":1700000000}],\"dump\":\"18446744073709551615-0\",\"next\":4294967296}";
    expect_json(alloc, &event, backups, text)
}

#[test]
fn no_backups_have_their_body(rt: HostRuntime) -> Result<(), Fail> {
    let alloc = rt.alloc();
    let event = Event::Hosts;
    let empty = Answer::Backups {
        lines: LineList::new(alloc),
        next: 0,
        dump: None,
    };
    let text = "{\"backups\":[],\"dump\":null,\"next\":0}";
    expect_json(alloc, &event, empty, text)
}

fn file_node() -> Node {
    Node::File(FileNode {
        attr: Attr::new(0o644, 0, 0, 0, 5),
        group: 7,
        size: 5,
    })
}

fn dir_node() -> Node {
    Node::Dir(Dir {
        attr: Attr::new(0o7755, 1, 2, -3, 999_999_999),
    })
}

fn link_node(alloc: Global) -> Result<Node, Fail> {
    Ok(Node::Link(Link {
        attr: Attr::link_default(),
        target: LinkTarget::read(alloc, b"..\\\"x\x1f")?,
    }))
}

/// Expects the body of what is at a path.
fn expect_node(alloc: Global, node: Node, expected: &str) -> Result<(), Fail> {
    expect_json(alloc, &Event::Hosts, Answer::Entry(node), expected)
}

const FILE_BODY: &str =
    "{\"gid\":0,\"group\":7,\"kind\":\"file\",\"mode\":\"0644\",\"mtime\":0,\"nanos\":5,\"size\":5,\"uid\":0}";

const DIR_BODY: &str =
    "{\"gid\":2,\"kind\":\"dir\",\"mode\":\"7755\",\"mtime\":-3,\"nanos\":999999999,\"uid\":1}";

const LINK_BODY: &str =
    "{\"gid\":0,\"kind\":\"link\",\"mode\":\"0777\",\"mtime\":0,\"nanos\":0,\"target\":\"..\\\\\\\"x\\u001f\",\"uid\":0}";

#[test]
fn files_and_directories_have_their_bodies(rt: HostRuntime) -> Result<(), Fail> {
    expect_node(rt.alloc(), file_node(), FILE_BODY)?;
    expect_node(rt.alloc(), dir_node(), DIR_BODY)
}

#[test]
fn links_have_their_bodies(rt: HostRuntime) -> Result<(), Fail> {
    expect_node(rt.alloc(), link_node(rt.alloc())?, LINK_BODY)
}

#[test]
fn listed_names_are_escaped(rt: HostRuntime) -> Result<(), Fail> {
    let alloc = rt.alloc();
    let mut entries = EntryList::new(alloc);
    entries.push(NamedNode {
        name: PathName::read(alloc, "a\"\n\u{1}".as_bytes())?,
        node: file_node(),
    })?;
    entries.push(NamedNode {
        name: PathName::read(alloc, "é☃".as_bytes())?,
        node: dir_node(),
    })?;
    let text =
        "{\"entries\":[{\"gid\":0,\"group\":7,\"kind\":\"file\",\"mode\":\"0644\",\"mtime\":0,\"name\":\"a\\\"\\n\\u0001\",\"nanos\":5,\"size\":5,\"uid\":0},{\"gid\":2,\"kind\":\"dir\",\"mode\":\"7755\",\"mtime\":-3,\"name\":\"é☃\",\"nanos\":999999999,\"uid\":1}]}";
    expect_json(alloc, &Event::Hosts, Answer::Entries(entries), text)
}

/// Expects the bytes of a frame.
fn expect_frame(alloc: Global, frame: Frame, expected: &[u8]) -> Result<(), Fail> {
    match answer_body(alloc, &Answer::Next(frame))? {
        Some(body) => expect_bytes(body.as_slice(), expected),
        None => Err(Fail::new("no body")),
    }
}

#[test]
fn frames_have_their_bytes(rt: HostRuntime) -> Result<(), Fail> {
    let alloc = rt.alloc();
    let entry = Frame::Entry {
        path: PathName::read(alloc, b"a.txt")?,
        node: file_node(),
    };
    let bytes =
        b"E\x01\0\x05a.txt\0\0\x01\xa4\0\0\0\0\0\0\0\0\0\0\0\0\0\0\0\0\0\0\0\x05\0\0\0\x07\0\0\0\0\0\0\0\x05";
    expect_frame(alloc, entry, bytes)?;
    let piece = Frame::Piece(Bytes::from_slice(alloc, b"hello")?);
    expect_frame(alloc, piece, b"D\0\0\0\x05hello")?;
    let lost = Frame::Deleted(PathName::read(alloc, b"a/b")?);
    expect_frame(alloc, lost, b"X\0\x03a/b")?;
    expect_frame(alloc, Frame::End(1), b"Z\0\0\0\x01")
}

fn expect_refusal(refusal: Refusal, expected: &str) -> Result<(), Fail> {
    expect_bytes(refusal_text(&refusal).as_slice(), expected.as_bytes())
}

fn damaged(file: FileId) -> Refusal {
    Refusal::Damaged { file, found: None }
}

#[test]
fn each_refusal_has_its_body(_rt: HostRuntime) -> Result<(), Fail> {
    let id = PoolId {
        digest: [
            0xd4, 0x1d, 0x8c, 0xd9, 0x8f, 0, 0xb2, 4, 0xe9, 0x80, 9, 0x98, 0xec, 0xf8, 0x42, 0x7e,
        ],
        extension: 3,
    };
    expect_refusal(
        Refusal::Broken(BrokenRule::NotADirectory),
        "{\"refused\":\"NotADirectory\"}",
    )?;
    expect_refusal(
        Refusal::Broken(BrokenRule::TokensFull),
        "{\"refused\":\"TokensFull\"}",
    )?;
    expect_refusal(Refusal::Halted, "{\"refused\":\"Halted\"}")?;
    expect_refusal(Refusal::DiskFault, "{\"refused\":\"DiskFault\"}")?;
    expect_refusal(
        damaged(FileId::Table(1, 22)),
        "{\"file\":\"table-1-22\",\"refused\":\"Damaged\"}",
    )?;
    expect_refusal(
        damaged(FileId::Pool(id)),
        "{\"file\":\"pool-d41d8cd98f00b204e9800998ecf8427e-3\",\"refused\":\"Damaged\"}",
    )?;
    expect_bytes(
        refused_text(b"NoRoute").as_slice(),
        b"{\"refused\":\"NoRoute\"}",
    )
}
