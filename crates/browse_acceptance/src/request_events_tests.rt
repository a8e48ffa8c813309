use attr_records::{Attr, BadPath, Item};
use backup_rules::{Rules, Setting};
use http_heads::{Front, read_front};
use http_query::QueryRule;
use http_routes::{Route, router};
use office_model::{Event, PutItem, Token};
use office_talks::expect;
use request_events::*;
use std::alloc::Global;
use std::test::Fail;
use stream_traits::Moment;
use wake_schedule::Zone;

/// Heads without their ends, each of which has an event.
const TAKEN: [&str; 35] = [
    "GET /hosts",
    "PUT /hosts/pc1",
    "PUT /hosts/pc1/rules",
    "PUT /hosts/pc1/rules?FillCycle=7&FullKeepCnt=4,2&BlackoutPeriods=&OldFullKeepCnt=0",
    "POST /hosts/pc1/dumps?kind=full",
    "POST /hosts/pc1/dumps?kind=incr",
    "POST /hosts/pc1/dumps?kind=full&token=0123456789abcdef0123456789abcdef",
    "PUT /dumps/1-0/entry?token=0123456789abcdef0123456789abcdef&path=a&kind=dir",
    "PUT /dumps/1-0/entry?path=a&kind=dir&mode=0700&uid=4294967295&gid=0&mtime=-1&nanos=999999999",
    "DELETE /dumps/1-0/entry?path=a%2Fb",
    "DELETE /dumps/1-0/entry?path=a&token=00000000000000000000000000000000",
    "POST /dumps/1-0/commit",
    "POST /dumps/x/commit",
    "POST /dumps/1-0/park",
    "DELETE /dumps/1-0",
    "POST /hosts/pc1/resume",
    "DELETE /hosts/pc1/partial",
    "GET /hosts/pc1/partial",
    "GET /hosts/pc1/backups",
    "DELETE /hosts/pc1/backups/4294967295",
    "GET /hosts/pc1/backups/0/list",
    "GET /hosts/pc1/backups/0/list?path=a",
    "GET /hosts/pc1/backups/0/entry?path=a",
    "GET /hosts/pc1/backups/0/file?path=a%2Fb+c",
    "POST /hosts/pc1/backups/0/restores",
    "POST /hosts/pc1/backups/1/restores?base=0",
    "POST /hosts/pc1/backups/0/keep?on=1",
    "GET /restores/1-0/next",
    "DELETE /restores/1-0",
    "POST /hosts/pc1/expire",
    "POST /hosts/pc1/contacts?good=0",
    "GET /hosts/pc1/due",
    "POST /night/clean?bucket=255",
    "POST /night/sweep",
    "GET /stats",
];

const UTF8: RequestRefusal = RequestRefusal::BadQuery(QueryRule::Utf8);

const UNKNOWN: RequestRefusal = RequestRefusal::BadQuery(QueryRule::Unknown);

const REPEATED: RequestRefusal = RequestRefusal::BadQuery(QueryRule::Repeated);

const MISSING: RequestRefusal = RequestRefusal::BadQuery(QueryRule::Missing);

const VALUE: RequestRefusal = RequestRefusal::BadQuery(QueryRule::Value);

/// Heads without their ends, and why each is refused.
const REFUSED: [(&str, RequestRefusal); 50] = [
    ("GET /host", RequestRefusal::NoRoute),
    ("PUT /hosts", RequestRefusal::NoMethod(Route::Hosts)),
    (
        "POST /hosts/a/partial",
        RequestRefusal::NoMethod(Route::Partial),
    ),
    ("PUT /hosts/PC1/rules?x=1", RequestRefusal::BadName),
    ("GET /hosts/A/backups/x/file", RequestRefusal::BadName),
    ("GET /hosts/a/backups/01/file", RequestRefusal::BadNumber),
    ("PUT /hosts/a?x=%FF", UTF8),
    ("PUT /hosts/a?x=1", UNKNOWN),
    ("POST /reopen?x", UNKNOWN),
    ("PUT /hosts/a/rules?Zone=UTC", UNKNOWN),
    ("PUT /hosts/a/rules?OldAge=1&OldAge=1", REPEATED),
    ("POST /hosts/a/dumps?kind=full&kind=full", REPEATED),
    ("POST /hosts/a/dumps", MISSING),
    ("PUT /dumps/x/entry", MISSING),
    ("POST /hosts/a/dumps?kind=x", VALUE),
    ("PUT /hosts/a/rules?FullPeriod=0", VALUE),
    ("PUT /hosts/a/rules?OldAge=36501", VALUE),
    ("PUT /hosts/a/rules?FullKeepCnt=", VALUE),
    ("PUT /hosts/a/rules?BlackoutPeriods=x", VALUE),
    ("POST /hosts/a/contacts?good=yes", VALUE),
    ("POST /night/clean?bucket=256", VALUE),
    ("PUT /dumps/x/entry?kind=tar&path=a", VALUE),
    ("PUT /dumps/x/entry?kind=dir&path=/a&mode=8", VALUE),
    (
        "PUT /dumps/x/entry?kind=file&path=/a&nanos=1000000000",
        VALUE,
    ),
    ("PUT /dumps/x/entry?kind=file&path=/a&group=x", VALUE),
    ("PUT /dumps/x/entry?kind=dir&path=a&group=1", UNKNOWN),
    ("PUT /dumps/x/entry?path=a&group=1", UNKNOWN),
    (
        "PUT /dumps/x/entry?kind=file&path=/a",
        RequestRefusal::BadPath(BadPath::EmptyComponent),
    ),
    // A token of 31 digits, of 33, of none, with a letter in upper case, with one that is no digit, and with a space.
    (
        "POST /hosts/a/dumps?kind=full&token=0123456789abcdef0123456789abcde",
        VALUE,
    ),
    (
        "POST /hosts/a/dumps?kind=full&token=0123456789abcdef0123456789abcdef0",
        VALUE,
    ),
    ("POST /hosts/a/dumps?kind=full&token", VALUE),
    (
        "POST /hosts/a/dumps?kind=full&token=0123456789abcdef0123456789abcdeF",
        VALUE,
    ),
    (
        "PUT /dumps/x/entry?kind=dir&path=/a&token=0123456789abcdefg123456789abcdef",
        VALUE,
    ),
    (
        "DELETE /dumps/x/entry?path=/a&token=+0123456789abcdef123456789abcdef",
        VALUE,
    ),
    (
        "DELETE /dumps/x/entry?path=/a&token=0123456789abcdef0123456789abcdef",
        RequestRefusal::BadPath(BadPath::EmptyComponent),
    ),
    (
        "POST /hosts/a/dumps?kind=full&token=0123456789abcdef0123456789abcdef&token=x",
        REPEATED,
    ),
    ("POST /hosts/a/backups/1/restores?base=x", VALUE),
    ("POST /hosts/a/backups/1/restores?base=4294967296", VALUE),
    ("POST /hosts/a/backups/1/restores?base", VALUE),
    ("POST /hosts/a/backups/1/restores?base=0&base=0", REPEATED),
    ("POST /hosts/a/backups/1/restores?number=0", UNKNOWN),
    ("GET /hosts/a/backups/1/list?base=0", UNKNOWN),
    // Routes that take none.
    (
        "POST /dumps/1-0/commit?token=0123456789abcdef0123456789abcdef",
        UNKNOWN,
    ),
    (
        "POST /hosts/a/resume?token=0123456789abcdef0123456789abcdef",
        UNKNOWN,
    ),
    (
        "POST /dumps/1-0/park?token=0123456789abcdef0123456789abcdef",
        UNKNOWN,
    ),
    (
        "PUT /hosts/a?token=0123456789abcdef0123456789abcdef",
        UNKNOWN,
    ),
    ("DELETE /dumps/1-0?token=x", UNKNOWN),
    (
        "GET /hosts/a/backups/0/list?path=",
        RequestRefusal::BadPath(BadPath::Empty),
    ),
    (
        "PUT /dumps/x/entry?kind=link&path=a",
        RequestRefusal::BadTarget,
    ),
    (
        "PUT /dumps/x/entry?kind=file&path=a&group=1",
        RequestRefusal::NoLength,
    ),
];

/// The token of the requests below.
const TOKEN: Token = Token {
    bytes: [
        0x00, 0x11, 0x22, 0x33, 0x44, 0x55, 0x66, 0x77, 0x88, 0x99, 0xaa, 0xbb, 0xcc, 0xdd, 0xee,
        0xff,
    ],
};

/// Requests with that token, or without one, each with a field of its head and its body.
const WITH_TOKENS: [(&str, &str, Option<Token>); 8] = [
    (
        "POST /hosts/pc1/dumps?kind=full&token=00112233445566778899aabbccddeeff",
        "",
        Some(TOKEN),
    ),
    ("POST /hosts/pc1/dumps?kind=full", "", None),
    (
        "PUT /dumps/1-0/entry?path=a&kind=file&token=00112233445566778899aabbccddeeff",
        "hello",
        Some(TOKEN),
    ),
    (
        "PUT /dumps/1-0/entry?path=a&kind=dir&token=00112233445566778899aabbccddeeff",
        "",
        Some(TOKEN),
    ),
    (
        "PUT /dumps/1-0/entry?path=a&kind=link&token=00112233445566778899aabbccddeeff",
        "hello",
        Some(TOKEN),
    ),
    ("PUT /dumps/1-0/entry?path=a&kind=link", "hello", None),
    (
        "DELETE /dumps/1-0/entry?path=a&token=%300112233445566778899aabbccddeef%66",
        "",
        Some(TOKEN),
    ),
    ("DELETE /dumps/1-0/entry?path=a", "", None),
];

/// Rules of which nothing is said, and a zone an hour ahead of UTC.
fn defaults(alloc: Global) -> Result<Defaults, Fail> {
    let Ok(zone) = Zone::read("+01:00") else {
        return Err(Fail::new("no zone"));
    };
    Ok(Defaults {
        rules: Rules::defaults(alloc)?,
        zone,
    })
}

/// The way of a request with this head, which stands here without its end.
fn way(alloc: Global, head: &str) -> Result<Way, RequestFault> {
    let Ok(router) = router(alloc) else {
        return Err(RequestFault::Memory);
    };
    let bytes = format!(in alloc; "{head}\r\n\r\n")?;
    match read_front(alloc, bytes.as_bytes())? {
        Front::Whole { len: _, head } => {
            let plan = plan_of(alloc, &router, &head)?;
            Ok(way_of(&head, plan))
        }
        _ => Err(RequestFault::Memory),
    }
}

/// The event of a head, with a body if its fields name a length.
fn asked(
    alloc: Global,
    head: &str,
    body: &[u8],
    defaults: &Defaults,
) -> Result<Event, RequestFault> {
    match way(alloc, head)? {
        Way::Planned(plan) => {
            let body = Vec::from_slice(alloc, body)?;
            event_of(alloc, plan, body, Moment::first(), defaults)
        }
        Way::Staged(_) => Err(RequestFault::Memory),
    }
}

/// The event of a line without fields.
fn asked_by_line(alloc: Global, line: &str) -> Result<Result<Event, RequestFault>, Fail> {
    let defaults = defaults(alloc)?;
    let head = format!(in alloc; "{line} HTTP/1.0")?;
    Ok(asked(alloc, head.as_str(), b"", &defaults))
}

fn expect_taken(alloc: Global, line: &str) -> Result<(), Fail> {
    match asked_by_line(alloc, line)? {
        Ok(_) => Ok(()),
        Err(_) => Err(Fail::new("a request refused")),
    }
}

fn expect_refused(alloc: Global, line: &str, refusal: RequestRefusal) -> Result<(), Fail> {
    match asked_by_line(alloc, line)? {
        Err(RequestFault::Refused(found)) if found == refusal => Ok(()),
        _ => Err(Fail::new("another outcome")),
    }
}

#[test]
fn each_head_is_judged(rt: HostRuntime) -> Result<(), Fail> {
    for line in TAKEN {
        expect_taken(rt.alloc(), line)?;
    }
    for (line, refusal) in REFUSED {
        expect_refused(rt.alloc(), line, refusal)?;
    }
    Ok(())
}

/// The queries of puts, and the mode, nanoseconds and group of the item of each, whose bytes or target are `hello`.
const PUTS: [(&str, u16, u32, u32); 4] = [
    ("kind=file&nanos=5&group=7", 0o644, 5, 7),
    ("kind=dir", 0o755, 0, 0),
    ("kind=link", 0o777, 0, 0),
    ("kind=file&mode=7&mtime=-3", 0o7, 0, 0),
];

/// The attributes of an item, its group and its bytes or target.
fn parts_of(item: &Item) -> (Attr, u32, &[u8]) {
    match item {
        Item::File(file) => (file.attr, file.group, file.bytes.as_slice()),
        Item::Dir(dir) => (dir.attr, 0, b"hello"),
        Item::Link(link) => (link.attr, 0, link.target.as_slice()),
    }
}

/// Whether what is put is an item with this mode, these nanoseconds and this group, and with the bytes or target `hello`.
fn is_put(item: &PutItem, wanted: (u16, u32, u32)) -> bool {
    match item {
        PutItem::Whole(item) => is_item(item, wanted),
        PutItem::Staged(_) => false,
    }
}

fn is_item(item: &Item, wanted: (u16, u32, u32)) -> bool {
    let (attr, group, bytes) = parts_of(item);
    (attr.mode(), attr.nanos(), group) == wanted && bytes == b"hello".as_slice()
}

fn expect_put(alloc: Global, query: &str, wanted: (u16, u32, u32)) -> Result<(), Fail> {
    let defaults = defaults(alloc)?;
    let head = format!(in alloc;
        "PUT /dumps/1-0/entry?path=a&{query} HTTP/1.0\r\nContent-Length: 5"
    )?;
    let Ok(
        Event::Put {
            dump,
            path: _,
            item,
            token: _,
        },
    ) = asked(alloc, head.as_str(), b"hello", &defaults)
    else {
        return Err(Fail::new("no put"));
    };
    if is_put(&item, wanted) && dump.epoch == 1 {
        return Ok(());
    }
    Err(Fail::new("another item"))
}

/// The token of an opening, a put or a removal.
fn token_of(event: &Event) -> Option<Token> {
    match event {
        Event::OpenDump { token, .. } => *token,
        Event::Put { token, .. } => *token,
        Event::Remove { token, .. } => *token,
        _ => None,
    }
}

fn expect_token(alloc: Global, line: &str, body: &str, wanted: Option<Token>) -> Result<(), Fail> {
    let defaults = defaults(alloc)?;
    let count = body.len();
    let head = format!(in alloc; "{line} HTTP/1.0\r\nContent-Length: {count}")?;
    match asked(alloc, head.as_str(), body.as_bytes(), &defaults) {
        Ok(event) => expect(token_of(&event) == wanted, "another token"),
        Err(_) => Err(Fail::new("a request refused")),
    }
}

#[test]
fn a_request_has_its_token(rt: HostRuntime) -> Result<(), Fail> {
    for (line, body, wanted) in WITH_TOKENS {
        expect_token(rt.alloc(), line, body, wanted)?;
    }
    Ok(())
}

/// A file that goes by stages keeps its token for the put.
#[test]
fn a_staged_file_has_its_token(rt: HostRuntime) -> Result<(), Fail> {
    let head =
        "PUT /dumps/1-0/entry?path=a&kind=file&token=00112233445566778899aabbccddeeff HTTP/1.1\r\nHost: b\r\nTransfer-Encoding: chunked";
    match way(rt.alloc(), head) {
        Ok(Way::Staged(put)) => expect(put.token == Some(TOKEN), "another token"),
        _ => Err(Fail::new("another way")),
    }
}

#[test]
fn a_put_has_its_item(rt: HostRuntime) -> Result<(), Fail> {
    for (query, mode, nanos, group) in PUTS {
        expect_put(rt.alloc(), query, (mode, nanos, group))?;
    }
    Ok(())
}

/// The kinds of puts with a field of their heads, and how many bytes of the body are looked at, or None if the file goes by stages.
const WAYS: &[(&str, &str, Option<usize>)] = &[
    ("file", "Content-Length: 0", Some(65_536)),
    ("file", "Content-Length: 65536", Some(65_536)),
    ("file", "Content-Length: 65537", None),
    ("file", "Content-Length: 1099511627775", None),
    ("file", "Transfer-Encoding: chunked", None),
    ("link", "Content-Length: 65537", Some(4_097)),
    ("link", "Transfer-Encoding: chunked", Some(4_097)),
    ("dir", "Transfer-Encoding: chunked", Some(0)),
];

fn expect_way(alloc: Global, kind: &str, field: &str, wanted: Option<usize>) -> Result<(), Fail> {
    let head = format!(in alloc;
        "PUT /dumps/1-0/entry?path=a&kind={kind} HTTP/1.1\r\nHost: b\r\n{field}"
    )?;
    let looked = match way(alloc, head.as_str()) {
        Ok(Way::Planned(plan)) => Some(looked_at(&plan)),
        Ok(Way::Staged(_put)) => None,
        Err(_) => return Err(Fail::new("no plan")),
    };
    expect(looked == wanted, "another way")
}

#[test]
fn a_large_file_goes_by_stages(rt: HostRuntime) -> Result<(), Fail> {
    for (kind, field, wanted) in WAYS {
        expect_way(rt.alloc(), kind, field, *wanted)?;
    }
    Ok(())
}

#[test]
fn a_target_is_refused_by_its_first_bytes(rt: HostRuntime) -> Result<(), Fail> {
    let defaults = defaults(rt.alloc())?;
    let head = "PUT /dumps/1-0/entry?path=a&kind=link HTTP/1.0\r\nContent-Length: 9999";
    let target = [b'x'; 4_097];
    let short = asked(rt.alloc(), head, &target[..4_096], &defaults);
    let long = asked(rt.alloc(), head, &target, &defaults);
    let refused = matches!(long, Err(RequestFault::Refused(RequestRefusal::BadTarget)));
    expect(short.is_ok() && refused, "another target")
}

#[test]
fn a_file_is_read_part_by_part(rt: HostRuntime) -> Result<(), Fail> {
    let line = "GET /hosts/pc1/backups/3/file?path=a%2Fb";
    let Ok(
        Event::OpenFile {
            host: _,
            number,
            path,
        },
    ) = asked_by_line(rt.alloc(), line)?
    else {
        return Err(Fail::new("no file"));
    };
    expect(
        number == 3 && path.as_slice() == b"a/b".as_slice(),
        "another file",
    )
}

/// The targets of restores, and the base of each.
const BASES: &[(&str, Option<u32>)] = &[
    ("1/restores?base=0", Some(0)),
    ("0/restores?base=4294967295", Some(u32::MAX)),
    ("1/restores?b%61se=%31", Some(1)),
    ("1/restores", None),
];

fn expect_base(alloc: Global, target: &str, wanted: Option<u32>) -> Result<(), Fail> {
    let line = format!(in alloc; "POST /hosts/pc1/backups/{target}")?;
    match asked_by_line(alloc, line.as_str())? {
        Ok(Event::OpenRead { base, .. }) => expect(base == wanted, "another base"),
        _ => Err(Fail::new("no restore")),
    }
}

#[test]
fn a_restore_has_its_base(rt: HostRuntime) -> Result<(), Fail> {
    for (target, wanted) in BASES {
        expect_base(rt.alloc(), target, *wanted)?;
    }
    Ok(())
}

#[test]
fn settings_go_into_events(rt: HostRuntime) -> Result<(), Fail> {
    let Ok(Event::AddHost { host: _, rules }) = asked_by_line(rt.alloc(), "PUT /hosts/pc1")? else {
        return Err(Fail::new("no host"));
    };
    assert_eq!(rt; rules.number(Setting::FullPeriod), 602_208);
    let Ok(
        Event::Due {
            host: _,
            now: _,
            local,
        },
    ) = asked_by_line(rt.alloc(), "GET /hosts/pc1/due")?
    else {
        return Err(Fail::new("nothing due"));
    };
    assert_eq!(rt; (local.day, local.minute, local.weekday), (0, 60, 4));
    Ok(())
}

#[test]
fn rules_are_read_from_a_query(rt: HostRuntime) -> Result<(), Fail> {
    let line = "PUT /hosts/pc1/rules?OldAge=3&FullKeepCnt=4,2&BlackoutPeriods=1-2:0";
    let Ok(Event::SetRules { host: _, change }) = asked_by_line(rt.alloc(), line)? else {
        return Err(Fail::new("no rules"));
    };
    assert_eq!(rt; change.number(Setting::OldAge), Some(3));
    assert_eq!(rt; change.number(Setting::FillCycle), None);
    let Some(counts) = change.full_keep_cnt() else {
        return Err(Fail::new("no counts"));
    };
    assert_eq!(rt; counts.as_slice(), [4, 2].as_slice());
    assert_eq!(rt; change.old_full_keep_cnt().is_some(), false);
    Ok(())
}
