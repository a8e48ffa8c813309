//! Requests that ask for no event, or for one that a rule forbids, over both ports; each connection goes on.

use crate::ports::{COMMIT, COMMITTED, Machine, NOTHING_KEPT, Talk, json, request};
use browse_http::End;
use std::alloc::Global;
use std::test::Fail;

/// Lines with a method that their route doesn't take, and the methods that it takes.
const METHODS: [(&str, &str); 9] = [
    ("PATCH /stats", "GET"),
    ("get /stats", "GET"),
    ("POST /hosts", "GET"),
    ("GET /hosts/A?x=%FF", "PUT"),
    ("PUT /hosts/pc1/dumps", "POST"),
    ("GET /dumps/1-0/entry", "PUT, DELETE"),
    ("GET /dumps/1-0", "DELETE"),
    ("POST /hosts/pc1/backups/0/file", "GET"),
    ("DELETE /restores/1-0/next", "GET"),
];

#[test]
fn another_method_is_told_which_are_allowed(rt: HostRuntime) -> Result<(), Fail> {
    let alloc = rt.alloc();
    let mut talk = Talk::new(alloc, "", "")?;
    for (line, methods) in METHODS {
        let asked = request(alloc, line, None)?;
        let allow = format!(in alloc; "Allow: {methods}\r\n")?;
        let told = json(
            alloc,
            "405 Method Not Allowed",
            allow.as_str(),
            "{\"refused\":\"NoMethod\"}",
        )?;
        talk.go_on(asked.as_str(), told.as_str())?;
    }
    talk.ask(alloc, "GET /stats", "200 OK", NOTHING_KEPT)?;
    talk.expect(&rt, &End::Ended)
}

/// Lines, and the name of what refuses each of them with this status.
type Refused = (&'static str, &'static str, &'static str);

const BAD: &str = "400 Bad Request";

const ABSENT: &str = "404 Not Found";

/// Fails where lines are refused otherwise once the host `pc1` has its backup 0, or the connection doesn't go on.
fn expect_refusals(rt: &impl Machine, rows: &[Refused]) -> Result<(), Fail> {
    let alloc = rt.alloc();
    let mut talk = Talk::new(alloc, COMMIT, COMMITTED)?;
    for (line, status, name) in rows {
        talk.refuse(alloc, line, status, name)?;
    }
    talk.ask(alloc, "GET /hosts", "200 OK", "{\"hosts\":[\"pc1\"]}")?;
    talk.expect(rt, &End::Ended)
}

/// Reads of a file: each line breaks one rule less than the one before, which is the one that was judged first.
const READS: [Refused; 10] = [
    ("PUT /hosts/A/backups/01/files?x=%FF", ABSENT, "NoRoute"),
    ("GET /hosts/A/backups/01/file?x=%FF", BAD, "BadName"),
    ("GET /hosts/a/backups/01/file?x=%FF", BAD, "BadNumber"),
    ("GET /hosts/a/backups/1/file?x=%FF", BAD, "BadQuery.Utf8"),
    ("GET /hosts/a/backups/1/file?x=1", BAD, "BadQuery.Unknown"),
    ("GET /hosts/a/backups/1/file", BAD, "BadQuery.Missing"),
    ("GET /hosts/a/backups/1/file?path=..", BAD, "BadPath.Dot"),
    ("GET /hosts/a/backups/1/file?path=b", ABSENT, "NoHost"),
    ("GET /hosts/pc1/backups/1/file?path=b", ABSENT, "NoBackup"),
    ("GET /hosts/pc1/backups/0/file?path=b", ABSENT, "NoPath"),
];

/// Puts, in the same way.
const PUTS: [Refused; 9] = [
    (
        "PUT /dumps/9-9/entry?mode=9&mode=9&x=%FF",
        BAD,
        "BadQuery.Utf8",
    ),
    (
        "PUT /dumps/9-9/entry?mode=9&mode=9&x=",
        BAD,
        "BadQuery.Unknown",
    ),
    (
        "PUT /dumps/9-9/entry?mode=9&mode=9",
        BAD,
        "BadQuery.Repeated",
    ),
    ("PUT /dumps/9-9/entry?mode=9", BAD, "BadQuery.Missing"),
    (
        "PUT /dumps/9-9/entry?mode=9&path=/b&kind=link",
        BAD,
        "BadQuery.Value",
    ),
    (
        "PUT /dumps/9-9/entry?mode=7&path=/b&kind=link",
        BAD,
        "BadPath.EmptyComponent",
    ),
    (
        "PUT /dumps/9-9/entry?mode=7&path=b&kind=link",
        BAD,
        "BadTarget",
    ),
    (
        "PUT /dumps/9-9/entry?mode=7&path=b&kind=file",
        "411 Length Required",
        "NoLength",
    ),
    (
        "PUT /dumps/9-9/entry?mode=7&path=b&kind=dir",
        ABSENT,
        "NoSession",
    ),
];

#[test]
fn the_first_broken_rule_refuses(rt: HostRuntime) -> Result<(), Fail> {
    expect_refusals(&rt, &READS)?;
    expect_refusals(&rt, &PUTS)
}

/// Texts that are no UTF-8 or hold U+FFFD itself, keys that their route doesn't take, keys that it lacks, and values of another form.
const QUERIES: [Refused; 32] = [
    ("GET /stats?%C3=", BAD, "BadQuery.Utf8"),
    (
        "DELETE /dumps/1-0/entry?path=a%EF%BF%BDb",
        BAD,
        "BadQuery.Utf8",
    ),
    ("GET /hosts?x", BAD, "BadQuery.Unknown"),
    ("GET /stats?=", BAD, "BadQuery.Unknown"),
    ("PUT /hosts/pc2?FillCycle=7", BAD, "BadQuery.Unknown"),
    ("PUT /hosts/pc1/rules?fillCycle=7", BAD, "BadQuery.Unknown"),
    (
        "POST /hosts/pc1/dumps?kind=full&path=a",
        BAD,
        "BadQuery.Unknown",
    ),
    (
        "DELETE /dumps/1-0/entry?path=a&kind=file",
        BAD,
        "BadQuery.Unknown",
    ),
    (
        "PUT /dumps/1-0/entry?path=a&kind=link&group=0",
        BAD,
        "BadQuery.Unknown",
    ),
    ("POST /dumps/1-0/commit?path=a", BAD, "BadQuery.Unknown"),
    (
        "DELETE /dumps/1-0/entry?path=a&p%61th=a",
        BAD,
        "BadQuery.Repeated",
    ),
    (
        "POST /hosts/pc1/dumps?kind=full&kind=full",
        BAD,
        "BadQuery.Repeated",
    ),
    ("PUT /dumps/1-0/entry", BAD, "BadQuery.Missing"),
    ("DELETE /dumps/1-0/entry", BAD, "BadQuery.Missing"),
    (
        "PUT /dumps/1-0/entry?path=a;kind=file",
        BAD,
        "BadQuery.Missing",
    ),
    ("POST /hosts/pc1/backups/0/keep", BAD, "BadQuery.Missing"),
    ("POST /night/clean?", BAD, "BadQuery.Missing"),
    ("POST /hosts/pc1/dumps?kind=Full", BAD, "BadQuery.Value"),
    ("POST /hosts/pc1/dumps?kind=x", BAD, "BadQuery.Value"),
    ("POST /hosts/pc1/dumps?kind", BAD, "BadQuery.Value"),
    ("POST /hosts/pc1/backups/0/keep?on=2", BAD, "BadQuery.Value"),
    ("POST /hosts/pc1/contacts?good=true", BAD, "BadQuery.Value"),
    ("POST /night/clean?bucket=256", BAD, "BadQuery.Value"),
    ("POST /night/clean?bucket=00", BAD, "BadQuery.Value"),
    ("POST /night/clean?bucket=+1", BAD, "BadQuery.Value"),
    (
        "PUT /dumps/1-0/entry?path=a&kind=dir&mode=00644",
        BAD,
        "BadQuery.Value",
    ),
    (
        "PUT /dumps/1-0/entry?path=a&kind=dir&mode=",
        BAD,
        "BadQuery.Value",
    ),
    (
        "PUT /dumps/1-0/entry?path=a&kind=dir&uid=4294967296",
        BAD,
        "BadQuery.Value",
    ),
    (
        "PUT /dumps/1-0/entry?path=a&kind=dir&mtime=9223372036854775808",
        BAD,
        "BadQuery.Value",
    ),
    (
        "PUT /dumps/1-0/entry?path=a&kind=dir&nanos=1000000000",
        BAD,
        "BadQuery.Value",
    ),
    ("PUT /hosts/pc1/rules?FillCycle=3651", BAD, "BadQuery.Value"),
    (
        "PUT /hosts/pc1/rules?FullKeepCnt=1,,2",
        BAD,
        "BadQuery.Value",
    ),
];

#[test]
fn a_query_has_the_keys_of_its_route(rt: HostRuntime) -> Result<(), Fail> {
    expect_refusals(&rt, &QUERIES)
}

/// Names of hosts, numbers of backups and names of sessions, out of form and in form.
const PARTS: [Refused; 32] = [
    ("PUT /hosts/A", BAD, "BadName"),
    ("PUT /hosts/%61", BAD, "BadName"),
    ("PUT /hosts/a%2Fb", BAD, "BadName"),
    ("PUT /hosts/a+b", BAD, "BadName"),
    ("PUT /hosts/-a", BAD, "BadName"),
    ("PUT /hosts/.", BAD, "BadName"),
    ("PUT /hosts/_a", BAD, "BadName"),
    ("PUT /hosts/a%00", BAD, "BadName"),
    (
        "PUT /hosts/aaaaaaaaaaaaaaaaaaaaaaaaaaaaaaaaaaaaaaaaaaaaaaaaaaaaaaaaaaaaaaaaa",
        BAD,
        "BadName",
    ),
    ("PUT /hosts/", ABSENT, "NoRoute"),
    ("PUT /hosts/pc1/", ABSENT, "NoRoute"),
    ("GET /hosts/0._-/backups", ABSENT, "NoHost"),
    (
        "GET /hosts/aaaaaaaaaaaaaaaaaaaaaaaaaaaaaaaaaaaaaaaaaaaaaaaaaaaaaaaaaaaaaaaa/due",
        ABSENT,
        "NoHost",
    ),
    ("GET /hosts/pc1/backups/00/list", BAD, "BadNumber"),
    ("GET /hosts/pc1/backups/01/list", BAD, "BadNumber"),
    ("GET /hosts/pc1/backups/+0/list", BAD, "BadNumber"),
    ("GET /hosts/pc1/backups/-0/list", BAD, "BadNumber"),
    ("GET /hosts/pc1/backups/%30/list", BAD, "BadNumber"),
    ("GET /hosts/pc1/backups/0x0/list", BAD, "BadNumber"),
    ("DELETE /hosts/pc1/backups/4294967296", BAD, "BadNumber"),
    (
        "DELETE /hosts/pc1/backups/99999999999999999999",
        BAD,
        "BadNumber",
    ),
    ("GET /hosts/pc1/backups//list", ABSENT, "NoRoute"),
    ("DELETE /hosts/pc1/backups/4294967295", ABSENT, "NoBackup"),
    ("DELETE /dumps/0-0", ABSENT, "NoSession"),
    ("DELETE /dumps/2", ABSENT, "NoSession"),
    ("DELETE /dumps/1-", ABSENT, "NoSession"),
    ("DELETE /dumps/-1", ABSENT, "NoSession"),
    ("POST /dumps/01-0/commit", ABSENT, "NoSession"),
    ("POST /dumps/%31-0/commit", ABSENT, "NoSession"),
    ("GET /restores/1-0-0/next", ABSENT, "NoSession"),
    (
        "DELETE /restores/18446744073709551616-0",
        ABSENT,
        "NoSession",
    ),
    (
        "DELETE /restores/18446744073709551615-18446744073709551615",
        ABSENT,
        "NoSession",
    ),
];

#[test]
fn names_and_numbers_have_their_forms(rt: HostRuntime) -> Result<(), Fail> {
    expect_refusals(&rt, &PARTS)
}

/// The open dump has a name; another way to write it is no name of it.
const OTHER_NAMES: [&str; 5] = ["01-1", "1-01", "1-1-", "+1-1", "%31-1"];

#[test]
fn a_session_has_one_name(rt: HostRuntime) -> Result<(), Fail> {
    let alloc = rt.alloc();
    let mut talk = Talk::new(alloc, COMMIT, COMMITTED)?;
    let line = "POST /hosts/pc1/dumps?kind=full";
    talk.ask(alloc, line, "201 Created", "{\"dump\":\"1-1\"}")?;
    for name in OTHER_NAMES {
        let line = format!(in alloc; "DELETE /dumps/{name}")?;
        talk.refuse(alloc, line.as_str(), ABSENT, "NoSession")?;
    }
    talk.ask(alloc, "DELETE /dumps/1-1", "200 OK", "{}")?;
    talk.expect(&rt, &End::Ended)
}

/// Paths that break a rule, as a query writes them, and the rule; the first one that is broken is named.
const PATHS: [(&str, &str); 15] = [
    ("", "Empty"),
    ("%00", "Nul"),
    ("a%00//", "Nul"),
    ("/a", "EmptyComponent"),
    ("a/", "EmptyComponent"),
    ("a%2F%2fb", "EmptyComponent"),
    ("/", "EmptyComponent"),
    ("%2F..", "EmptyComponent"),
    (".", "Dot"),
    ("..", "Dot"),
    ("%2e%2E", "Dot"),
    ("./a", "Dot"),
    ("a/../b", "Dot"),
    ("a/.", "Dot"),
    ("%2E/a/b", "Dot"),
];

/// Paths that break none.
const GOOD_PATHS: [&str; 6] = ["...", "a/..b", ".a", "+", "%20", "a%5C..%5Cb"];

/// A component has at most 255 bytes, of which two write `é`.
const COMPONENTS: [(usize, &str, &str, &str); 4] = [
    (255, "", ABSENT, "NoPath"),
    (256, "", BAD, "BadPath.LongComponent"),
    (253, "%C3%A9", ABSENT, "NoPath"),
    (254, "%C3%A9", BAD, "BadPath.LongComponent"),
];

/// Goes on with a look-up that is refused.
fn refuse_path(
    alloc: Global,
    talk: &mut Talk,
    path: &str,
    status: &str,
    name: &str,
) -> Result<(), Fail> {
    let line = format!(in alloc; "GET /hosts/pc1/backups/0/entry?path={path}")?;
    talk.refuse(alloc, line.as_str(), status, name)?;
    Ok(())
}

/// Goes on with a look-up at a component of so many bytes before its end.
fn refuse_component(
    alloc: Global,
    talk: &mut Talk,
    row: (usize, &str, &str, &str),
) -> Result<(), Fail> {
    let (count, end, status, name) = row;
    let letters = String::from_utf8(vec![in alloc; b'a'; count]?)?;
    let path = format!(in alloc; "x/{letters}{end}")?;
    refuse_path(alloc, talk, path.as_str(), status, name)
}

#[test]
fn a_path_keeps_the_rules(rt: HostRuntime) -> Result<(), Fail> {
    let alloc = rt.alloc();
    let mut talk = Talk::new(alloc, COMMIT, COMMITTED)?;
    for (path, rule) in PATHS {
        let name = format!(in alloc; "BadPath.{rule}")?;
        refuse_path(alloc, &mut talk, path, BAD, name.as_str())?;
    }
    for path in GOOD_PATHS {
        refuse_path(alloc, &mut talk, path, ABSENT, "NoPath")?;
    }
    for row in COMPONENTS {
        refuse_component(alloc, &mut talk, row)?;
    }
    talk.expect(&rt, &End::Ended)
}
