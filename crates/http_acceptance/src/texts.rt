//! Paths and targets that go in by queries and bodies, and come out in queries and in JSON, over both ports.

use crate::ports::Talk;
use browse_http::End;
use std::alloc::Global;
use std::test::Fail;

/// A conversation in which the host `pc1` has the open dump `1-0`.
fn begin(alloc: Global) -> Result<Talk, Fail> {
    let mut talk = Talk::new(alloc, "", "")?;
    talk.ask(alloc, "PUT /hosts/pc1", "201 Created", "{\"host\":\"pc1\"}")?;
    let line = "POST /hosts/pc1/dumps?kind=full";
    talk.ask(alloc, line, "201 Created", "{\"dump\":\"1-0\"}")?;
    Ok(talk)
}

/// Goes on with the commit of the dump.
fn commit(alloc: Global, talk: &mut Talk) -> Result<(), Fail> {
    let line = "POST /dumps/1-0/commit";
    talk.ask(alloc, line, "201 Created", "{\"number\":0}")?;
    Ok(())
}

/// Goes on with a put at a path as a query writes it.
fn put(alloc: Global, talk: &mut Talk, kind: &str, path: &str, body: &str) -> Result<(), Fail> {
    let line = format!(in alloc; "PUT /dumps/1-0/entry?kind={kind}&path={path}")?;
    talk.put(alloc, line.as_str(), body)?;
    Ok(())
}

/// Goes on with a read of the file at a path as a query writes it.
fn read(alloc: Global, talk: &mut Talk, path: &str, bytes: &str) -> Result<(), Fail> {
    let line = format!(in alloc; "GET /hosts/pc1/backups/0/file?path={path}")?;
    talk.read(alloc, line.as_str(), bytes)?;
    Ok(())
}

/// Two ways in which a query writes a path, and what the file at it holds.
const WRITTEN: [(&str, &str, &str); 10] = [
    ("d%2Fe", "d/e", "an encoded slash"),
    ("a+b", "a%20b", "a plus sign is a space"),
    ("a%2Bb", "a%2bb", "an encoded plus sign"),
    ("%63%2E%74%78%74", "c.txt", "letters"),
    ("50%25", "50%", "a percent sign"),
    ("%2525", "%25%32%35", "a percent sign and two digits"),
    ("%zz", "%25zz", "no escape"),
    ("k=v", "k%3Dv", "an equals sign"),
    ("a?b", "a%3fb", "a question mark"),
    ("%C3%A9", "é", "a letter that isn't ASCII"),
];

#[test]
fn a_path_is_decoded_once(rt: HostRuntime) -> Result<(), Fail> {
    let alloc = rt.alloc();
    let mut talk = begin(alloc)?;
    put(alloc, &mut talk, "dir", "d", "")?;
    for (path, _, bytes) in WRITTEN {
        put(alloc, &mut talk, "file", path, bytes)?;
    }
    commit(alloc, &mut talk)?;
    for (path, other, bytes) in WRITTEN {
        read(alloc, &mut talk, path, bytes)?;
        read(alloc, &mut talk, other, bytes)?;
    }
    talk.expect(&rt, &End::Ended)
}

/// Paths as a query writes them, in the order of their bytes, and as JSON writes them: by Python's json.dumps with
/// `ensure_ascii=False`.
const NAMES: [(&str, &str); 14] = [
    ("%01%1F", "\\u0001\\u001f"),
    ("%08%0C", "\\b\\f"),
    ("%09", "\\t"),
    ("%0A", "\\n"),
    ("%0D%0a", "\\r\\n"),
    ("%20", " "),
    ("%22%22", "\\\"\\\""),
    ("%3C%26%3E'", "<&>'"),
    ("%5C%22", "\\\\\\\""),
    ("a%5Cn", "a\\\\n"),
    ("%7F", "\u{7f}"),
    ("%C3%A9t%C3%A9", "été"),
    ("%E2%80%A8", "\u{2028}"),
    ("%F0%9D%84%9E", "\u{1d11e}"),
];

/// Goes on with the list of the root, whose entries have these names.
fn list(alloc: Global, talk: &mut Talk, order: &[(&str, &str)]) -> Result<(), Fail> {
    let mut body = String::from_str(alloc, "{\"entries\":[")?;
    let mut comma = "";
    for (_, name) in order {
        let entry = format!(in alloc;
            "{comma}{{\"gid\":0,\"group\":0,\"kind\":\"file\",\"mode\":\"0644\",\"mtime\":0,\"name\":\"{name}\",\"nanos\":0,\"size\":0,\"uid\":0}}"
        )?;
        body.push_str(entry.as_str())?;
        comma = ",";
    }
    body.push_str("]}")?;
    let line = "GET /hosts/pc1/backups/0/list";
    talk.ask(alloc, line, "200 OK", body.as_str())?;
    Ok(())
}

#[test]
fn a_name_is_a_text_of_json(rt: HostRuntime) -> Result<(), Fail> {
    let alloc = rt.alloc();
    let mut talk = begin(alloc)?;
    for (path, _) in NAMES {
        put(alloc, &mut talk, "file", path, "")?;
    }
    commit(alloc, &mut talk)?;
    list(alloc, &mut talk, &NAMES)?;
    talk.expect(&rt, &End::Ended)
}

/// The targets of links, and as JSON writes them.
const TARGETS: [(&str, &str); 4] = [
    ("..\\\"x\u{1f}", "..\\\\\\\"x\\u001f"),
    ("%2F\t/\r\n", "%2F\\t/\\r\\n"),
    ("\u{7f}é\u{2028}", "\u{7f}é\u{2028}"),
    ("/", "/"),
];

/// Goes on with a look-up of the link, which has this target.
fn look_up(alloc: Global, talk: &mut Talk, index: usize, target: &str) -> Result<(), Fail> {
    let line = format!(in alloc; "GET /hosts/pc1/backups/0/entry?path=l{index}")?;
    let body = format!(in alloc;
        "{{\"gid\":0,\"kind\":\"link\",\"mode\":\"0777\",\"mtime\":0,\"nanos\":0,\"target\":\"{target}\",\"uid\":0}}"
    )?;
    talk.ask(alloc, line.as_str(), "200 OK", body.as_str())?;
    Ok(())
}

#[test]
fn a_target_is_a_text_of_json(rt: HostRuntime) -> Result<(), Fail> {
    let alloc = rt.alloc();
    let mut talk = begin(alloc)?;
    for (index, (target, _)) in TARGETS.iter().enumerate() {
        let path = format!(in alloc; "l{index}")?;
        put(alloc, &mut talk, "link", path.as_str(), target)?;
    }
    commit(alloc, &mut talk)?;
    for (index, (_, target)) in TARGETS.iter().enumerate() {
        look_up(alloc, &mut talk, index, target)?;
    }
    talk.expect(&rt, &End::Ended)
}

/// Attributes as a query writes them, and the entry that is told of a directory with them.
const ATTRIBUTES: [(&str, &str); 4] = [
    (
        "mode=7",
        "{\"gid\":0,\"kind\":\"dir\",\"mode\":\"0007\",\"mtime\":0,\"nanos\":0,\"uid\":0}",
    ),
    (
        "mode=7777&uid=4294967295&gid=1",
        "{\"gid\":1,\"kind\":\"dir\",\"mode\":\"7777\",\"mtime\":0,\"nanos\":0,\"uid\":4294967295}",
    ),
    (
        "mode=0750&mtime=-9223372036854775808&nanos=999999999",
        "{\"gid\":0,\"kind\":\"dir\",\"mode\":\"0750\",\"mtime\":-9223372036854775808,\"nanos\":999999999,\"uid\":0}",
    ),
    (
        "mtime=-1&nanos=1",
        "{\"gid\":0,\"kind\":\"dir\",\"mode\":\"0755\",\"mtime\":-1,\"nanos\":1,\"uid\":0}",
    ),
];

/// Goes on with a put of a directory with these attributes.
fn put_dir(alloc: Global, talk: &mut Talk, index: usize, attributes: &str) -> Result<(), Fail> {
    let line = format!(in alloc; "PUT /dumps/1-0/entry?{attributes}&path=d{index}&kind=dir")?;
    talk.ask(alloc, line.as_str(), "200 OK", "{}")?;
    Ok(())
}

#[test]
fn attributes_are_told_as_they_were_put(rt: HostRuntime) -> Result<(), Fail> {
    let alloc = rt.alloc();
    let mut talk = begin(alloc)?;
    for (index, (attributes, _)) in ATTRIBUTES.iter().enumerate() {
        put_dir(alloc, &mut talk, index, attributes)?;
    }
    commit(alloc, &mut talk)?;
    for (index, (_, entry)) in ATTRIBUTES.iter().enumerate() {
        let line = format!(in alloc; "GET /hosts/pc1/backups/0/entry?path=d{index}")?;
        talk.ask(alloc, line.as_str(), "200 OK", entry)?;
    }
    talk.expect(&rt, &End::Ended)
}

/// The name of each directory of a path of 4,096 bytes: 16 of them, each with a slash behind it, and a last component of 240 bytes.
fn letters(alloc: Global, count: usize) -> Result<String, Fail> {
    Ok(String::from_utf8(vec![in alloc; b'd'; count]?)?)
}

/// Goes on with puts of 16 directories, one in the other, and gives the path of what lies in the last one, which has no name yet.
fn put_deep_dirs(alloc: Global, talk: &mut Talk) -> Result<String, Fail> {
    let name = letters(alloc, 240)?;
    let mut path = String::new(alloc);
    for _ in 0..16 {
        path.push_str(name.as_str())?;
        put(alloc, talk, "dir", path.as_str(), "")?;
        path.push_str("/")?;
    }
    Ok(path)
}

/// A file whose path has 4,096 bytes goes in and comes out, and there is none whose path has one more.
#[test]
fn a_path_has_up_to_4096_bytes(rt: HostRuntime) -> Result<(), Fail> {
    let alloc = rt.alloc();
    let mut talk = begin(alloc)?;
    let folder = put_deep_dirs(alloc, &mut talk)?;
    let last = letters(alloc, 240)?;
    let path = format!(in alloc; "{folder}{last}")?;
    put(alloc, &mut talk, "file", path.as_str(), "deep")?;
    let line = format!(in alloc; "PUT /dumps/1-0/entry?kind=file&path={path}d")?;
    talk.refuse(alloc, line.as_str(), "400 Bad Request", "BadPath.TooLong")?;
    commit(alloc, &mut talk)?;
    read(alloc, &mut talk, path.as_str(), "deep")?;
    let line = format!(in alloc; "GET /hosts/pc1/backups/0/file?path={path}d")?;
    talk.refuse(alloc, line.as_str(), "400 Bad Request", "BadPath.TooLong")?;
    talk.expect(&rt, &End::Ended)
}
