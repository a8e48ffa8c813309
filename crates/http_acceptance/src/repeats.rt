//! Requests that are sent again with their tokens, over both ports: each is answered, and done once.

use crate::ports::{Talk, json};
use browse_http::End;
use std::alloc::Global;
use std::test::Fail;

/// Opens a dump with a token.
const OPEN: &str = "POST /hosts/pc1/dumps?kind=full&token=000000000000000000000000000000aa";

/// Opens one with another token.
const OTHER: &str = "POST /hosts/pc1/dumps?kind=full&token=000000000000000000000000000000ab";

const PUT: &str = "PUT /dumps/1-0/entry?path=a&kind=file&token=000000000000000000000000000000bb";

const REMOVE: &str = "DELETE /dumps/1-0/entry?path=old&token=000000000000000000000000000000dd";

const PUT_OLD: &str = "PUT /dumps/1-0/entry?path=old&kind=dir";

const COMMIT: &str = "POST /dumps/1-0/commit";

const READ_OLD: &str = "GET /hosts/pc1/backups/0/entry?path=old";

const OLD: &str =
    "{\"gid\":0,\"kind\":\"dir\",\"mode\":\"0755\",\"mtime\":0,\"nanos\":0,\"uid\":0}";

const MADE: &str = "201 Created";

/// Goes on with a request that is sent twice, and answered so each time.
fn ask_twice(alloc: Global, talk: &mut Talk, row: (&str, &str, &str)) -> Result<(), Fail> {
    talk.ask(alloc, row.0, row.1, row.2)?;
    talk.ask(alloc, row.0, row.1, row.2)?;
    Ok(())
}

/// Goes on with a put of a file in a chunk of five letters, with one token for each put.
fn put_chunk(alloc: Global, talk: &mut Talk, chunk: &str) -> Result<(), Fail> {
    let asked = format!(in alloc;
        "PUT /dumps/1-0/entry?path=b&kind=file&token=000000000000000000000000000000cc HTTP/1.1\r\nHost: b\r\nTransfer-Encoding: chunked\r\n\r\n5\r\n{chunk}\r\n0\r\n\r\n"
    )?;
    let told = json(alloc, "200 OK", "", "{}")?;
    talk.go_on(asked.as_str(), told.as_str())?;
    Ok(())
}

/// A dump in which each request is sent again. The first of two puts is done, and a removal takes nothing that was put since; one that
/// was refused is judged again. The receipt outlives the backup, and a dump that is dropped has none.
#[test]
fn a_request_that_is_sent_again_is_done_once(rt: HostRuntime) -> Result<(), Fail> {
    let alloc = rt.alloc();
    let mut talk = Talk::new(alloc, "", "")?;
    talk.ask(alloc, "PUT /hosts/pc1", MADE, "{\"host\":\"pc1\"}")?;
    ask_twice(alloc, &mut talk, (OPEN, MADE, "{\"dump\":\"1-0\"}"))?;
    talk.refuse(alloc, OTHER, "409 Conflict", "SessionOpen")?;
    talk.put(alloc, PUT, "first")?;
    talk.put(alloc, PUT, "second")?;
    put_chunk(alloc, &mut talk, "third")?;
    put_chunk(alloc, &mut talk, "again")?;
    talk.refuse(alloc, REMOVE, "404 Not Found", "NoPath")?;
    talk.ask(alloc, PUT_OLD, "200 OK", "{}")?;
    talk.ask(alloc, REMOVE, "200 OK", "{}")?;
    talk.ask(alloc, PUT_OLD, "200 OK", "{}")?;
    talk.ask(alloc, REMOVE, "200 OK", "{}")?;
    ask_twice(alloc, &mut talk, (COMMIT, MADE, "{\"number\":0}"))?;
    talk.read(alloc, "GET /hosts/pc1/backups/0/file?path=a", "first")?;
    talk.read(alloc, "GET /hosts/pc1/backups/0/file?path=b", "third")?;
    talk.ask(alloc, READ_OLD, "200 OK", OLD)?;
    talk.ask(alloc, "DELETE /hosts/pc1/backups/0", "200 OK", "{}")?;
    ask_twice(alloc, &mut talk, (OPEN, "200 OK", "{\"number\":0}"))?;
    ask_twice(alloc, &mut talk, (OTHER, MADE, "{\"dump\":\"1-1\"}"))?;
    talk.ask(alloc, "DELETE /dumps/1-1", "200 OK", "{}")?;
    talk.ask(alloc, OTHER, MADE, "{\"dump\":\"1-2\"}")?;
    talk.expect(&rt, &End::Ended)
}
