//! Requests, responses and links that several tests share.

use crate::runs::{Coming, QUIET};

/// Four requests that make `a.txt` the one file of backup 0 of the host `pc1`.
pub const COMMIT: &str = "PUT /hosts/pc1 HTTP/1.1\r\nHost: b\r\n\r\n\
    POST /hosts/pc1/dumps?kind=full HTTP/1.1\r\nHost: b\r\n\r\n\
    PUT /dumps/1-0/entry?path=a.txt&kind=file HTTP/1.1\r\nHost: b\r\nContent-Length: 5\r\n\r\nhello\
    POST /dumps/1-0/commit HTTP/1.1\r\nHost: b\r\n\r\n";

/// The responses to them.
pub const COMMITTED: &str =
    "HTTP/1.1 201 Created\r\nContent-Type: application/json\r\nContent-Length: 14\r\n\r\n{\"host\":\"pc1\"}\
    HTTP/1.1 201 Created\r\nContent-Type: application/json\r\nContent-Length: 14\r\n\r\n{\"dump\":\"1-0\"}\
    HTTP/1.1 200 OK\r\nContent-Type: application/json\r\nContent-Length: 2\r\n\r\n{}\
    HTTP/1.1 201 Created\r\nContent-Type: application/json\r\nContent-Length: 12\r\n\r\n{\"number\":0}";

pub const ASK_FILE: &str = "GET /hosts/pc1/backups/0/file?path=a.txt HTTP/1.1\r\nHost: b\r\n\r\n";

pub const FILE: &str =
    "HTTP/1.1 200 OK\r\nContent-Type: application/octet-stream\r\nContent-Length: 5\r\n\r\nhello";

pub const NO_HOST: &str =
    "HTTP/1.1 404 Not Found\r\nContent-Type: application/json\r\nContent-Length: 20\r\n\r\n{\"refused\":\"NoHost\"}";

pub const ASK_STATS: &str = "GET /stats HTTP/1.1\r\nHost: b\r\n\r\n";

/// A link that makes the backup alone.
pub const MAKER: Coming<'static> = Coming {
    input: &[COMMIT],
    ..QUIET
};

/// A link that asks for its file.
pub const READER: Coming<'static> = Coming {
    input: &[ASK_FILE],
    ..QUIET
};
