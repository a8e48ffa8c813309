//! What is read: requests, one behind the other.

ghost use Rattle.std.specs.Prelude.{◌≡◌, ◌++◌, ◌*◌, IfOk, length, vec_len, codes, decimal, replicate};

use std::alloc::{AllocError, Global};

/// A request without a body.
pub const LOOKUP: &[u8] =
    b"GET /hosts/pc1/backups/7/entry?path=home%2Fanna%2Fletters%2Fmay.txt HTTP/1.1\r\nHost: backup.example\r\nUser-Agent: curl/8.5.0\r\nAccept: */*\r\n\r\n";

/// A request with a body of so many bytes.
pub fn put_of(alloc: Global, size: u32) -> Result<Vec<u8>, AllocError>
    ensures { IfOk result (λ put. put.items ≡ codes "PUT /dumps/1-0/entry?path=may.txt&kind=file HTTP/1.1\r\nHost: backup.example\r\nContent-Length: "
        ++ (decimal size ++ codes "\r\n\r\n") ++ replicate size 120) }
{
    let head = format!(in alloc;
        "PUT /dumps/1-0/entry?path=may.txt&kind=file HTTP/1.1\r\nHost: backup.example\r\nContent-Length: {size}\r\n\r\n"
    )?;
    let body = vec![in alloc; b'x'; size as usize]?;
    let mut bytes = Vec::from_slice(alloc, head.as_bytes())?;
    bytes.extend_from_slice(body.as_slice())?;
    Ok(bytes)
}

/// So many copies of some bytes, one behind the other.
pub fn copies(alloc: Global, bytes: &[u8], count: u32) -> Result<Vec<u8>, AllocError>
    ensures { IfOk result (λ all. vec_len all ≡ count * length bytes.now) }
{
    let mut all = Vec::new(alloc);
    for _ in 0..count {
        all.extend_from_slice(bytes)?;
    }
    Ok(all)
}
