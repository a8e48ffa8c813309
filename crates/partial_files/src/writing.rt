//! Writes the file of a partial dump.

ghost use Rattle.std.specs.Prelude.{◌≡◌, IfOk, OnOk};
ghost use Rattle.partial_files.specs.Layout.{HasNoMark, IsPartial};
ghost use Rattle.partial_files.specs.Partials.{partial_file};

use attr_tables::{Table, put_rows};
use backup_rules::{Kind, put_kind};
use disk_trait::Bytes;
use std::alloc::{AllocError, Global};
use wire_bytes::{put_bytes, put_u32, put_u64, seal};

/// The file of the partial dump of a host, by its place in the order of adding: what it was begun as and when, and its
/// rows, none of which may be a deletion mark. Refused for want of memory, and so answered too for 2^32 rows and more.
#[tactic(auto, unfolding(wire_bytes::specs::Grammar::field, wire_bytes::specs::Grammar::followed_by, wire_bytes::specs::Grammar::seen_as, wire_bytes::specs::Grammar::items_of, crate::specs::Partials::partial_grammar))]
pub fn write_partial(
    alloc: Global,
    host: u32,
    kind: Kind,
    start: u64,
    rows: &Table,
) -> Result<Bytes, AllocError>
    requires { HasNoMark rows.now }
    ensures file { IfOk result (λ bytes. bytes ≡ partial_file host (record { kind = kind; start = start; rows = rows.now })) }
    ensures fits { OnOk result (IsPartial (record { kind = kind; start = start; rows = rows.now })) }
{
    let Ok(count) = u32::try_from(rows.len()) else {
        return Err(AllocError);
    };
    let mut body = Vec::new(alloc);
    put_bytes(&mut body, b"RPD1")?;
    put_u32(&mut body, host)?;
    put_kind(&mut body, kind)?;
    put_u64(&mut body, start)?;
    put_u32(&mut body, count)?;
    put_rows(&mut body, rows.rows())?;
    Ok(Bytes::from_vec(seal(body)?))
}
