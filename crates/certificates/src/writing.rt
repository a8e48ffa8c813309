//! Writes the parts of a certificate at the end of a buffer. A certificate is its head; each host's name (`put_text8`), number of tables
//! (`put_u64`), tables, the partial's ids, number of items (`put_u64`) and items; the number of the pool's files (`put_u64`) and the files; and
//! the seal (`seal`): the calls of the crate `wire_bytes` are named in brackets. `written` of specs/Written says so. Want of
//! memory leaves a part of what was to be written.

ghost use Rattle.std.specs.Prelude.{◌≡◌, ◌++◌, length, OnOk};
ghost use Rattle.std.specs.Int.{w32};
ghost use Rattle.wire_bytes.specs.Layout.{IsNumber};
ghost use Rattle.wire_bytes.specs.Breaks.{items_bytes};
ghost use Rattle.certificates.specs.Layout.{one_id_bytes, ids_bytes};
ghost use Rattle.certificates.specs.Written.{head_put, table_put, item_put, file_put};

use std::alloc::AllocError;
use wire_bytes::{put_bytes, put_flag, put_u32, put_u64};

/// Writes `RCK1`, the epoch, and the number of hosts.
pub fn put_head(out: &mut Vec<u8>, epoch: u64, hosts: u32) -> Result<(), AllocError>
    ensures { OnOk result (out.new.items ≡ head_put out.old.items epoch hosts) }
{
    put_bytes(out, b"RCK1")?;
    put_u64(out, epoch)?;
    put_u32(out, hosts)?;
    Ok(())
}

/// Writes ids, one behind the other.
fn put_each(out: &mut Vec<u8>, ids: &[[u8; 18]]) -> Result<(), AllocError>
    ensures { OnOk result (out.new.items ≡ out.old.items ++ items_bytes one_id_bytes ids.now) }
{
    for id in ids {
        put_bytes(out, id)?;
    }
    Ok(())
}

/// Writes the ids of a list, behind their number.
pub fn put_ids(out: &mut Vec<u8>, ids: &[[u8; 18]]) -> Result<(), AllocError>
    requires { IsNumber w32 (length ids.now) }
    ensures { OnOk result (out.new.items ≡ out.old.items ++ ids_bytes ids.now) }
{
    put_u32(out, ids.len() as u32)?;
    put_each(out, ids)?;
    Ok(())
}

/// Writes a table: its number, and its ids behind theirs.
pub fn put_table(out: &mut Vec<u8>, number: u32, ids: &[[u8; 18]]) -> Result<(), AllocError>
    requires { IsNumber w32 (length ids.now) }
    ensures { OnOk result (out.new.items ≡ table_put out.old.items (record { number = number; ids = ids.now })) }
{
    put_u32(out, number)?;
    put_ids(out, ids)?;
    Ok(())
}

/// Writes an item: an id, and how often a host's lists name it.
#[tactic(auto, unfolding(crate::specs::Layout::item_bytes))]
pub fn put_item(out: &mut Vec<u8>, id: &[u8; 18], count: u64) -> Result<(), AllocError>
    ensures { OnOk result (out.new.items ≡ item_put out.old.items (record { id = id.now; count = count })) }
{
    put_bytes(out, id)?;
    put_u64(out, count)?;
    Ok(())
}

/// Writes a file of the pool: its id, its size, the digest of the bytes that were found in it, and its mark.
#[tactic(auto, unfolding(crate::specs::Layout::file_bytes))]
pub fn put_file(
    out: &mut Vec<u8>,
    id: &[u8; 18],
    size: u64,
    found: &[u8; 16],
    mark: bool,
) -> Result<(), AllocError>
    ensures { OnOk result (out.new.items ≡ file_put out.old.items (record { id = id.now; size = size; found = found.now; mark = mark })) }
{
    put_bytes(out, id)?;
    put_u64(out, size)?;
    put_bytes(out, found)?;
    put_flag(out, mark)?;
    Ok(())
}
