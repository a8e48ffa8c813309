//! Writes the head file.

ghost use Rattle.std.specs.Prelude.{◌≡◌, ◌++◌, OnOk, IfOk};
ghost use Rattle.std.specs.Int.{w8};
ghost use Rattle.std.specs.List.{AllByRecursion};
ghost use Rattle.wire_bytes.specs.Layout.{text_bytes};
ghost use Rattle.wire_bytes.specs.Breaks.{items_bytes};
ghost use Rattle.wire_bytes.specs.Seal.{sealed};
ghost use Rattle.backup_index.specs.Names.{IsHostName};
ghost use Rattle.backup_index.specs.Head.{IsHead, head_grammar};

use crate::head::HeadFile;
use attr_records::HostName;
use disk_trait::Bytes;
use std::alloc::{AllocError, Global};
use wire_bytes::{put_bytes, put_text8, put_u32, put_u64, seal};

/// Writes names, one behind the other.
fn put_names(out: &mut Vec<u8>, names: &[HostName]) -> Result<(), AllocError>
    ensures ok { OnOk result (out.new.items ≡ out.old.items ++ items_bytes (text_bytes w8) names.now) }
    ensures fits { OnOk result (AllByRecursion IsHostName names.now) }
{
    for name in names {
        put_text8(out, name.as_slice())?;
    }
    Ok(())
}

/// The file of a head, or want of memory.
#[tactic(auto, unfolding(wire_bytes::specs::Grammar::field, wire_bytes::specs::Grammar::followed_by, wire_bytes::specs::Grammar::seen_as, wire_bytes::specs::Grammar::items_of))]
pub fn write_head_file(alloc: Global, head: &HeadFile) -> Result<Bytes, AllocError>
    ensures file { IfOk result (λ bytes. bytes ≡ sealed ((head_grammar).print head.now)) }
    ensures fits { OnOk result (IsHead head.now) }
{
    let count = head.names.len() as u32;
    let mut body = Vec::new(alloc);
    put_bytes(&mut body, b"RHD1")?;
    put_u64(&mut body, head.epoch)?;
    put_u32(&mut body, count)?;
    put_names(&mut body, head.names.names())?;
    Ok(Bytes::from_vec(seal(body)?))
}
