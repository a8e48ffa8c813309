//! Writes the index of a host.

ghost use Rattle.std.specs.Prelude.{◌≡◌, ◌++◌, length, OnOk, IfOk};
ghost use Rattle.std.specs.Int.{w32, w64};
ghost use Rattle.std.specs.List.{AllByRecursion};
ghost use Rattle.wire_bytes.specs.Layout.{number_bytes, IsNumber};
ghost use Rattle.wire_bytes.specs.Breaks.{items_bytes};
ghost use Rattle.wire_bytes.specs.Seal.{sealed};
ghost use Rattle.backup_rules.specs.Layout.{line_bytes, IsLine};
ghost use Rattle.backup_index.specs.declared.layouts.IndexLayout.TheVariants.{Third};
ghost use Rattle.backup_index.specs.Lines.{IsSound};
ghost use Rattle.backup_index.specs.Index.{IsIndex};
ghost use Rattle.backup_index.specs.Stored.{index_grammar, index_of_parts};

use crate::parts::HostParts;
use crate::receipt_writing::put_receipts;
use backup_rules::{Line, put_line, put_rules};
use disk_trait::Bytes;
use std::alloc::{AllocError, Global};
use wire_bytes::{put_bytes, put_text8, put_u32, put_u64, seal};

/// Writes lines, one behind the other.
fn put_lines(out: &mut Vec<u8>, lines: &[Line]) -> Result<(), AllocError>
    ensures ok { OnOk result (out.new.items ≡ out.old.items ++ items_bytes line_bytes lines.now) }
    ensures fits { OnOk result (AllByRecursion IsLine lines.now) }
{
    for line in lines {
        put_line(out, line)?;
    }
    Ok(())
}

/// How many lines there are in two pieces.
fn line_count(lines: &[Line], more: &[Line]) -> u64
    ensures { result ≡ length (lines.now ++ more.now) }
{
    lines.len() as u64 + more.len() as u64
}

/// Writes lines in two pieces, one behind the other.
fn put_pieces(out: &mut Vec<u8>, lines: &[Line], more: &[Line]) -> Result<(), AllocError>
    ensures ok { OnOk result (out.new.items ≡ out.old.items ++ items_bytes line_bytes (lines.now ++ more.now)) }
    ensures fits { OnOk result (AllByRecursion IsLine (lines.now ++ more.now)) }
{
    put_lines(out, lines)?;
    put_lines(out, more)?;
    Ok(())
}

/// Writes the numbers between the rules and the lines.
fn put_numbers(out: &mut Vec<u8>, parts: &HostParts) -> Result<(), AllocError>
    ensures ok { OnOk result (out.new.items ≡ out.old.items ++ (number_bytes w32 parts.now.good ++ (number_bytes w32 parts.now.bad
        ++ (number_bytes w64 parts.now.next ++ number_bytes w64 (length (parts.now.lines.now ++ parts.now.more.now)))))) }
    ensures fits { OnOk result (IsNumber w64 (length (parts.now.lines.now ++ parts.now.more.now))) }
{
    put_u32(out, parts.good)?;
    put_u32(out, parts.bad)?;
    put_u64(out, parts.next)?;
    put_u64(out, line_count(parts.lines, parts.more))?;
    Ok(())
}

/// The file of an index in the third layout, of parts that break no rule (`broken_index` tells), or want of memory.
pub fn write_host_index(alloc: Global, parts: &HostParts) -> Result<Bytes, AllocError>
    requires { IsSound parts.now.next (parts.now.lines.now ++ parts.now.more.now) }
    ensures file { IfOk result (λ bytes. bytes ≡ sealed ((index_grammar).print (Third, index_of_parts parts.now))) }
    ensures fits { OnOk result (IsIndex (index_of_parts parts.now)) }
{
    let mut body = Vec::new(alloc);
    put_bytes(&mut body, b"RHI3")?;
    put_u32(&mut body, parts.host)?;
    put_text8(&mut body, parts.name.as_slice())?;
    put_rules(&mut body, parts.rules)?;
    put_receipts(&mut body, parts.receipts)?;
    put_numbers(&mut body, parts)?;
    put_pieces(&mut body, parts.lines, parts.more)?;
    Ok(Bytes::from_vec(seal(body)?))
}
