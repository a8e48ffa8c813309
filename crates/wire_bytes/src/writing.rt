//! Writes fields at the end of a buffer. A field that is not written leaves the buffer's bytes as they were.

ghost use Rattle.std.specs.Prelude.{◌≡◌, ◌++◌, ◌<◌, length, OnOk, OnErr};
ghost use Rattle.std.specs.Int.{w8, w16, w32, w64};
ghost use Rattle.wire_bytes.specs.Layout.{number_bytes, signed_bytes, text_bytes, IsText, flag_bytes};

use std::alloc::AllocError;

/// Writes bytes as they stand, as a magic or a digest.
pub fn put_bytes(out: &mut Vec<u8>, bytes: &[u8]) -> Result<(), AllocError>
    ensures ok { OnOk result (out.new.items ≡ out.old.items ++ bytes.now) }
    ensures err { OnErr result (out.new.items ≡ out.old.items) }
{
    out.extend_from_slice(bytes)?;
    Ok(())
}

/// Writes a number of one byte.
#[tactic(auto, unfolding(crate::specs::Layout::number_bytes))]
pub fn put_u8(out: &mut Vec<u8>, n: u8) -> Result<(), AllocError>
    ensures ok { OnOk result (out.new.items ≡ out.old.items ++ number_bytes w8 n) }
    ensures err { OnErr result (out.new.items ≡ out.old.items) }
{
    out.push(n)?;
    Ok(())
}

/// Writes a number of two bytes.
#[tactic(auto, unfolding(crate::specs::Layout::number_bytes))]
pub fn put_u16(out: &mut Vec<u8>, n: u16) -> Result<(), AllocError>
    ensures ok { OnOk result (out.new.items ≡ out.old.items ++ number_bytes w16 n) }
    ensures err { OnErr result (out.new.items ≡ out.old.items) }
{
    out.extend_from_slice(&n.to_be_bytes())?;
    Ok(())
}

/// Writes a number of four bytes.
#[tactic(auto, unfolding(crate::specs::Layout::number_bytes))]
pub fn put_u32(out: &mut Vec<u8>, n: u32) -> Result<(), AllocError>
    ensures ok { OnOk result (out.new.items ≡ out.old.items ++ number_bytes w32 n) }
    ensures err { OnErr result (out.new.items ≡ out.old.items) }
{
    out.extend_from_slice(&n.to_be_bytes())?;
    Ok(())
}

/// Writes a number of eight bytes.
#[tactic(auto, unfolding(crate::specs::Layout::number_bytes))]
pub fn put_u64(out: &mut Vec<u8>, n: u64) -> Result<(), AllocError>
    ensures ok { OnOk result (out.new.items ≡ out.old.items ++ number_bytes w64 n) }
    ensures err { OnErr result (out.new.items ≡ out.old.items) }
{
    out.extend_from_slice(&n.to_be_bytes())?;
    Ok(())
}

/// Writes a signed number of eight bytes.
#[tactic(auto, unfolding(crate::specs::Layout::number_bytes))]
pub fn put_i64(out: &mut Vec<u8>, n: i64) -> Result<(), AllocError>
    ensures ok { OnOk result (out.new.items ≡ out.old.items ++ signed_bytes w64 n) }
    ensures err { OnErr result (out.new.items ≡ out.old.items) }
{
    out.extend_from_slice(&n.to_be_bytes())?;
    Ok(())
}

/// Writes a flag.
pub fn put_flag(out: &mut Vec<u8>, flag: bool) -> Result<(), AllocError>
    ensures ok { OnOk result (out.new.items ≡ out.old.items ++ flag_bytes flag) }
    ensures err { OnErr result (out.new.items ≡ out.old.items) }
{
    out.push(u8::from(flag))?;
    Ok(())
}

/// Writes a text with its length in one byte.
#[tactic(auto, unfolding(crate::specs::Layout::number_bytes))]
pub fn put_text8(out: &mut Vec<u8>, text: &[u8]) -> Result<(), AllocError>
    requires { IsText w8 text.now }
    ensures ok { OnOk result (out.new.items ≡ out.old.items ++ text_bytes w8 text.now) }
    ensures err { OnErr result (out.new.items ≡ out.old.items) }
{
    out.reserve(text.len() + 1)?;
    out.push_reserved(text.len() as u8);
    let _ = out.extend_from_slice(text);
    Ok(())
}

/// Writes a text with its length in two bytes.
#[tactic(auto, unfolding(crate::specs::Layout::number_bytes))]
pub fn put_text16(out: &mut Vec<u8>, text: &[u8]) -> Result<(), AllocError>
    requires { IsText w16 text.now }
    ensures ok { OnOk result (out.new.items ≡ out.old.items ++ text_bytes w16 text.now) }
    ensures err { OnErr result (out.new.items ≡ out.old.items) }
{
    out.reserve(text.len() + 2)?;
    let _ = out.extend_from_slice(&(text.len() as u16).to_be_bytes());
    let _ = out.extend_from_slice(text);
    Ok(())
}
