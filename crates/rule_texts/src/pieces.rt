//! The pieces of a list's text.

ghost use Rattle.std.specs.Prelude.{◌≡◌, ◌==◌, map, IfOk};
ghost use Rattle.std.specs.List.{slice_split};

use std::alloc::{AllocError, Global};

/// The pieces between separators, or want of memory.
pub fn pieces<'a>(alloc: Global, text: &'a [u8], separator: u8) -> Result<Vec<&'a [u8]>, AllocError>
    ensures { IfOk result (λ pieces. map (λ piece. piece.now) pieces.items ≡ slice_split (λ byte. byte == separator) text.now) }
{
    text.split(|byte| *byte == separator).collect(alloc)
}
