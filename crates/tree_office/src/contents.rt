ghost use Rattle.std.specs.Prelude.{◌≡◌, IfOk};
ghost use Rattle.std.specs.Option.{option_copied};

use std::alloc::{AllocError, Global};
use tree_parts::Content;

/// A copy of a content, if there is one, or want of memory.
pub(crate) fn copied(alloc: Global, content: Option<&[u8]>) -> Result<Option<Content>, AllocError>
    ensures { IfOk result (λ copy. copy ≡ option_copied content.entry) }
{
    match content {
        None => Ok(None),
        Some(bytes) => Ok(Some(Content::from_slice(alloc, bytes)?)),
    }
}
