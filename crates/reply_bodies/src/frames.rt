//! The bytes of frames.

ghost use Rattle.std.specs.Prelude.{◌≡◌, IfOk};
ghost use Rattle.restore_stream.specs.Layouts.{frame_bytes};

use disk_trait::Bytes;
use office_model::Frame;
use restore_stream::MAX_PIECE_BYTES;
use std::alloc::{AllocError, Global};

/// The bytes of a frame, as they stand in the stream of a tree; or want of memory. For a piece that no stream has, of no bytes
/// or of more than 65,536, there are none either.
pub fn next_body(alloc: Global, frame: &Frame) -> Result<Bytes, AllocError>
    ensures { IfOk result (λ body. body ≡ frame_bytes frame.now) }
{
    if let Frame::Piece(bytes) = frame {
        if bytes.len() == 0 || bytes.len() > MAX_PIECE_BYTES {
            return Err(AllocError);
        }
    }
    restore_stream::frame_bytes(alloc, frame)
}
