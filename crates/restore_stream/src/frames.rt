ghost use Rattle.std.specs.Prelude.{◌≡◌, ◌≤◌, ◌++◌, [], length, take, drop, IfOk, IfSome, OnErr, None};
ghost use Rattle.std.specs.Option.{option_to_list};
ghost use Rattle.tree_frames.specs.Frames.{frames, frames_left, bytes_of};
ghost use Rattle.restore_stream.specs.Layouts.{IsFrame};

use crate::made::Made;
use attr_records::Item;
use disk_trait::Bytes;
use std::alloc::{AllocError, Global};
use std::marker::Model;
use tree_frames::{Frame, node_of};

/// The most bytes of a piece.
pub const MAX_PIECE_BYTES: usize = 65_536;

const _: () = prove!(MAX_PIECE_BYTES == 65_536);

/// Gives the frames of a tree one by one. Its value is the list of those that are left.
#[derive(Drop)]
pub struct FrameCursor<'a> {
    /// What is left of the file that was given last.
    rest: &'a [u8],
    rows: &'a [Made],
    count: u32,
    is_ended: bool,
}

impl<'a> Model for FrameCursor<'a> {
    ghost use Rattle.std.specs.Prelude.{List};
    ghost use Rattle.tree_frames.specs.declared.nodes.Frame.{Frame};
    ghost use Rattle.tree_frames.specs.Frames.{frames_left};

    ghost Value = { List Frame };

    ghost view = { λ c. frames_left c.rest.now c.rows.now c.count c.is_ended };
}

/// The bytes of a file, none of another node.
fn bytes_of(item: &Item) -> &[u8]
    ensures { result.now ≡ bytes_of item.now }
{
    match item {
        Item::File(file) => file.bytes.as_slice(),
        Item::Dir(_) | Item::Link(_) => &[],
    }
}

/// The first piece of some bytes, and what stands behind it.
#[tactic(auto, using(crate::proofs::FrameLaws::take_piece, crate::proofs::FrameLaws::drop_piece))]
fn split_piece(bytes: &[u8]) -> (&[u8], &[u8])
    ensures front { result.0.now ≡ take 65536 bytes.now }
    ensures behind { result.1.now ≡ drop 65536 bytes.now }
{
    bytes.split_at(bytes.len().min(MAX_PIECE_BYTES))
}

impl<'a> FrameCursor<'a> {
    /// All frames of these rows of a tree.
    pub fn new(rows: &'a [Made]) -> FrameCursor<'a>
        requires { length rows.now ≤ 1048576 }
        ensures { result ≡ frames rows.now }
    {
        FrameCursor {
            rest: &[],
            rows,
            count: rows.len() as u32,
            is_ended: false,
        }
    }

    /// The next frame, none behind the end; or want of memory, after which the same frame comes again.
    pub fn next_frame(&mut self, alloc: Global) -> Result<Option<Frame>, AllocError>
        ensures next { IfOk result (λ frame. self.old ≡ option_to_list frame ++ self.new) }
        ensures none { IfOk result (λ frame. frame ≡ None → self.old ≡ []) }
        ensures fits { IfOk result (λ frame. IfSome frame IsFrame) }
        ensures same { OnErr result (self.new ≡ self.old) }
    {
        if self.is_ended {
            return Ok(None);
        }
        if self.rest.len() > 0 {
            let (front, behind) = split_piece(self.rest);
            let piece = Bytes::from_slice(alloc, front)?;
            self.rest = behind;
            return Ok(Some(Frame::Piece(piece)));
        }
        match self.rows {
            [] => {
                self.is_ended = true;
                Ok(Some(Frame::End(self.count)))
            }
            [row, later @ ..] => {
                let path = row.path().copy(alloc)?;
                let node = node_of(alloc, row.item())?;
                self.rest = bytes_of(row.item());
                self.rows = later;
                Ok(Some(Frame::Entry { path, node }))
            }
        }
    }
}
