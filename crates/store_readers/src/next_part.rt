//! What an open reader gives next.

ghost use Rattle.std.specs.Prelude.{◌≡◌, ◌<◌, Some, length, slice_get};
ghost use Rattle.open_sessions.specs.declared.readers.OpenReader.{OpenReader as OpenReaderValue};
ghost use Rattle.store_readers.specs.Giving.{room_of, asked_of, next_of, FitsNumbers};

use disk_trait::PoolId;
use office_model::PIECE_LIMIT;
use open_sessions::{OpenReader, Sessions};

/// Bytes of a content that have to be read.
#[derive(Clone, Copy, Debug, PartialEq)]
pub struct Asked {
    pub content: PoolId,
    /// Where they begin.
    pub from: u64,
    /// How many they are.
    pub room: usize,
}

/// What an open reader gives next.
#[derive(Clone, Copy, Debug, PartialEq)]
pub enum NextPart {
    /// Nothing: all was given.
    End,
    /// A part, which has to be read.
    Piece(Asked),
    /// Nothing: this content has this digest, which isn't its own.
    Wrong { content: PoolId, digest: [u8; 16] },
}

/// How many bytes the next part of a reader has.
#[tactic(auto, unfolding(office_model::specs::Office::piece_limit))]
fn room_of<S: Drop>(reader: &OpenReader<S>) -> usize
    ensures { result ≡ room_of reader.now }
{
    let left = reader.size.saturating_sub(reader.given);
    (PIECE_LIMIT as u64).min(left) as usize
}

/// The next part of a reader of this content, if not all was given.
fn asked_of<S: Drop>(reader: &OpenReader<S>, content: PoolId) -> NextPart
    ensures asked { result ≡ asked_of content reader.now }
    ensures fits { FitsNumbers result }
{
    if reader.given >= reader.size {
        return NextPart::End;
    }
    NextPart::Piece(Asked {
        content,
        from: reader.given,
        room: room_of(reader),
    })
}

/// What a reader gives next.
fn next_of<S: Drop>(reader: &OpenReader<S>) -> NextPart
    ensures next { result ≡ next_of reader.now }
    ensures fits { FitsNumbers result }
{
    let content = match reader.content {
        Some(content) => content,
        None => return NextPart::End,
    };
    match reader.wrong {
        Some(digest) => NextPart::Wrong { content, digest },
        None => asked_of(reader, content),
    }
}

/// What the reader at an index gives next.
pub(crate) fn next_at<S: Drop>(sessions: &Sessions<S>, at: usize) -> NextPart
    requires { at < length sessions.now.readers.items.items }
    ensures next { (reader : OpenReaderValue S) → slice_get sessions.now.readers.items.items at ≡ Some reader → result ≡ next_of reader }
    ensures fits { FitsNumbers result }
{
    next_of(&sessions.readers.items[at])
}

/// The wrong digest of the reader at an index, if it has one.
pub(crate) fn wrong_at<S: Drop>(sessions: &Sessions<S>, at: usize) -> Option<[u8; 16]>
    requires { at < length sessions.now.readers.items.items }
    ensures { (reader : OpenReaderValue S) → slice_get sessions.now.readers.items.items at ≡ Some reader → result ≡ reader.wrong }
{
    sessions.readers.items[at].wrong
}
