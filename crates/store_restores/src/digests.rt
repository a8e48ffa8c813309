//! The digest of a content that is given piece by piece.

ghost use Rattle.std.specs.Prelude.{◌≡◌, ◌<◌, ◌-◌, ◌^◌, ℕ, List};
ghost use Rattle.store_restores.specs.Giving.{room_of, is_last, wrong_in, HasTaken, IsBehind};

use open_sessions::{Asked, Place};
use pool_name::Namer;

/// The most bytes of a piece.
const MAX_PIECE_BYTES: u64 = 65_536;

const _: () = prove!(MAX_PIECE_BYTES == 65_536);

/// How many bytes the piece has.
pub(crate) fn room_of(asked: &Asked) -> usize
    ensures { result ≡ room_of asked.now }
{
    MAX_PIECE_BYTES.min(asked.size.saturating_sub(asked.from)) as usize
}

/// Whether the piece is the last of its content.
fn is_last(asked: &Asked) -> bool
    ensures { result ≡ is_last asked.now }
{
    asked.size.saturating_sub(asked.from) <= MAX_PIECE_BYTES
}

/// The digest of what was given of a content; of nothing at its first piece.
fn digest_so_far<N: Namer>(namer: &N, place: Place<N::State>) -> N::State
    ensures { (content : List ℕ) → HasTaken N.holds place content → N.holds result content }
{
    match place {
        Place::Piece { digest, .. } => digest,
        Place::Removal(_) | Place::Entry(_) | Place::Content(_) | Place::Wrong { .. } => {
            namer.start()
        }
    }
}

/// The place behind a piece of a content, which its digest takes in. Behind the last piece that is the next row's entry,
/// if the digest is the one in the content's name.
pub(crate) fn place_behind<N: Namer>(
    namer: &N,
    place: Place<N::State>,
    asked: &Asked,
    piece: &[u8],
) -> Place<N::State>
    requires { asked.now.row < 2 ^ 64 - 1 }
    ensures { IsBehind N.holds N.digest_of place asked.now piece.now result }
{
    let mut digest = digest_so_far(namer, place);
    namer.update(&mut digest, piece);
    if !is_last(asked) {
        return Place::Piece {
            row: asked.row,
            given: asked.from + MAX_PIECE_BYTES,
            digest,
        };
    }
    let digest = namer.finish(digest);
    if digest == asked.content.digest {
        return Place::Entry(asked.row + 1);
    }
    Place::Wrong {
        content: asked.content,
        digest,
    }
}

/// The wrong digest at a place, if it has one.
pub(crate) fn wrong_at<S: Drop>(place: &Place<S>) -> Option<[u8; 16]>
    ensures { result ≡ wrong_in place.now }
{
    match place {
        Place::Wrong { digest, .. } => Some(*digest),
        Place::Removal(_) | Place::Entry(_) | Place::Content(_) | Place::Piece { .. } => None,
    }
}
