//! Digests that many contents share, for trials of what a pool does then.

ghost use Rattle.std.specs.Prelude.{◌≡◌, ◌∷◌, unwrap_or, replicate};

use crate::namer::Namer;

/// A content's digest is its first byte, 0 where it has none, and then fifteen zeros.
#[derive(Clone, Copy, Debug)]
pub struct FirstByteNamer;

// The digest of a content of which this is the first byte.
fn digest_from(first: Option<u8>) -> [u8; 16]
    ensures { result ≡ unwrap_or first 0 ∷ replicate 15 0 }
{
    let mut digest = [0u8; 16];
    digest[0] = first.unwrap_or(0);
    digest
}

impl Namer for FirstByteNamer {
    ghost use Rattle.std.specs.Prelude.{◌≡◌, refl, slice_get};
    ghost use Rattle.pool_name.specs.Names.{first_byte_name};

    type State = Option<u8>;

    ghost digest_of = { first_byte_name };

    ghost holds = { λ state content. state ≡ slice_get content 0 };

    fn name(&self, content: &[u8]) -> [u8; 16] {
        digest_from(content.first().copied())
    }

    fn start(&self) -> Option<u8> {
        None
    }

    fn update(&self, state: &mut Option<u8>, piece: &[u8]) {
        if state.is_none() {
            *state = piece.first().copied();
        }
    }

    fn so_far(&self, state: &Option<u8>) -> [u8; 16] {
        digest_from(*state)
    }

    fn finish(&self, state: Option<u8>) -> [u8; 16] {
        digest_from(state)
    }

    ghost has_16_bytes = { λ content. refl };
}
