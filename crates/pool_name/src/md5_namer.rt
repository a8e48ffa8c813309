//! Digests by MD5.

use crate::namer::Namer;
use md5::{Digest, Md5};

/// A content's digest is its MD5 (RFC 1321).
#[derive(Clone, Copy, Debug)]
pub struct Md5Namer;

impl Namer for Md5Namer {
    ghost use Rattle.md5.specs.Md5.{md5, Holds};

    type State = Md5;

    ghost digest_of = { md5 };

    ghost holds = { Holds };

    fn name(&self, content: &[u8]) -> [u8; 16] {
        Md5::digest(content)
    }

    fn start(&self) -> Md5 {
        Md5::new()
    }

    fn update(&self, state: &mut Md5, piece: &[u8]) {
        state.update(piece);
    }

    fn so_far(&self, state: &Md5) -> [u8; 16] {
        match state.clone() {
            Ok(state) => state.finalize(),
            Err(_) => unreachable!(),
        }
    }

    fn finish(&self, state: Md5) -> [u8; 16] {
        state.finalize()
    }

    ghost use Rattle.md5.proofs.StandardFacts.{length-md5};

    ghost has_16_bytes = { length-md5 };
}
