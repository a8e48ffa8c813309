//! Seals a body, and opens what was sealed.

ghost use Rattle.std.specs.Prelude.{◌≡◌, ◌-◌, List, ℕ, length, IfOk, IfErr, IsOkAnd};
ghost use Rattle.wire_bytes.specs.Seal.{sealed};

use crate::fault::BadSeal;
use md5::{Digest, Md5};
use std::alloc::AllocError;

const SEAL_LEN: usize = 16;

/// The body with its seal behind it.
#[tactic(auto, unfolding(crate::specs::Seal::sealed))]
pub fn seal(body: Vec<u8>) -> Result<Vec<u8>, AllocError>
    ensures { IfOk result (λ file. file.items ≡ sealed body.items) }
{
    let mut file = body;
    let digest = Md5::digest(file.as_slice());
    file.extend_from_slice(&digest)?;
    Ok(file)
}

/// The body of a sealed file.
#[tactic(auto, unfolding(crate::specs::Seal::sealed))]
pub fn open_sealed(file: &[u8]) -> Result<&[u8], BadSeal>
    // The file is the body that is given and its seal.
    ensures found { IfOk result (λ body. file.now ≡ sealed body.now) }
    // Each sealed file is opened.
    ensures back { (body : List ℕ) → file.now ≡ sealed body → IsOkAnd result (λ given. given.now ≡ body) }
    // A file that isn't one is refused at the place of its seal.
    ensures bad { IfErr result (λ fault. fault.0 ≡ length file.now - 16) }
{
    if file.len() < SEAL_LEN {
        return Err(BadSeal(0));
    }
    let (body, digest) = file.split_at(file.len() - SEAL_LEN);
    if Md5::digest(body).as_slice() == digest {
        Ok(body)
    } else {
        Err(BadSeal(body.len()))
    }
}
