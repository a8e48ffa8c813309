//! Bodies that are read to their end, and of which little is kept.

ghost use Rattle.std.specs.Prelude.{◌≡◌, ◌≤◌, ℕ, List, take, IfOk, IfErr, OnOk, IsErrOf};
ghost use Rattle.fault_counts.specs.Counts.{Counted};
ghost use Rattle.http_wire.specs.Wires.{left_of, written_of, faults_of};
ghost use Rattle.browse_http.specs.Reading.{ReadsAll, ReadsSome};

use http_bodies::{Body, BodyStop, PIECE_SIZE, next_piece};
use http_wire::Wire;
use std::alloc::Global;
use stream_traits::{Faults, Link};

/// Reads a body to its end, and drops it.
pub fn skip_rest<L: Link>(
    alloc: Global,
    wire: &mut Wire<L>,
    body: &mut Body,
) -> Result<(), BodyStop>
    ensures all { OnOk result ((got : List ℕ) × ReadsAll body.old body.new (left_of wire.old) (left_of wire.new) got) }
    ensures some { IfErr result (ReadsSome body.old (left_of wire.old) (left_of wire.new)) }
    ensures written { written_of wire.new ≡ written_of wire.old }
    ensures counted { Counted (faults_of wire.old) (faults_of wire.new) (IsErrOf result BodyStop.LinkFault) }
{
    loop {
        let piece = match next_piece(alloc, wire, body) {
            Ok(piece) => piece,
            Err(stop) => return Err(stop),
        };
        if piece.len() < PIECE_SIZE {
            return Ok(());
        }
    }
}

/// Reads a body to its end, and keeps the first of its bytes, at most `most`.
pub fn read_kept<L: Link>(
    alloc: Global,
    wire: &mut Wire<L>,
    body: &mut Body,
    most: usize,
) -> Result<Vec<u8>, BodyStop>
    requires { most ≤ 65536 }
    ensures all { IfOk result (λ kept. (got : List ℕ) × ReadsAll body.old body.new (left_of wire.old) (left_of wire.new) got × (kept.items ≡ take most got)) }
    ensures some { IfErr result (ReadsSome body.old (left_of wire.old) (left_of wire.new)) }
    ensures written { written_of wire.new ≡ written_of wire.old }
    ensures counted { Counted (faults_of wire.old) (faults_of wire.new) (IsErrOf result BodyStop.LinkFault) }
{
    let mut kept = match next_piece(alloc, wire, body) {
        Ok(piece) => piece,
        Err(stop) => return Err(stop),
    };
    if kept.len() < PIECE_SIZE {
        kept.truncate(most);
        return Ok(kept);
    }
    match skip_rest(alloc, wire, body) {
        Ok(()) => {
            kept.truncate(most);
            Ok(kept)
        }
        Err(stop) => Err(stop),
    }
}
