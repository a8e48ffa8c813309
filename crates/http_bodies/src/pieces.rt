//! The pieces of a body.

ghost use Rattle.std.specs.Prelude.{◌≡◌, ◌≤◌, ◌||◌, nat_le, vec_len, vec_capacity, [], IfOk, IfErr, OnOk, IsErrOf};
ghost use Rattle.fault_counts.specs.Counts.{Counted};
ghost use Rattle.http_wire.specs.Wires.{left_of, written_of, faults_of};
ghost use Rattle.http_bodies.specs.Bodies.{is_done};
ghost use Rattle.http_bodies.specs.Reads.{ReadsPiece, Stops, piece_size};

use crate::body::Body;
use crate::reading::step;
use crate::stop::BodyStop;
use http_wire::Wire;
use std::alloc::{AllocError, Global};
use stream_traits::{Faults, Link};

/// The bytes of a piece, but for the last of a body.
pub const PIECE_SIZE: usize = 65_536;

/// Reads the next piece of a body: a full one, or what is left and the end of the body. Behind the end it gives empty pieces.
/// If it stops, some bytes may have been taken that are told nowhere, and the body is not to be read on.
pub fn next_piece<L: Link>(
    alloc: Global,
    wire: &mut Wire<L>,
    body: &mut Body,
) -> Result<Vec<u8>, BodyStop>
    ensures read { IfOk result (λ piece. ReadsPiece body.old body.new (left_of wire.old) (left_of wire.new) piece.items) }
    ensures stops { IfErr result (Stops body.old (left_of wire.old) (left_of wire.new)) }
    ensures written { written_of wire.new ≡ written_of wire.old }
    ensures counted { Counted (faults_of wire.old) (faults_of wire.new) (IsErrOf result BodyStop.LinkFault) }
{
    let mut piece = match empty_piece(alloc, body) {
        Ok(piece) => piece,
        Err(_) => return Err(BodyStop::Memory),
    };
    match fill(alloc, wire, body, &mut piece) {
        Ok(()) => Ok(piece),
        Err(stop) => Err(stop),
    }
}

/// A piece without bytes yet, with room for no more than a full one, whatever length the body was announced with. What memory a piece has
/// when it was filled is in no clause: that of a `Vec` to which bytes are added says only that its room doesn't shrink.
fn empty_piece(alloc: Global, body: &Body) -> Result<Vec<u8>, AllocError>
    ensures empty { IfOk result (λ piece. piece.items ≡ []) }
    ensures room { IfOk result (λ piece. vec_capacity piece ≤ piece_size) }
{
    Vec::with_capacity(alloc, body.piece_room())
}

/// Whether the piece is full, or the body was read.
fn is_filled(body: &Body, piece: &Vec<u8>) -> bool
    ensures { result ≡ (is_done body.now || nat_le piece_size (vec_len piece.now)) }
{
    body.is_done() || piece.len() >= PIECE_SIZE
}

/// Fills an empty piece.
fn fill<L: Link>(
    alloc: Global,
    wire: &mut Wire<L>,
    body: &mut Body,
    piece: &mut Vec<u8>,
) -> Result<(), BodyStop>
    requires { piece.old.items ≡ [] }
    ensures read { OnOk result (ReadsPiece body.old body.new (left_of wire.old) (left_of wire.new) piece.new.items) }
    ensures stops { IfErr result (Stops body.old (left_of wire.old) (left_of wire.new)) }
    ensures written { written_of wire.new ≡ written_of wire.old }
    ensures counted { Counted (faults_of wire.old) (faults_of wire.new) (IsErrOf result BodyStop.LinkFault) }
{
    while !is_filled(body, piece) {
        match step(alloc, wire, body, piece) {
            Ok(()) => {}
            Err(stop) => return Err(stop),
        }
    }
    Ok(())
}
