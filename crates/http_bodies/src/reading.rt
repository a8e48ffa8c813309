//! Steps of the reading of a body.

ghost use Rattle.std.specs.Prelude.{◌≡◌, ◌<◌, ◌≤◌, [], false, length, vec_len, IfOk, IfErr, OnOk, IsErrOf};
ghost use Rattle.fault_counts.specs.Counts.{Counted};
ghost use Rattle.http_wire.specs.Bodies.{AddsBytes};
ghost use Rattle.http_wire.specs.Wires.{ahead_of, left_of, written_of, faults_of};
ghost use Rattle.http_bodies.specs.Bodies.{IsLined, HasNoItemYet, is_done};
ghost use Rattle.http_bodies.specs.Reads.{Reads, StepsOn, StopsAfter, TakesItem, StopsHere, StopsIn, rank};

use crate::body::{Body, Place};
use crate::items::{Judged, judge};
use crate::pieces::PIECE_SIZE;
use crate::stop::BodyStop;
use http_wire::{Wire, WireFault, add_bytes};
use std::alloc::Global;
use stream_traits::{Faults, Link, ReadFault};

/// Takes what comes where the body stands, and says how many bytes it announces. Nothing is taken if it doesn't come.
fn take_item<L: Link>(alloc: Global, wire: &mut Wire<L>, body: &Body) -> Result<u64, BodyStop>
    requires { IsLined body.now.place }
    ensures took { IfOk result (TakesItem body.now.place (left_of wire.old) (left_of wire.new)) }
    ensures fits { IfOk result (λ size. size ≤ body.now.room) }
    ensures stops { IfErr result (StopsHere body.now (left_of wire.old) (left_of wire.new)) }
    ensures written { written_of wire.new ≡ written_of wire.old }
    ensures counted { Counted (faults_of wire.old) (faults_of wire.new) (IsErrOf result BodyStop.LinkFault) }
{
    loop {
        match judge(body, wire.ahead()) {
            Judged::Whole { len, size } => {
                wire.take(len);
                return Ok(size);
            }
            Judged::Broken => return Err(BodyStop::BadChunk),
            Judged::Large => return Err(BodyStop::TooLarge),
            Judged::Unfinished => match read_on(alloc, wire, body) {
                Ok(()) => {}
                Err(stop) => return Err(stop),
            },
        }
    }
}

/// Reads more behind the beginning of what comes, or says that it doesn't come.
fn read_on<L: Link>(alloc: Global, wire: &mut Wire<L>, body: &Body) -> Result<(), BodyStop>
    requires { HasNoItemYet body.now.place (ahead_of wire.old) }
    ensures more { OnOk result (length (ahead_of wire.old) < length (ahead_of wire.new)) }
    ensures stops { IfErr result (StopsHere body.now (left_of wire.old) (left_of wire.new)) }
    ensures left { left_of wire.new ≡ left_of wire.old }
    ensures written { written_of wire.new ≡ written_of wire.old }
    ensures counted { Counted (faults_of wire.old) (faults_of wire.new) (IsErrOf result BodyStop.LinkFault) }
{
    match wire.fill(alloc) {
        Ok(0) => Err(BodyStop::Truncated),
        Ok(_) => Ok(()),
        Err(WireFault::LinkFault) => Err(BodyStop::LinkFault),
        Err(WireFault::Memory) => Err(BodyStop::Memory),
    }
}

/// Passes what comes where the body stands.
fn pass_item<L: Link>(alloc: Global, wire: &mut Wire<L>, body: &mut Body) -> Result<(), BodyStop>
    requires { IsLined body.old.place }
    ensures reads { OnOk result (Reads body.old body.new (left_of wire.old) (left_of wire.new) []) }
    ensures lower { OnOk result (rank body.new.place < rank body.old.place) }
    ensures stops { IfErr result (StopsHere body.old (left_of wire.old) (left_of wire.new)) }
    ensures written { written_of wire.new ≡ written_of wire.old }
    ensures counted { Counted (faults_of wire.old) (faults_of wire.new) (IsErrOf result BodyStop.LinkFault) }
{
    match take_item(alloc, wire, body) {
        Ok(size) => {
            *body = body.passed(size);
            Ok(())
        }
        Err(stop) => Err(stop),
    }
}

/// Puts the next bytes behind those of the piece, as many as it has room for, but at most `left`; and says how many.
fn pass_bytes<L: Link>(
    alloc: Global,
    wire: &mut Wire<L>,
    piece: &mut Vec<u8>,
    left: u64,
) -> Result<u64, BodyStop>
    requires some { 0 < left }
    requires room { vec_len piece.old < 65536 }
    ensures added { IfOk result (AddsBytes piece.old.items piece.new.items (left_of wire.old) (left_of wire.new)) }
    ensures within { IfOk result (λ count. count ≤ left) }
    ensures some { IfOk result (λ count. 0 < count) }
    ensures fits { OnOk result (length piece.new.items ≤ 65536) }
    ensures stops { IfErr result (StopsIn left (length piece.old.items) (left_of wire.old) (left_of wire.new)) }
    ensures written { written_of wire.new ≡ written_of wire.old }
    ensures counted { Counted (faults_of wire.old) (faults_of wire.new) (IsErrOf result BodyStop.LinkFault) }
{
    let count = left.min((PIECE_SIZE - piece.len()) as u64);
    match add_bytes(alloc, wire, piece, count as usize) {
        Ok(()) => Ok(count),
        Err(ReadFault::Ended) => Err(BodyStop::Truncated),
        Err(ReadFault::Failed) => Err(BodyStop::LinkFault),
        Err(ReadFault::Memory) => Err(BodyStop::Memory),
    }
}

/// One step of the reading of a piece.
pub fn step<L: Link>(
    alloc: Global,
    wire: &mut Wire<L>,
    body: &mut Body,
    piece: &mut Vec<u8>,
) -> Result<(), BodyStop>
    requires left { is_done body.old ≡ false }
    requires room { vec_len piece.old < 65536 }
    ensures steps { OnOk result (StepsOn body.old body.new piece.old.items piece.new.items (left_of wire.old) (left_of wire.new)) }
    ensures stops { IfErr result (StopsAfter body.old (length piece.old.items) (left_of wire.old) (left_of wire.new)) }
    ensures written { written_of wire.new ≡ written_of wire.old }
    ensures counted { Counted (faults_of wire.old) (faults_of wire.new) (IsErrOf result BodyStop.LinkFault) }
{
    match body.place {
        Place::Counted(left) => match pass_bytes(alloc, wire, piece, left) {
            Ok(count) => {
                body.place = Place::Counted(left - count);
                Ok(())
            }
            Err(stop) => Err(stop),
        },
        Place::InChunk(left) if left > 0 => match pass_bytes(alloc, wire, piece, left) {
            Ok(count) => {
                body.place = Place::InChunk(left - count);
                Ok(())
            }
            Err(stop) => Err(stop),
        },
        _ => match pass_item(alloc, wire, body) {
            Ok(()) => Ok(()),
            Err(stop) => Err(stop),
        },
    }
}
