//! A file that goes by stages: its pieces are called as they come.

ghost use Rattle.std.specs.Prelude.{◌≡◌, ◌<◌, ℕ, List, [], ◌∷◌, true, length, vec_len, Ok, IfOk, IfErr, OnOk, IsErrOf};
ghost use Rattle.fault_counts.specs.Counts.{Counted};
ghost use Rattle.http_wire.specs.Wires.{left_of, written_of, faults_of};
ghost use Rattle.office_model.specs.declared.event.Event.TheVariants as E;
ghost use Rattle.office_model.specs.declared.answer.Answer.{Answer as AnswerValue};
ghost use Rattle.office_model.specs.Meaning.{Reply};
ghost use Rattle.browse_http.specs.Scripts.{piece_drops, put_drops, staged_event, put_script, pieces_script, stage_script};
ghost use Rattle.browse_http.specs.Staging.{CallsBody, CallsLater, Refuses, MakesCalls, rest_piece, DropsRest};

use crate::bodies::skip_rest;
use disk_trait::Bytes;
use http_bodies::{Body, BodyStop, PIECE_SIZE, next_piece};
use http_wire::Wire;
use office_model::{Answer, BrokenRule, Event, Port, PutItem, Refusal, StagedFile};
use request_events::FilePut;
use std::alloc::Global;
use stream_traits::{Faults, Link};

/// The call that is answered, and its reply.
#[derive(Drop)]
pub struct Answered {
    pub event: Event,
    pub reply: Result<Answer, Refusal>,
}

/// Whether the stage is dropped after this refusal of a piece.
fn piece_drops(refusal: &Refusal) -> bool
    ensures { result ≡ piece_drops refusal.now }
{
    match refusal {
        Refusal::Broken(BrokenRule::NoSession) => false,
        Refusal::Halted => false,
        Refusal::DiskFault => false,
        _ => true,
    }
}

/// Whether it is dropped after this refusal of the put.
fn put_drops(refusal: &Refusal) -> bool
    ensures { result ≡ put_drops refusal.now }
{
    match refusal {
        Refusal::Broken(BrokenRule::NoSession) => false,
        Refusal::Halted => false,
        _ => true,
    }
}

/// Drops a stage, whatever is replied.
fn drop_stage<P: Port>(alloc: Global, port: &mut P, stage: u64)
    ensures { (reply : Reply) × P.moves port.old ((E.StageDrop stage, reply) ∷ []) port.new }
{
    match port.call(alloc, &Event::StageDrop { stage }) {
        Ok(_) => {}
        Err(_) => {}
    }
}

/// Drops a stage, if it is to be dropped.
fn drop_if<P: Port>(alloc: Global, port: &mut P, stage: u64, drops: bool)
    ensures { CallsLater P.moves port.old port.new stage drops }
{
    if !drops {
        return;
    }
    drop_stage(alloc, port, stage);
}

/// Hands a piece on. If it is refused, the stage may be dropped.
fn send_piece<P: Port>(
    alloc: Global,
    port: &mut P,
    stage: u64,
    piece: Vec<u8>,
) -> Result<(), Answered>
    ensures ok { OnOk result ((answer : AnswerValue) × P.moves port.old ((E.StagePiece stage piece.items, Ok answer) ∷ []) port.new) }
    ensures err { IfErr result (Refuses P.moves port.old port.new (E.StagePiece stage piece.items) stage piece_drops) }
{
    let event = Event::StagePiece {
        stage,
        bytes: Bytes::from_vec(piece),
    };
    match port.call(alloc, &event) {
        Ok(_) => Ok(()),
        Err(refusal) => {
            drop_if(alloc, port, stage, piece_drops(&refusal));
            Err(Answered {
                event,
                reply: Err(refusal),
            })
        }
    }
}

/// The put of the file of a stage.
fn staged_event(put: FilePut, stage: u64) -> Event
    ensures { result ≡ staged_event put stage }
{
    let file = StagedFile {
        attr: put.attr,
        group: put.group,
        stage,
    };
    Event::Put {
        dump: put.dump,
        path: put.path,
        item: PutItem::Staged(file),
        token: put.token,
    }
}

/// Puts the file of a stage. If that is refused, the stage may be dropped.
fn put_stage<P: Port>(alloc: Global, port: &mut P, put: FilePut, stage: u64) -> Answered
    ensures { MakesCalls (put_script put stage) P.moves port.old port.new result }
{
    let event = staged_event(put, stage);
    match port.call(alloc, &event) {
        Ok(answer) => Answered {
            event,
            reply: Ok(answer),
        },
        Err(refusal) => {
            drop_if(alloc, port, stage, put_drops(&refusal));
            Answered {
                event,
                reply: Err(refusal),
            }
        }
    }
}

/// Hands the rest of a file on, if it isn't empty, and puts the file.
fn put_last<P: Port>(
    alloc: Global,
    port: &mut P,
    put: FilePut,
    stage: u64,
    rest: Vec<u8>,
) -> Answered
    ensures { MakesCalls (pieces_script put stage (rest_piece rest.items) true) P.moves port.old port.new result }
{
    if rest.is_empty() {
        return put_stage(alloc, port, put, stage);
    }
    match send_piece(alloc, port, stage, rest) {
        Ok(()) => put_stage(alloc, port, put, stage),
        Err(answered) => answered,
    }
}

/// Drops the rest of a body after a refusal.
fn drop_rest<L: Link>(
    alloc: Global,
    wire: &mut Wire<L>,
    body: &mut Body,
    answered: Answered,
) -> Result<Answered, BodyStop>
    ensures dropped { DropsRest body.old body.new (left_of wire.old) (left_of wire.new) answered result }
    ensures written { written_of wire.new ≡ written_of wire.old }
    ensures counted { Counted (faults_of wire.old) (faults_of wire.new) (IsErrOf result BodyStop.LinkFault) }
{
    match skip_rest(alloc, wire, body) {
        Ok(()) => Ok(answered),
        Err(stop) => Err(stop),
    }
}

/// Hands the pieces of a body on to an open stage, and puts its file. A body that stops leaves no stage.
fn put_pieces<P: Port, L: Link>(
    alloc: Global,
    port: &mut P,
    wire: &mut Wire<L>,
    body: &mut Body,
    put: FilePut,
    stage: u64,
) -> Result<Answered, BodyStop>
    ensures calls { CallsBody (pieces_script put stage) P.moves port.old port.new body.old body.new (left_of wire.old) (left_of wire.new) result }
    ensures written { written_of wire.new ≡ written_of wire.old }
    ensures counted { Counted (faults_of wire.old) (faults_of wire.new) (IsErrOf result BodyStop.LinkFault) }
{
    loop {
        let piece = match next_piece(alloc, wire, body) {
            Ok(piece) => piece,
            Err(stop) => {
                drop_stage(alloc, port, stage);
                return Err(stop);
            }
        };
        if piece.len() < PIECE_SIZE {
            return Ok(put_last(alloc, port, put, stage, piece));
        }
        match send_piece(alloc, port, stage, piece) {
            Ok(()) => {}
            Err(answered) => return drop_rest(alloc, wire, body, answered),
        }
    }
}

/// Puts a file of a body in stages, and says which call is answered. After a refusal the rest of the body is dropped.
pub fn put_in_stages<P: Port, L: Link>(
    alloc: Global,
    port: &mut P,
    wire: &mut Wire<L>,
    body: &mut Body,
    put: FilePut,
) -> Result<Answered, BodyStop>
    ensures calls { CallsBody (stage_script put) P.moves port.old port.new body.old body.new (left_of wire.old) (left_of wire.new) result }
    ensures written { written_of wire.new ≡ written_of wire.old }
    ensures counted { Counted (faults_of wire.old) (faults_of wire.new) (IsErrOf result BodyStop.LinkFault) }
{
    let event = Event::StageOpen { dump: put.dump };
    match port.call(alloc, &event) {
        Ok(Answer::Stage(stage)) => put_pieces(alloc, port, wire, body, put, stage),
        Ok(_) => unreachable!(),
        Err(refusal) => drop_rest(
            alloc,
            wire,
            body,
            Answered {
                event,
                reply: Err(refusal),
            },
        ),
    }
}
