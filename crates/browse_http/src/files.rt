//! A file that is sent in parts, as they are read.

ghost use Rattle.std.specs.Prelude.{◌≡◌, ◌++◌, [], ◌∷◌, true, Ok, Err, IfOk, OnOk, OnErr, IfErr, IsErr, IsErrOf};
ghost use Rattle.std.specs.Option.{option_copied};
ghost use Rattle.fault_counts.specs.Counts.{Counted};
ghost use Rattle.stream_traits.specs.Told.{behind, WroteFront};
ghost use Rattle.http_wire.specs.Message.{bytes_head};
ghost use Rattle.http_wire.specs.Wires.{left_of, written_of, faults_of};
ghost use Rattle.office_model.specs.declared.event.Event.TheVariants as E;
ghost use Rattle.office_model.specs.declared.answer.Answer.TheVariants as A;
ghost use Rattle.office_model.specs.Meaning.{Reply};
ghost use Rattle.browse_http.specs.Scripts.{parts_behind, parts_script};
ghost use Rattle.browse_http.specs.Sending.{SendsParts, TakesPart, rest_script, cut_end, part_told, opened_told};
ghost use Rattle.browse_http.specs.Serving.{Behind, CarriesOut, CarriesOutLast, IsFile, is_open};

use crate::answers::respond;
use crate::end::End;
use disk_trait::Bytes;
use http_wire::{Wire, write_bytes_head};
use office_model::{Answer, Event, Port, Refusal};
use std::alloc::Global;
use stream_traits::{Failed, Faults, Link};

/// The bytes of a part, but for the last of a file.
const PART_SIZE: u64 = 65_536;

/// A file that was opened: its reader, and how many bytes that gives.
#[derive(Clone, Copy, Debug, PartialEq, Eq)]
pub struct OpenedFile {
    pub reader: u64,
    pub size: u64,
}

/// What came of a part.
#[derive(Drop)]
pub enum SentPart {
    /// It has bytes, and they were written.
    More,
    /// It has none: the file is at its end.
    End,
    Refused(Refusal),
    /// It has bytes, and the link failed.
    Failed,
}

/// How many parts may come behind the first.
fn parts_behind(size: u64) -> u64
    ensures { result ≡ parts_behind size }
{
    if size % PART_SIZE == 0 {
        size / PART_SIZE
    } else {
        size / PART_SIZE + 1
    }
}

/// Closes a file, whatever is replied.
fn close_file<P: Port>(alloc: Global, port: &mut P, reader: u64)
    ensures { (reply : Reply) × P.moves port.old ((E.CloseFile reader, reply) ∷ []) port.new }
{
    match port.call(alloc, &Event::CloseFile { reader }) {
        Ok(_) => {}
        Err(_) => {}
    }
}

/// Reads the next part of a file.
fn read_part<P: Port>(alloc: Global, port: &mut P, reader: u64) -> Result<Bytes, Refusal>
    ensures ok { IfOk result (λ bytes. P.moves port.old ((E.ReadPart reader, Ok (A.Part bytes)) ∷ []) port.new) }
    ensures err { IfErr result (λ refusal. P.moves port.old ((E.ReadPart reader, Err refusal) ∷ []) port.new) }
{
    match port.call(alloc, &Event::ReadPart { reader }) {
        Ok(Answer::Part(bytes)) => Ok(bytes),
        Ok(_) => unreachable!(),
        Err(refusal) => Err(refusal),
    }
}

/// Reads the next part of a file, and writes it.
fn send_part<P: Port, L: Link>(
    alloc: Global,
    port: &mut P,
    wire: &mut Wire<L>,
    reader: u64,
) -> SentPart
    ensures took { TakesPart P.moves port.old port.new (written_of wire.old) (written_of wire.new) reader result }
    ensures left { left_of wire.new ≡ left_of wire.old }
    ensures counted { Counted (faults_of wire.old) (faults_of wire.new) (result ≡ SentPart.Failed) }
{
    match read_part(alloc, port, reader) {
        Ok(bytes) => {
            if bytes.as_slice().is_empty() {
                return SentPart::End;
            }
            match wire.write(bytes.as_slice()) {
                Ok(()) => SentPart::More,
                Err(Failed) => SentPart::Failed,
            }
        }
        Err(refusal) => SentPart::Refused(refusal),
    }
}

/// How a part that is refused when the head of its response is out ends the connection.
fn cut_end(refusal: Refusal) -> End
    ensures { result ≡ cut_end refusal }
{
    match refusal {
        Refusal::Memory => End::Memory,
        refusal => End::Cut(refusal),
    }
}

/// Reads and writes at most so many parts of a file, and closes it.
fn send_parts<P: Port, L: Link>(
    alloc: Global,
    port: &mut P,
    wire: &mut Wire<L>,
    reader: u64,
    most: u64,
) -> Result<(), End>
    ensures sends { SendsParts (parts_script reader) [] P.moves port.old port.new (written_of wire.old) (written_of wire.new) most result }
    ensures left { left_of wire.new ≡ left_of wire.old }
    ensures counted { Counted (faults_of wire.old) (faults_of wire.new) (IsErrOf result End.LinkFault) }
{
    let mut left = most;
    while left > 0 {
        left -= 1;
        match send_part(alloc, port, wire, reader) {
            SentPart::More => {}
            SentPart::End => {
                close_file(alloc, port, reader);
                return Ok(());
            }
            SentPart::Refused(refusal) => {
                close_file(alloc, port, reader);
                return Err(cut_end(refusal));
            }
            SentPart::Failed => {
                close_file(alloc, port, reader);
                return Err(End::LinkFault);
            }
        }
    }
    close_file(alloc, port, reader);
    Ok(())
}

/// Writes the head of a file's response and its first part.
fn write_first<L: Link>(
    wire: &mut Wire<L>,
    size: u64,
    first: &[u8],
    closes: bool,
) -> Result<(), Failed>
    ensures all { OnOk result (written_of wire.new ≡ behind (written_of wire.old) (bytes_head size closes ++ first.now)) }
    ensures front { OnErr result (WroteFront (written_of wire.old) (written_of wire.new) (bytes_head size closes ++ first.now)) }
    ensures left { left_of wire.new ≡ left_of wire.old }
    ensures counted { Counted (faults_of wire.old) (faults_of wire.new) (IsErr result) }
{
    match write_bytes_head(wire, size, closes) {
        Ok(()) => {}
        Err(Failed) => return Err(Failed),
    }
    match wire.write(first) {
        Ok(()) => Ok(()),
        Err(Failed) => Err(Failed),
    }
}

/// Writes the head of a file's response and its first part, and then the other parts; and closes the file.
fn send_rest<P: Port, L: Link>(
    alloc: Global,
    port: &mut P,
    wire: &mut Wire<L>,
    file: OpenedFile,
    first: &[u8],
    closes: bool,
) -> Result<(), End>
    ensures sends { SendsParts (rest_script first.now file.reader) (bytes_head file.size closes ++ first.now) P.moves port.old port.new
        (written_of wire.old) (written_of wire.new) (parts_behind file.size) result }
    ensures left { left_of wire.new ≡ left_of wire.old }
    ensures counted { Counted (faults_of wire.old) (faults_of wire.new) (IsErrOf result End.LinkFault) }
{
    match write_first(wire, file.size, first, closes) {
        Ok(()) => {}
        Err(Failed) => {
            close_file(alloc, port, file.reader);
            return Err(End::LinkFault);
        }
    }
    if first.is_empty() {
        close_file(alloc, port, file.reader);
        return Ok(());
    }
    send_parts(alloc, port, wire, file.reader, parts_behind(file.size))
}

/// The bytes of a part, if the reply is one.
fn part_told(reply: &Result<Answer, Refusal>) -> Option<&[u8]>
    ensures { option_copied result ≡ part_told reply.now }
{
    match reply {
        Ok(Answer::Part(bytes)) => Some(bytes.as_slice()),
        _ => None,
    }
}

/// The file that was opened, if the reply says so.
fn opened_told(reply: &Result<Answer, Refusal>) -> Option<OpenedFile>
    ensures { result ≡ opened_told reply.now }
{
    match reply {
        Ok(Answer::Opened { reader, size }) => Some(OpenedFile {
            reader: *reader,
            size: *size,
        }),
        _ => None,
    }
}

/// Sends a file that was opened by this event, or says why its first part isn't there.
fn send_opened<P: Port, L: Link>(
    alloc: Global,
    port: &mut P,
    wire: &mut Wire<L>,
    event: &Event,
    file: OpenedFile,
    closes: bool,
    is_head: bool,
) -> Result<(), End>
    requires { is_open event.now ≡ true }
    ensures goes { OnOk result (Behind P.moves (event.now, Ok (A.Opened file.reader file.size)) port.old
        (λ before. CarriesOut (IsFile event.now) P.moves before port.new (written_of wire.old) (written_of wire.new) closes is_head)) }
    ensures ends { IfErr result (λ end. Behind P.moves (event.now, Ok (A.Opened file.reader file.size)) port.old
        (λ before. CarriesOutLast (IsFile event.now) P.moves before port.new (written_of wire.old) (written_of wire.new) closes is_head end)) }
    ensures left { left_of wire.new ≡ left_of wire.old }
    ensures counted { Counted (faults_of wire.old) (faults_of wire.new) (IsErrOf result End.LinkFault) }
{
    let read = Event::ReadPart {
        reader: file.reader,
    };
    let reply = port.call(alloc, &read);
    if let Some(first) = part_told(&reply) {
        match send_rest(alloc, port, wire, file, first, closes) {
            Ok(()) => {}
            Err(end) => return Err(end),
        }
        if closes {
            return Err(End::Ended);
        }
        return Ok(());
    }
    close_file(alloc, port, file.reader);
    respond(alloc, wire, &read, &reply, closes, is_head)
}

/// Opens a file, sends it in parts, and closes it.
pub fn send_file<P: Port, L: Link>(
    alloc: Global,
    port: &mut P,
    wire: &mut Wire<L>,
    event: &Event,
    closes: bool,
    is_head: bool,
) -> Result<(), End>
    requires { is_open event.now ≡ true }
    ensures goes { OnOk result (CarriesOut (IsFile event.now) P.moves port.old port.new (written_of wire.old) (written_of wire.new) closes is_head) }
    ensures ends { IfErr result (CarriesOutLast (IsFile event.now) P.moves port.old port.new (written_of wire.old) (written_of wire.new) closes is_head) }
    ensures left { left_of wire.new ≡ left_of wire.old }
    ensures counted { Counted (faults_of wire.old) (faults_of wire.new) (IsErrOf result End.LinkFault) }
{
    let reply = port.call(alloc, event);
    if let Some(file) = opened_told(&reply) {
        return send_opened(alloc, port, wire, event, file, closes, is_head);
    }
    respond(alloc, wire, event, &reply, closes, is_head)
}
