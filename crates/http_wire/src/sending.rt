ghost use Rattle.std.specs.Prelude.{◌≡◌, ◌++◌, OnOk, OnErr, IsErr};
ghost use Rattle.fault_counts.specs.Counts.{Counted};
ghost use Rattle.stream_traits.specs.Told.{behind, WroteFront};
ghost use Rattle.http_wire.specs.Message.{bytes_head, response_bytes, no_memory_response};
ghost use Rattle.http_wire.specs.Response.{message_of, HasShortHead};
ghost use Rattle.http_wire.specs.Wires.{left_of, written_of, sent_of, faults_of};

use crate::response::{NO_MEMORY, Response, bytes_head_text, head_text, sent_body};
use crate::wire::Wire;
use std::alloc::AllocError;
use stream_traits::{Failed, Faults, Link};

/// Writes a response: head and body in one piece, if the body has at most 65,536 bytes and there is memory for a copy, else one after
/// the other. It is sent before more is read from the link, or by `send`. If the link fails, a prefix of the response may be written.
pub fn write_response<L: Link>(wire: &mut Wire<L>, response: &Response) -> Result<(), Failed>
    requires { HasShortHead response.now }
    ensures all { OnOk result (written_of wire.new ≡ behind (written_of wire.old) (response_bytes (message_of response.now))) }
    ensures front { OnErr result (WroteFront (written_of wire.old) (written_of wire.new) (response_bytes (message_of response.now))) }
    ensures sent { sent_of wire.new ≡ sent_of wire.old }
    ensures left { left_of wire.new ≡ left_of wire.old }
    ensures counted { Counted (faults_of wire.old) (faults_of wire.new) (IsErr result) }
{
    match write_both(wire, head_text(response).as_slice(), sent_body(response)) {
        Ok(()) => Ok(()),
        Err(Failed) => Err(Failed),
    }
}

/// Writes the head of a response of so many bytes, which are to follow in parts. It takes no memory.
pub fn write_bytes_head<L: Link>(wire: &mut Wire<L>, size: u64, closes: bool) -> Result<(), Failed>
    ensures all { OnOk result (written_of wire.new ≡ behind (written_of wire.old) (bytes_head size closes)) }
    ensures front { OnErr result (WroteFront (written_of wire.old) (written_of wire.new) (bytes_head size closes)) }
    ensures sent { sent_of wire.new ≡ sent_of wire.old }
    ensures left { left_of wire.new ≡ left_of wire.old }
    ensures counted { Counted (faults_of wire.old) (faults_of wire.new) (IsErr result) }
{
    match wire.write(bytes_head_text(size, closes).as_slice()) {
        Ok(()) => Ok(()),
        Err(Failed) => Err(Failed),
    }
}

/// Says that there is no memory, which takes none.
pub fn write_no_memory<L: Link>(wire: &mut Wire<L>) -> Result<(), Failed>
    ensures all { OnOk result (written_of wire.new ≡ behind (written_of wire.old) no_memory_response) }
    ensures front { OnErr result (WroteFront (written_of wire.old) (written_of wire.new) no_memory_response) }
    ensures sent { sent_of wire.new ≡ sent_of wire.old }
    ensures left { left_of wire.new ≡ left_of wire.old }
    ensures counted { Counted (faults_of wire.old) (faults_of wire.new) (IsErr result) }
{
    match wire.write(NO_MEMORY) {
        Ok(()) => Ok(()),
        Err(Failed) => Err(Failed),
    }
}

/// Writes two runs of bytes, one after the other: in one piece, if the second has at most 65,536 bytes and there is memory for both. If
/// the link fails, a prefix of them may be written.
pub fn write_both<L: Link>(wire: &mut Wire<L>, head: &[u8], body: &[u8]) -> Result<(), Failed>
    ensures all { OnOk result (written_of wire.new ≡ behind (written_of wire.old) (head.now ++ body.now)) }
    ensures front { OnErr result (WroteFront (written_of wire.old) (written_of wire.new) (head.now ++ body.now)) }
    ensures sent { sent_of wire.new ≡ sent_of wire.old }
    ensures left { left_of wire.new ≡ left_of wire.old }
    ensures counted { Counted (faults_of wire.old) (faults_of wire.new) (IsErr result) }
{
    match wire.join(head, body) {
        Ok(()) => wire.write_joined(),
        Err(AllocError) => write_apart(wire, head, body),
    }
}

/// Writes two runs of bytes in two pieces.
fn write_apart<L: Link>(wire: &mut Wire<L>, head: &[u8], body: &[u8]) -> Result<(), Failed>
    ensures all { OnOk result (written_of wire.new ≡ behind (written_of wire.old) (head.now ++ body.now)) }
    ensures front { OnErr result (WroteFront (written_of wire.old) (written_of wire.new) (head.now ++ body.now)) }
    ensures sent { sent_of wire.new ≡ sent_of wire.old }
    ensures left { left_of wire.new ≡ left_of wire.old }
    ensures counted { Counted (faults_of wire.old) (faults_of wire.new) (IsErr result) }
{
    match wire.write(head) {
        Ok(()) => {}
        Err(Failed) => return Err(Failed),
    }
    match wire.write(body) {
        Ok(()) => Ok(()),
        Err(Failed) => Err(Failed),
    }
}
