//! The bytes of bodies. They come through what is read ahead, so no room is filled before it is read into.

ghost use Rattle.std.specs.Prelude.{◌≡◌, ◌+◌, ◌^◌, ◌<◌, ◌≤◌, length, vec_len, IfOk, IfErr, OnOk, OnErr, IsErrOf};
ghost use Rattle.fault_counts.specs.Counts.{Counted};
ghost use Rattle.stream_traits.specs.Told.{IsEnd};
ghost use Rattle.http_wire.specs.Bodies.{AddsBytes, TookFewer};
ghost use Rattle.http_wire.specs.Wires.{ahead_of, left_of, written_of, faults_of};

use crate::wire::{Wire, WireFault};
use std::alloc::Global;
use stream_traits::{Faults, Link, ReadFault};

/// Takes exactly `count` bytes of what is left, and puts them behind those that are there. If there are fewer, or the link
/// fails, or there is no memory, fewer are taken, and what stands behind is not said.
pub fn add_bytes<L: Link>(
    alloc: Global,
    wire: &mut Wire<L>,
    bytes: &mut Vec<u8>,
    count: usize,
) -> Result<(), ReadFault>
    requires { vec_len bytes.old + count < 2 ^ 64 }
    ensures ok { OnOk result (AddsBytes bytes.old.items bytes.new.items (left_of wire.old) (left_of wire.new) count) }
    ensures fewer { OnErr result (TookFewer (left_of wire.old) (left_of wire.new) count) }
    ensures ended { IfErr result (λ fault. fault ≡ ReadFault.Ended → IsEnd (left_of wire.new)) }
    ensures written { written_of wire.new ≡ written_of wire.old }
    ensures counted { Counted (faults_of wire.old) (faults_of wire.new) (IsErrOf result ReadFault.Failed) }
{
    let mut missing = count;
    while missing > 0 {
        match add_some(alloc, wire, bytes, missing) {
            Ok(added) => missing -= added,
            Err(fault) => return Err(fault),
        }
    }
    Ok(())
}

/// Takes some bytes of what is left, at most so many, puts them behind those that are there, and says how many.
fn add_some<L: Link>(
    alloc: Global,
    wire: &mut Wire<L>,
    bytes: &mut Vec<u8>,
    most: usize,
) -> Result<usize, ReadFault>
    requires { 0 < most }
    ensures added { IfOk result (AddsBytes bytes.old.items bytes.new.items (left_of wire.old) (left_of wire.new)) }
    ensures some { IfOk result (λ count. 0 < count) }
    ensures fits { IfOk result (λ count. count ≤ most) }
    ensures err { OnErr result (left_of wire.new ≡ left_of wire.old) }
    ensures ended { IfErr result (λ fault. fault ≡ ReadFault.Ended → IsEnd (left_of wire.new)) }
    ensures written { written_of wire.new ≡ written_of wire.old }
    ensures counted { Counted (faults_of wire.old) (faults_of wire.new) (IsErrOf result ReadFault.Failed) }
{
    match have_ahead(alloc, wire) {
        Ok(()) => {}
        Err(fault) => return Err(fault),
    }
    match wire.take_into(bytes, most) {
        Ok(count) => Ok(count),
        Err(_) => Err(ReadFault::Memory),
    }
}

/// Reads ahead, if nothing was read ahead.
fn have_ahead<L: Link>(alloc: Global, wire: &mut Wire<L>) -> Result<(), ReadFault>
    ensures some { OnOk result (0 < length (ahead_of wire.new)) }
    ensures left { left_of wire.new ≡ left_of wire.old }
    ensures ended { IfErr result (λ fault. fault ≡ ReadFault.Ended → IsEnd (left_of wire.new)) }
    ensures written { written_of wire.new ≡ written_of wire.old }
    ensures counted { Counted (faults_of wire.old) (faults_of wire.new) (IsErrOf result ReadFault.Failed) }
{
    if !wire.ahead().is_empty() {
        return Ok(());
    }
    match wire.fill(alloc) {
        Ok(0) => Err(ReadFault::Ended),
        Ok(_) => Ok(()),
        Err(WireFault::LinkFault) => Err(ReadFault::Failed),
        Err(WireFault::Memory) => Err(ReadFault::Memory),
    }
}
