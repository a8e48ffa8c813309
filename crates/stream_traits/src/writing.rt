ghost use Rattle.std.specs.Prelude.{◌≡◌, length, take, OnOk, OnErr, IsErr};
ghost use Rattle.fault_counts.specs.Counts.{Counted};
ghost use Rattle.stream_traits.specs.Told.{behind, WroteFront};

use crate::link::{Failed, Faults, Sink};

/// Writes all of `bytes`, and sends nothing. If a write fails, a prefix of them may be written.
pub fn write_all<K: Sink>(sink: &mut K, bytes: &[u8]) -> Result<(), Failed>
    ensures all { OnOk result (K.written sink.new ≡ behind (K.written sink.old) bytes.now) }
    ensures front { OnErr result (WroteFront (K.written sink.old) (K.written sink.new) bytes.now) }
    ensures sent { K.sent sink.new ≡ K.sent sink.old }
    ensures left { K.left sink.new ≡ K.left sink.old }
    ensures counted { Counted (K.faults sink.old) (K.faults sink.new) (IsErr result) }
{
    let mut done = 0;
    while done < bytes.len() {
        match sink.write(&bytes[done..]) {
            Ok(count) => done += count,
            Err(Failed) => return Err(Failed),
        }
    }
    Ok(())
}
