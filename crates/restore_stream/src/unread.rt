//! Bytes in memory, as a source.

ghost use Rattle.std.specs.Prelude.{◌≡◌, ◌↔◌, Some, [], IsTrue};
ghost use Rattle.restore_stream.specs.Reading.{IfTold};

use stream_traits::{Failed, Faults, Source};

/// The bytes that are left to be read.
#[derive(Drop)]
pub struct Unread<'a> {
    bytes: &'a [u8],
}

impl<'a> Unread<'a> {
    pub fn new(bytes: &'a [u8]) -> Unread<'a>
        ensures left { ⟦<Unread<'a> as Faults>⟧.left result ≡ Some bytes.now }
        ensures sent { ⟦<Unread<'a> as Faults>⟧.sent result ≡ ⟦<Unread<'a> as Faults>⟧.written result }
    {
        Unread { bytes }
    }

    /// Whether none is left.
    pub fn is_empty(&self) -> bool
        ensures { IfTold (⟦<Unread<'a> as Faults>⟧.left self.now) (λ left. IsTrue result ↔ (left ≡ [])) }
    {
        self.bytes.is_empty()
    }
}

impl<'a> Faults for Unread<'a> {
    ghost use Rattle.std.specs.Prelude.{Some, []};

    ghost left = { λ source. Some source.bytes.now };

    ghost written = { λ source. Some [] };

    ghost sent = { λ source. Some [] };

    ghost faults = { λ source. 0 };

    fn faults(&self) -> u64 {
        0
    }
}

impl<'a> Source for Unread<'a> {
    fn read(&mut self, room: &mut [u8]) -> Result<usize, Failed> {
        let count = room.len().min(self.bytes.len());
        let (front, behind) = self.bytes.split_at(count);
        room[..count].copy_from_slice(front);
        self.bytes = behind;
        Ok(count)
    }
}
