//! What is known of a name, in fewer bytes.

ghost use Rattle.std.specs.Prelude.{◌≡◌};

use crate::slot::Slot;
use std::marker::Model;

/// A slot in 24 bytes, where a [`Slot`] takes 32.
#[derive(Drop)]
pub(crate) struct SmallSlot {
    size: u64,
    claims: u64,
    // 0 for doomed, 1 for staged, 2 for live, 3 for live and marked
    kind: u8,
}

impl Model for SmallSlot {
    ghost use Rattle.pool_changes.specs.declared.slot.Slot.{Slot};
    ghost use Rattle.pool_changes.specs.Small.{slot_of};

    ghost Value = { Slot };

    ghost view = { λ small. slot_of small.kind small.size small.claims };
}

impl SmallSlot {
    /// The same in fewer bytes.
    pub(crate) fn of(slot: Slot) -> SmallSlot
        ensures { result ≡ slot }
    {
        match slot {
            Slot::Live { size, mark, claims } => SmallSlot {
                size,
                claims,
                kind: if mark { 3 } else { 2 },
            },
            Slot::Staged { size, claims } => SmallSlot {
                size,
                claims,
                kind: 1,
            },
            Slot::Doomed => SmallSlot {
                size: 0,
                claims: 0,
                kind: 0,
            },
        }
    }

    /// What it says.
    pub(crate) fn to_slot(&self) -> Slot
        ensures { result ≡ self.now }
    {
        let size = self.size;
        let claims = self.claims;
        match self.kind {
            0 => Slot::Doomed,
            1 => Slot::Staged { size, claims },
            kind => Slot::Live {
                size,
                mark: kind == 3,
                claims,
            },
        }
    }
}
