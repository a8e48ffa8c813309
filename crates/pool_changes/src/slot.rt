//! What is known of a name.

ghost use Rattle.std.specs.Prelude.{false, ◌≡◌, ◌+◌, ◌<◌, ◌^◌, Some};
ghost use Rattle.pool_changes.specs.Slots.{claims_of, claimed, let_go};
ghost use Rattle.pool_changes.specs.Relisted.{turned};

/// What is known of a name of the pool.
#[derive(Clone, Copy, Debug, PartialEq, Eq)]
pub enum Slot {
    /// The index lists it.
    Live { size: u64, mark: bool, claims: u64 },
    /// Its file was staged, and a claim holds it.
    Staged { size: u64, claims: u64 },
    /// Its file is to be removed.
    Doomed,
}

impl Slot {
    /// One claim more.
    pub fn claimed(self) -> Slot
        requires { claims_of (Some self) + 1 < 2 ^ 64 }
        ensures { Some result ≡ claimed (Some self) }
    {
        match self {
            Slot::Live { size, mark, claims } => Slot::Live {
                size,
                mark,
                claims: claims + 1,
            },
            Slot::Staged { size, claims } => Slot::Staged {
                size,
                claims: claims + 1,
            },
            Slot::Doomed => Slot::Doomed,
        }
    }

    /// One claim less.
    pub fn let_go(self) -> Slot
        requires { 0 < claims_of (Some self) }
        ensures { Some result ≡ let_go (Some self) }
    {
        match self {
            Slot::Live { size, mark, claims } => Slot::Live {
                size,
                mark,
                claims: claims - 1,
            },
            Slot::Staged { size, claims } => {
                if claims == 1 {
                    Slot::Doomed
                } else {
                    Slot::Staged {
                        size,
                        claims: claims - 1,
                    }
                }
            }
            Slot::Doomed => Slot::Doomed,
        }
    }

    /// A live name without a mark.
    fn unmarked(size: u64, claims: u64) -> Slot
        ensures { result ≡ Slot.Live size false claims }
    {
        Slot::Live {
            size,
            mark: false,
            claims,
        }
    }

    /// After a change of the index.
    pub(crate) fn turned(self, turn: Turn) -> Slot
        ensures { Some result ≡ turned turn (Some self) }
    {
        match (turn, self) {
            (Turn::Add, Slot::Live { size, claims, .. }) => Slot::unmarked(size, claims),
            (Turn::Add, Slot::Staged { size, claims }) => Slot::unmarked(size, claims),
            (Turn::Mark, Slot::Live { size, claims, .. }) => Slot::Live {
                size,
                mark: true,
                claims,
            },
            (Turn::Unmark, Slot::Live { size, claims, .. }) => Slot::unmarked(size, claims),
            (Turn::Remove, Slot::Live { .. }) => Slot::Doomed,
            (_, slot) => slot,
        }
    }
}

/// What a change of the index does to a name.
#[derive(Clone, Copy, Debug, PartialEq, Eq)]
pub(crate) enum Turn {
    Add,
    Mark,
    Unmark,
    Remove,
}
