//! The faults that were found so far.

ghost use Rattle.std.specs.Prelude.{ℕ, List, [], ◌∷◌, ◌++◌, if◌then◌else◌};
ghost use Rattle.certificate_judge.specs.Judging.{IsTally};

/// The first fault's offset, and how many there are.
#[derive(Clone, Copy, Drop)]
pub(crate) struct Tally {
    pub(crate) first: Option<usize>,
    pub(crate) number: u64,
}

impl Tally {
    /// No fault.
    pub(crate) fn new() -> Self
        ensures { IsTally [] result }
    {
        Tally {
            first: None,
            number: 0,
        }
    }

    /// One fault more, behind the others.
    pub(crate) fn and(self, offset: usize) -> Self
        ensures { (offsets : List ℕ) → IsTally offsets self → IsTally (offsets ++ offset ∷ []) result }
    {
        let first = match self.first {
            None => Some(offset),
            Some(first) => Some(first),
        };
        Tally {
            first,
            number: self.number.saturating_add(1),
        }
    }

    /// One fault more, if there is one.
    pub(crate) fn and_if(self, is_wrong: bool, offset: usize) -> Self
        ensures { (offsets : List ℕ) → IsTally offsets self → IsTally (if is_wrong then offsets ++ offset ∷ [] else offsets) result }
    {
        if is_wrong { self.and(offset) } else { self }
    }
}
