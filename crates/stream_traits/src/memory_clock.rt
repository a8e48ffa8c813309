ghost use Rattle.std.specs.Prelude.{◌≡◌, ◌<◌, Some, [], ◌∷◌, vec_len};

use crate::clock::{Clock, Moment};

/// A clock that gives the moments of a list in turn, and the last one again and again.
#[derive(Debug, Drop)]
pub struct ListClock {
    moments: Vec<Moment>,
    next: usize,
    ghost has_next: { next < vec_len moments },
}

impl ListClock {
    /// A clock that gives these moments, at least one.
    pub fn new(moments: Vec<Moment>) -> ListClock
        requires { 0 < vec_len moments }
        ensures { ⟦<ListClock as Clock>⟧.moments result ≡ Some moments.items }
    {
        ListClock { moments, next: 0 }
    }
}

impl Clock for ListClock {
    ghost use Rattle.stream_traits.specs.Clocks.{moments_left};

    ghost moments = { λ clock. Some (moments_left clock) };

    fn now(&mut self) -> Moment {
        let moment = self.moments[self.next];
        if self.next + 1 < self.moments.len() {
            self.next += 1;
        }
        moment
    }
}

/// A clock that stands still.
#[derive(Clone, Copy, Debug)]
pub struct FixedClock {
    moment: Moment,
}

impl FixedClock {
    /// A clock that always gives this moment.
    pub fn new(moment: Moment) -> FixedClock
        ensures { ⟦<FixedClock as Clock>⟧.moments result ≡ Some (moment ∷ []) }
    {
        FixedClock { moment }
    }
}

impl Clock for FixedClock {
    ghost use Rattle.stream_traits.specs.Clocks.{one_moment};

    ghost moments = { λ clock. Some (one_moment clock) };

    fn now(&mut self) -> Moment {
        self.moment
    }
}
