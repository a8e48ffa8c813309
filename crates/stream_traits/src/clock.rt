ghost use Rattle.std.specs.Prelude.{◌≡◌, ℕ, ◌^◌, ◌<◌, ◌↔◌, List, Option, IsSome, IfSome};
ghost use Rattle.std.specs.Option.{ForSome};
ghost use Rattle.stream_traits.specs.Moments.{first_moment, after_reading};

use std::marker::Model;

/// A number of seconds since 1970, below 2^37.
#[derive(Clone, Copy, Debug, PartialEq, Eq, PartialOrd, Ord)]
pub struct Moment {
    seconds: u64,
}

impl Model for Moment {
    ghost Value = { ℕ };

    ghost view = { λ moment. moment.seconds };

    ghost invariant = { λ moment. moment.seconds < 2 ^ 37 };

    ghost inverse = { λ seconds. record { seconds = seconds } };
}

/// The number of seconds at which a moment would be too late.
const TOO_LATE: u64 = 1 << 37;

impl Moment {
    /// The moment at this number of seconds, where it is below 2^37.
    pub fn new(seconds: u64) -> Option<Moment>
        ensures found { IsSome result ↔ (seconds < 2 ^ 37) }
        ensures value { IfSome result (λ moment. moment ≡ seconds) }
    {
        if seconds < TOO_LATE {
            Some(Moment { seconds })
        } else {
            None
        }
    }

    /// The beginning of 1970.
    pub fn first() -> Moment
        ensures { result ≡ 0 }
    {
        Moment { seconds: 0 }
    }

    pub fn seconds(self) -> u64
        ensures value { result ≡ self }
        ensures below { result < 2 ^ 37 }
    {
        self.seconds
    }
}

/// A clock, which may go into a thread. Reading it can't fail.
pub trait Clock: Send {
    // The moments to come, where they are told.
    ghost moments: { Self → Option (List ℕ) };

    /// Takes the first of the moments that the clock has to give, where it tells them. The last one stays.
    fn now(&mut self) -> Moment
        ensures first { ForSome (moments self.old) (λ told. result ≡ first_moment told) }
        ensures later { moments self.new ≡ after_reading (moments self.old) };
}
