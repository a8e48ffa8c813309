ghost use Rattle.std.specs.Prelude.{◌≡◌, ℕ, ◌<◌, ◌≤◌, List, [], ◌∷◌, Option};
ghost use Rattle.fault_counts.specs.Counts.{Counted};
ghost use Rattle.caller_doors.specs.Answers.{IfLink, OnNoLink, OnClosed, IsFailed};
ghost use Rattle.caller_doors.specs.Links.{ahead_of, with_last, IsEmptied};

use crate::came::Came;
use stream_traits::Link;

/// Where links come from, one after the other; it may go into a thread, and so may each link.
pub trait Door: Send {
    type Link: Link + Send;

    // The links to come, where they are told.
    ghost coming: { Self → Option (List Self.Link) };

    // The links that were given back, where they are told.
    ghost given_back: { Self → Option (List Self.Link) };

    // A link that is out may be given back.
    ghost takes_back: { Self → Type 0 };

    // At most so many links come. A server takes links until there are no more, and it is proved to end, so each door has such a
    // number: one that is not meant to close counts down from the largest number, which no run uses up.
    ghost most: { Self → ℕ };

    // The count of the calls that failed.
    ghost faults: { Self → ℕ };

    /// Takes the next link, for which it may wait. The door is closed exactly where no link is left; it then stays so.
    fn next(&mut self) -> Came<Self::Link>
        ensures link { IfLink result (λ link. coming self.old ≡ ahead_of (link ∷ []) (coming self.new)) }
        ensures none { OnNoLink result (coming self.new ≡ coming self.old) }
        ensures closed { OnClosed result (IsEmptied (coming self.old)) }
        ensures given_back { given_back self.new ≡ given_back self.old }
        ensures takes_back { IfLink result (λ link. takes_back self.new) }
        ensures fewer { IfLink result (λ link. most self.new < most self.old) }
        ensures no_more { most self.new ≤ most self.old }
        ensures counted { Counted (faults self.old) (faults self.new) (IsFailed result) };

    /// Gives back a link that was served. A real door closes it.
    fn done(&mut self, link: Self::Link)
        requires { takes_back self.old }
        ensures given_back { given_back self.new ≡ with_last (given_back self.old) (link ∷ []) }
        ensures coming { coming self.new ≡ coming self.old }
        ensures no_more { most self.new ≤ most self.old }
        ensures faults { faults self.new ≡ faults self.old };

    /// How many calls failed. The count never falls, and stands still at the largest number.
    fn faults(&self) -> u64
        ensures { result ≡ faults self.now };
}
