ghost use Rattle.std.specs.Prelude.{◌≡◌};
ghost use Rattle.std.specs.declared.cmp.Ordering.{Ordering};
ghost use Rattle.std.specs.Cmp.{IsTotalOrder};

use std::cmp::Ordering;

/// An entry of a list in the order of its keys: contracts see it as a key and what is held under it.
pub trait Entry {
    ghost Key: { Type 0 };

    ghost Held: { Type 0 };

    ghost entry: { Self → Key × Held };

    ghost order: { Key → Key → Ordering };

    /// Which of two entries has the key that comes first.
    fn compare(&self, other: &Self) -> Ordering
        ensures { result ≡ order (entry self.now).0 (entry other.now).0 };

    ghost total: { IsTotalOrder order };
}
