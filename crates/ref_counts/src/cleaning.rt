//! The rule of cleaning for one content.

ghost use Rattle.std.specs.Prelude.{◌≡◌};
ghost use Rattle.ref_counts.specs.Cleaning.{next_mark};

/// The mark of a pooled content after a cleaning, None if it leaves the pool. A protected content loses its mark;
/// another one gains it, and leaves if it has it already.
pub fn next_mark(protected: bool, marked: bool) -> Option<bool>
    ensures { result ≡ next_mark protected marked }
{
    match (protected, marked) {
        (true, _) => Some(false),
        (false, false) => Some(true),
        (false, true) => None,
    }
}
