ghost use Rattle.std.specs.Prelude.{◌≡◌, ◌≤◌, Bool, true, false, length, take, drop, map};
ghost use Rattle.std.specs.Option.{option_copied, option_map};
ghost use Rattle.std.specs.Fn.{ComputesKey};
ghost use Rattle.std.specs.List.{list_all, list_any};
ghost use Rattle.std.specs.List.Sorted.{IsPartitionedBy};
ghost use Rattle.std.specs.FinMap.Entries.{find};
ghost use Rattle.ordered_lists.specs.Order.{IsInOrder};
ghost use Rattle.ordered_lists.specs.Search.{IsSearched};

use crate::entries::Entry;
use std::cmp::Ordering;

/// Where the entry of a key stands, or else where it would be put: by halving. `compare` tells how an entry's
/// key compares with the key that is searched for.
pub fn search<E: Entry, F: FnMut(&E) -> Ordering>(entries: &[E], compare: F) -> Result<usize, usize>
    requires callable { F.IsAlwaysCallable compare }
    requires in_order { IsInOrder E.order (map E.entry entries.now) }
    ensures { (key : E.Key) → ComputesKey F.FnMut (λ e. E.order (E.entry e).0 key) compare → IsSearched E.order (map E.entry entries.now) key result }
{
    entries.binary_search_by(compare)
}

/// The entry of a key, if there is one: by halving. `compare` tells how an entry's key compares with the key that
/// is searched for.
pub fn find<'a, E: Entry, F: FnMut(&E) -> Ordering>(entries: &'a [E], compare: F) -> Option<&'a E>
    requires callable { F.IsAlwaysCallable compare }
    requires in_order { IsInOrder E.order (map E.entry entries.now) }
    ensures { (key : E.Key) → ComputesKey F.FnMut (λ e. E.order (E.entry e).0 key) compare
        → option_map (λ e. (E.entry e).1) (option_copied result) ≡ find E.order key (map E.entry entries.now) }
{
    match entries.binary_search_by(compare) {
        Ok(index) => Some(&entries[index]),
        Err(_) => None,
    }
}

/// How many of the first items a test passes, if it passes none after one that it doesn't: by halving.
pub fn prefix_length<T, F: FnMut(&T) -> bool>(items: &[T], test: F) -> usize
    requires { F.IsAlwaysCallable test }
    ensures within { result ≤ length items.now }
    ensures parted { (p : T → Bool) → ComputesKey F.FnMut p test → IsPartitionedBy p items.now
        → (list_all p (take result items.now) ≡ true) × (list_any p (drop result items.now) ≡ false) }
{
    items.partition_point(test)
}
