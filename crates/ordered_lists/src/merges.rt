ghost use Rattle.std.specs.Prelude.{◌≡◌, ◌++◌, [], ◌∷◌, Option, Some, None, map, IfOk, OnOk};
ghost use Rattle.std.specs.Option.{option_copied, option_map, option_to_list};
ghost use Rattle.std.specs.declared.cmp.Ordering.{Ordering};
ghost use Rattle.ordered_lists.specs.Merge.{entry_at, merge};

use std::alloc::{AllocError, Global};
use std::cmp::Ordering;

/// A rule of a merge: which entry it makes of what two lists have at a key.
pub trait Rule {
    type Entry: Drop;

    ghost Key: { Type 0 };

    ghost Held: { Type 0 };

    ghost entry: { Self.Entry → Key × Held };

    ghost order: { Key → Key → Ordering };

    ghost gives: { Option Held → Option Held → Option Held };

    /// Which of two entries has the key that comes first.
    fn compare<'a>(left: &'a Self::Entry, right: &'a Self::Entry) -> Ordering
        ensures { result ≡ order (entry left.now).0 (entry right.now).0 };

    /// The entry of a key, if there is one, or want of memory. If both lists have the key, both entries are given.
    fn make<'a>(
        alloc: Global,
        left: Option<&'a Self::Entry>,
        right: Option<&'a Self::Entry>,
    ) -> Result<Option<Self::Entry>, AllocError>
        ensures { IfOk result (λ made. option_map entry made
            ≡ entry_at gives (option_map entry (option_copied left.entry)) (option_map entry (option_copied right.entry))) };
}

/// Appends an entry, if there is one.
fn push_made<E: Drop>(entries: &mut Vec<E>, made: Option<E>) -> Result<(), AllocError>
    ensures { OnOk result (entries.new.items ≡ entries.old.items ++ option_to_list made) }
{
    match made {
        None => Ok(()),
        Some(entry) => Ok(entries.push(entry)?),
    }
}

/// The entries that a rule makes of two lists in the order of their keys, or want of memory: one pass over both.
pub fn merge<'a, C: Rule>(
    alloc: Global,
    left: &'a [C::Entry],
    right: &'a [C::Entry],
) -> Result<Vec<C::Entry>, AllocError>
    ensures { IfOk result (λ entries. map C.entry entries.items ≡ merge C.order C.gives (map C.entry left.now) (map C.entry right.now)) }
{
    let mut entries = Vec::new(alloc);
    let mut i = 0;
    let mut j = 0;
    'both: while i < left.len() && j < right.len() {
        let a = &left[i];
        let b = &right[j];
        match C::compare(a, b) {
            Ordering::Less => {
                push_made(&mut entries, C::make(alloc, Some(a), None)?)?;
                i += 1;
            }
            Ordering::Equal => {
                push_made(&mut entries, C::make(alloc, Some(a), Some(b))?)?;
                i += 1;
                j += 1;
            }
            Ordering::Greater => {
                push_made(&mut entries, C::make(alloc, None, Some(b))?)?;
                j += 1;
            }
        }
    }
    'left: while i < left.len() {
        push_made(&mut entries, C::make(alloc, Some(&left[i]), None)?)?;
        i += 1;
    }
    'right: while j < right.len() {
        push_made(&mut entries, C::make(alloc, None, Some(&right[j]))?)?;
        j += 1;
    }
    Ok(entries)
}
