//! Hosts in the order of their names.

ghost use Rattle.std.specs.Prelude.{◌≡◌, map, None};
ghost use Rattle.std.specs.Option.{option_copied, option_map};
ghost use Rattle.std.specs.FinMap.Entries.{find};
ghost use Rattle.ordered_lists.specs.Order.{IsInOrder};
ghost use Rattle.ordered_lists.specs.Search.{IsAbsent};
ghost use Rattle.office_catalog.specs.Named.{name_cmp, entry_of};

use attr_records::HostName;
use ordered_lists::Entry;
use std::cmp::Ordering;

/// The name of a host, and its number.
#[derive(Debug)]
pub(crate) struct NamedHost {
    pub(crate) name: HostName,
    pub(crate) number: u32,
}

/// Written out: what is in it is then dropped here, for the prover too, and not in each crate above.
impl Drop for NamedHost {
    fn drop(self) {
        let NamedHost { name: _, number: _ } = self;
    }
}

impl Entry for NamedHost {
    ghost use Rattle.std.specs.Prelude.{List, ℕ};
    ghost use Rattle.std.specs.Cmp.Lexicographic.{slice_cmp, nat_list_cmp_total};
    ghost use Rattle.std.specs.Ordering.{nat_cmp};

    ghost Key = { List ℕ };

    ghost Held = { ℕ };

    ghost entry = { λ named. (named.name, named.number) };

    ghost order = { slice_cmp nat_cmp };

    ghost total = { nat_list_cmp_total };

    fn compare(&self, other: &NamedHost) -> Ordering {
        self.name.as_slice().cmp(other.name.as_slice())
    }
}

/// The host of a name, by halving.
pub(crate) fn find<'a>(named: &'a [NamedHost], name: &HostName) -> Option<&'a NamedHost>
    requires { IsInOrder name_cmp (map entry_of named.now) }
    ensures { option_map (λ host. host.number) (option_copied result) ≡ find name_cmp name.now (map entry_of named.now) }
{
    ordered_lists::find(named, |host: &NamedHost| {
        host.name.as_slice().cmp(name.as_slice())
    })
}

/// Where a host of this name, which none has, is to be put, by halving.
pub(crate) fn place_of(named: &[NamedHost], name: &HostName) -> usize
    requires in_order { IsInOrder name_cmp (map entry_of named.now) }
    requires fresh { find name_cmp name.now (map entry_of named.now) ≡ None }
    ensures { IsAbsent name_cmp (map entry_of named.now) name.now result }
{
    match ordered_lists::search(named, |host: &NamedHost| {
        host.name.as_slice().cmp(name.as_slice())
    }) {
        Ok(_) => unreachable!(),
        Err(place) => place,
    }
}
