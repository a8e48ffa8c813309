ghost use Rattle.std.specs.Prelude.{◌≡◌, List, Option, Some, None, is_some, cond, map, IfOk};
ghost use Rattle.std.specs.Option.{option_map, option_copied};

use ordered_lists::{Entry, Rule, find, merge, prefix_length, search};
use std::alloc::{AllocError, Global};
use std::cmp::Ordering;
use std::test::Fail;

#[derive(Clone, Copy, Debug, PartialEq)]
struct Tally {
    name: u32,
    count: u32,
}

impl Entry for Tally {
    ghost use Rattle.std.specs.Prelude.{ℕ};
    ghost use Rattle.std.specs.Ordering.{nat_cmp};
    ghost use Rattle.std.specs.Cmp.{nat_cmp_total};

    ghost Key = { ℕ };

    ghost Held = { ℕ };

    ghost entry = { λ tally. (tally.name, tally.count) };

    ghost order = { nat_cmp };

    ghost total = { nat_cmp_total };

    fn compare(&self, other: &Tally) -> Ordering {
        self.name.cmp(&other.name)
    }
}

// The left list's entry of a key, else the right one's.
struct Over;

impl Rule for Over {
    ghost use Rattle.std.specs.Prelude.{ℕ, is_some, cond};
    ghost use Rattle.std.specs.Ordering.{nat_cmp};

    type Entry = Tally;

    ghost Key = { ℕ };

    ghost Held = { ℕ };

    ghost entry = { λ tally. (tally.name, tally.count) };

    ghost order = { nat_cmp };

    ghost gives = { λ left right. cond (is_some left) left right };

    fn compare<'a>(left: &'a Tally, right: &'a Tally) -> Ordering {
        left.name.cmp(&right.name)
    }

    fn make<'a>(
        _alloc: Global,
        left: Option<&'a Tally>,
        right: Option<&'a Tally>,
    ) -> Result<Option<Tally>, AllocError> {
        match left {
            Some(tally) => Ok(Some(*tally)),
            None => match right {
                Some(tally) => Ok(Some(*tally)),
                None => Ok(None),
            },
        }
    }
}

const LEFT: [Tally; 3] = [
    Tally { name: 1, count: 5 },
    Tally { name: 3, count: 6 },
    Tally { name: 7, count: 7 },
];

const RIGHT: [Tally; 2] = [Tally { name: 3, count: 1 }, Tally { name: 4, count: 2 }];

#[test]
fn two_lists_are_merged_and_searched(rt: HostRuntime) -> Result<(), Fail> {
    let tallies = merge::<Over>(rt.alloc(), &LEFT, &RIGHT)?;
    let wanted = [LEFT[0], LEFT[1], RIGHT[1], LEFT[2]];
    assert_eq!(rt; tallies.as_slice(), &wanted[..]);
    assert_eq!(rt; LEFT[0].compare(&LEFT[1]), Ordering::Less);
    assert_eq!(rt; prefix_length(&LEFT, |tally| tally.name < 4), 2);
    for name in [0u32, 1, 2, 3, 5, 7, 9] {
        let held = match name {
            1 => Some(5),
            3 => Some(6),
            7 => Some(7),
            _ => None,
        };
        let found = find(&LEFT, |tally| tally.name.cmp(&name));
        assert_eq!(rt; found.map(|tally| tally.count), held);
        assert_eq!(rt;
            search(&LEFT, |tally| tally.name.cmp(&name)).is_ok(),
            held.is_some()
        );
    }
    Ok(())
}
