ghost use Rattle.std.specs.Prelude.{◌≡◌, Option};
ghost use Rattle.std.specs.Option.{option_copied};
ghost use Rattle.attr_tables.specs.declared.records.Record.{Record};
ghost use Rattle.merge_view.specs.Views.{laid, difference, upper, needed};
ghost use Rattle.merge_view.specs.Chosen.{chosen};

use attr_tables::Record;

/// What a merge has at a path.
#[derive(Clone, Copy)]
pub enum Choice {
    Nothing,
    /// What the left rows have there.
    Left,
    /// What the right rows have there.
    Right,
    /// A deletion mark.
    Mark,
}

/// A rule of a merge of rows: what it has at a path, of what the left and the right rows have there.
pub trait PathRule {
    ghost gives: { Option Record → Option Record → Option Record };

    fn choose(left: Option<&Record>, right: Option<&Record>) -> Choice
        ensures { chosen result (option_copied left.entry) (option_copied right.entry) ≡ gives (option_copied left.entry) (option_copied right.entry) };
}

/// Entries over a tree.
pub struct Laid;

impl PathRule for Laid {
    ghost gives = { laid };

    fn choose(left: Option<&Record>, _right: Option<&Record>) -> Choice {
        match left {
            None => Choice::Right,
            Some(entry) => {
                if entry.is_mark() {
                    Choice::Nothing
                } else {
                    Choice::Left
                }
            }
        }
    }
}

/// What an older tree has where a newer one has something else.
pub struct Difference;

impl PathRule for Difference {
    ghost gives = { difference };

    fn choose(left: Option<&Record>, right: Option<&Record>) -> Choice {
        match left {
            None => match right {
                None => Choice::Nothing,
                Some(_) => Choice::Mark,
            },
            Some(older) => match right {
                None => Choice::Left,
                Some(newer) => {
                    if older.is_same(newer) {
                        Choice::Nothing
                    } else {
                        Choice::Left
                    }
                }
            },
        }
    }
}

/// Entries over other entries.
pub struct Upper;

impl PathRule for Upper {
    ghost gives = { upper };

    fn choose(left: Option<&Record>, _right: Option<&Record>) -> Choice {
        match left {
            None => Choice::Right,
            Some(_) => Choice::Left,
        }
    }
}

/// Entries that change a tree.
pub struct Needed;

impl PathRule for Needed {
    ghost gives = { needed };

    fn choose(left: Option<&Record>, right: Option<&Record>) -> Choice {
        match left {
            None => Choice::Nothing,
            Some(entry) => match right {
                None => {
                    if entry.is_mark() {
                        Choice::Nothing
                    } else {
                        Choice::Left
                    }
                }
                Some(base) => {
                    if entry.is_mark() {
                        Choice::Left
                    } else if entry.is_same(base) {
                        Choice::Nothing
                    } else {
                        Choice::Left
                    }
                }
            },
        }
    }
}
