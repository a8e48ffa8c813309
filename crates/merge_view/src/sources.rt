ghost use Rattle.std.specs.Prelude.{◌≡◌, IfOk};
ghost use Rattle.std.specs.Option.{option_copied};
ghost use Rattle.merge_view.specs.Views.{stacked};
ghost use Rattle.merge_view.specs.Tables.{fronted};
ghost use Rattle.merge_view.specs.Sources.{first_of, rows_of, rows_ahead};

use attr_tables::Row;
use std::alloc::{AllocError, Global};
use std::boxed::Box;
use std::cmp::Ordering;

/// Rows in the order of their paths, of one table or of several that are laid over each other.
#[cycle(source)]
#[derive(Drop)]
pub enum Source<'a> {
    One(&'a [Row]),
    Two(Box<Pair<'a>>),
}

/// A source and the row before it, which was taken of it ahead. Without this row nothing is left.
#[cycle(source)]
#[derive(Drop)]
pub struct Ahead<'a> {
    pub head: Option<&'a Row>,
    pub rest: Source<'a>,
}

/// Two sources, of which the older lies over the newer.
#[cycle(source)]
#[derive(Drop)]
pub struct Pair<'a> {
    pub older: Ahead<'a>,
    pub newer: Ahead<'a>,
}

/// Which of two rows comes first; no row is after each.
fn first_of(older: Option<&Row>, newer: Option<&Row>) -> Ordering
    ensures { result ≡ first_of (option_copied older.entry) (option_copied newer.entry) }
{
    match older {
        None => match newer {
            None => Ordering::Less,
            Some(_) => Ordering::Greater,
        },
        Some(upper) => match newer {
            None => Ordering::Less,
            Some(lower) => upper.path().cmp(lower.path()),
        },
    }
}

impl<'a> Ahead<'a> {
    fn new(source: Source<'a>) -> Ahead<'a>
        ensures { rows_ahead result ≡ rows_of source.entry }
    {
        let mut rest = source;
        let head = rest.next();
        Ahead { head, rest }
    }

    /// The first row, if there is one, in the place of which the next one is taken ahead.
    #[cycle(turn)]
    fn next(&mut self) -> Option<&'a Row>
        ensures { fronted (option_copied result) (rows_ahead self.new) ≡ rows_ahead self.old }
    {
        match self.head {
            None => None,
            Some(row) => {
                self.head = self.rest.next();
                Some(row)
            }
        }
    }
}

impl<'a> Source<'a> {
    /// The first row, if there is one. If both of two sources have a path, it is the older's, and both go on.
    #[cycle(turn)]
    pub fn next(&mut self) -> Option<&'a Row>
        ensures { fronted (option_copied result) (rows_of self.new) ≡ rows_of self.old }
    {
        match self {
            Source::One(rows) => match rows.split_first() {
                None => None,
                Some((row, rest)) => {
                    *rows = rest;
                    Some(row)
                }
            },
            Source::Two(pair) => match first_of(pair.older.head, pair.newer.head) {
                Ordering::Less => pair.older.next(),
                Ordering::Greater => pair.newer.next(),
                Ordering::Equal => {
                    let taken = pair.older.next();
                    let _ = pair.newer.next();
                    taken
                }
            },
        }
    }
}

/// An older source laid over a newer one, or want of memory.
pub fn laid_over<'a>(
    alloc: Global,
    older: Source<'a>,
    newer: Source<'a>,
) -> Result<Source<'a>, AllocError>
    ensures { IfOk result (λ source. rows_of source ≡ stacked (rows_of older.entry) (rows_of newer.entry)) }
{
    let pair = Pair {
        older: Ahead::new(older),
        newer: Ahead::new(newer),
    };
    Ok(Source::Two(Box::new(alloc, pair)?))
}
