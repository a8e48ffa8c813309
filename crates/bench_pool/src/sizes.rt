use crate::fault::Fault;
use std::env;

/// What is done.
#[derive(Clone, Copy, PartialEq, Eq)]
pub enum Mode {
    /// The counts are printed alone.
    Counts,
    /// The times are printed, too, which differ from run to run.
    Times,
    /// The files are made, and no pool: for the memory that they take.
    Files,
    /// The same, and a pool is opened over them.
    Names,
}

/// What is measured.
#[derive(Clone, Copy)]
pub struct Sizes {
    /// How many contents the pool has.
    pub contents: u64,
    /// How many of them are looked up.
    pub lookups: u64,
    pub mode: Mode,
}

/// What is measured without words.
const SMALL: Sizes = Sizes {
    contents: 1000,
    lookups: 500,
    mode: Mode::Counts,
};

/// The sizes that the words of the command line ask for.
pub fn read_sizes(rt: &HostRuntime) -> Result<Sizes, Fault> {
    let words: Vec<String> = env::args(rt)?.collect(rt.alloc())?;
    match words.as_slice() {
        [_] => Ok(SMALL),
        [_, contents, lookups] => sizes_of(contents, lookups, Mode::Counts),
        [_, contents, lookups, last] => sizes_of(contents, lookups, mode_of(last)?),
        _ => Err(Fault::Words),
    }
}

fn mode_of(word: &String) -> Result<Mode, Fault> {
    match word.as_str() {
        "time" => Ok(Mode::Times),
        "files" => Ok(Mode::Files),
        "names" => Ok(Mode::Names),
        _ => Err(Fault::Words),
    }
}

fn sizes_of(contents: &String, lookups: &String, mode: Mode) -> Result<Sizes, Fault> {
    match (
        contents.as_str().parse::<u64>(),
        lookups.as_str().parse::<u64>(),
    ) {
        (Ok(contents), Ok(lookups)) => Ok(Sizes {
            contents,
            lookups,
            mode,
        }),
        _ => Err(Fault::Words),
    }
}
