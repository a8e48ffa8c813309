use crate::fault::Fault;
use std::env;

/// What of trees is measured.
#[derive(Clone, Copy)]
pub struct Sizes {
    /// How many folders the base has, with a hundred rows each.
    pub folders: u32,
    /// How many puts the dump takes.
    pub puts: u32,
}

/// What of deletions is measured.
#[derive(Clone, Copy)]
pub struct FoldSizes {
    /// How many backups there are.
    pub backups: u32,
    /// How many folders each of their tables has, with a hundred entries each.
    pub folders: u32,
}

/// What is measured, and whether the times are printed, which differ from run to run.
#[derive(Clone, Copy)]
pub struct Plan {
    pub trees: Option<Sizes>,
    pub fold: Option<FoldSizes>,
    pub with_times: bool,
}

/// What is measured without words.
const SMALL: Plan = Plan {
    trees: Some(Sizes {
        folders: 20,
        puts: 500,
    }),
    fold: Some(FoldSizes {
        backups: 5,
        folders: 2,
    }),
    with_times: false,
};

/// What the words of the command line ask for.
pub fn read_plan(rt: &HostRuntime) -> Result<Plan, Fault> {
    let words: Vec<String> = env::args(rt)?.collect(rt.alloc())?;
    match words.as_slice() {
        [_] => Ok(SMALL),
        [_, folders, puts] => trees_of(folders, puts, false),
        [_, folders, puts, last] if last.as_str() == "time" => trees_of(folders, puts, true),
        [_, first, backups, folders] if first.as_str() == "fold" => {
            fold_of(backups, folders, false)
        }
        [_, first, backups, folders, last] if first.as_str() == "fold" && last.as_str() == "time" =>
            { fold_of(backups, folders, true) }
        _ => Err(Fault::Words),
    }
}

/// A number that a word is.
fn number_of(word: &String) -> Result<u32, Fault> {
    match word.as_str().parse::<u32>() {
        Ok(number) => Ok(number),
        Err(_) => Err(Fault::Words),
    }
}

fn trees_of(folders: &String, puts: &String, with_times: bool) -> Result<Plan, Fault> {
    let trees = Sizes {
        folders: number_of(folders)?,
        puts: number_of(puts)?,
    };
    Ok(Plan {
        trees: Some(trees),
        fold: None,
        with_times,
    })
}

fn fold_of(backups: &String, folders: &String, with_times: bool) -> Result<Plan, Fault> {
    let fold = FoldSizes {
        backups: number_of(backups)?,
        folders: number_of(folders)?,
    };
    Ok(Plan {
        trees: None,
        fold: Some(fold),
        with_times,
    })
}
