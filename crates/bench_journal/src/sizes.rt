use crate::fault::Fault;
use std::env;

/// The commit that is measured.
#[derive(Clone, Copy)]
pub struct Sizes {
    /// How many files a commit changes.
    pub files: u32,
    /// How many bytes each of them gets.
    pub bytes: usize,
    /// Whether the times are printed, which differ from run to run.
    pub with_times: bool,
}

/// The certificate that is judged.
#[derive(Clone, Copy)]
pub struct Shape {
    /// How many items its host has.
    pub items: u32,
    /// How many tables, of 1,000 ids each.
    pub tables: u32,
    /// Whether the times are printed.
    pub with_times: bool,
}

/// What is measured.
#[derive(Clone, Copy)]
pub struct Tasks {
    pub commit: Option<Sizes>,
    pub judge: Option<Shape>,
}

/// What is measured without words.
const SMALL: Tasks = Tasks {
    commit: Some(Sizes {
        files: 5,
        bytes: 1000,
        with_times: false,
    }),
    judge: Some(Shape {
        items: 300,
        tables: 2,
        with_times: false,
    }),
};

/// What the words of the command line ask for.
pub fn read_tasks(rt: &HostRuntime) -> Result<Tasks, Fault> {
    let words: Vec<String> = env::args(rt)?.collect(rt.alloc())?;
    match words.as_slice() {
        [_] => Ok(SMALL),
        [_, files, bytes] => commit_of(files, bytes, false),
        [_, first, items, tables] if first.as_str() == "judge" => judge_of(items, tables, false),
        [_, files, bytes, last] if last.as_str() == "time" => commit_of(files, bytes, true),
        [_, first, items, tables, last] if first.as_str() == "judge" && last.as_str() == "time" => {
            judge_of(items, tables, true)
        }
        _ => Err(Fault::Words),
    }
}

fn commit_of(files: &String, bytes: &String, with_times: bool) -> Result<Tasks, Fault> {
    match (
        files.as_str().parse::<u32>(),
        bytes.as_str().parse::<usize>(),
    ) {
        (Ok(files), Ok(bytes)) => Ok(Tasks {
            commit: Some(Sizes {
                files,
                bytes,
                with_times,
            }),
            judge: None,
        }),
        _ => Err(Fault::Words),
    }
}

fn judge_of(items: &String, tables: &String, with_times: bool) -> Result<Tasks, Fault> {
    match (
        items.as_str().parse::<u32>(),
        tables.as_str().parse::<u32>(),
    ) {
        (Ok(items), Ok(tables)) => Ok(Tasks {
            commit: None,
            judge: Some(Shape {
                items,
                tables,
                with_times,
            }),
        }),
        _ => Err(Fault::Words),
    }
}
