use crate::fault::Fault;
use std::env;

/// What is measured.
#[derive(Clone, Copy)]
pub struct Sizes {
    /// How many requests without a body, how many with a small body, and how many responses.
    pub count: u32,
    /// The bytes of the large body.
    pub body: u32,
    /// Whether the times are printed, which differ from run to run.
    pub with_times: bool,
}

/// What is measured without words.
const SMALL: Sizes = Sizes {
    count: 300,
    body: 200_000,
    with_times: false,
};

/// The sizes that the words of the command line ask for.
pub fn read_sizes(rt: &HostRuntime) -> Result<Sizes, Fault> {
    let words: Vec<String> = env::args(rt)?.collect(rt.alloc())?;
    match words.as_slice() {
        [_] => Ok(SMALL),
        [_, count, body] => sizes_of(count, body, false),
        [_, count, body, last] if last.as_str() == "time" => sizes_of(count, body, true),
        _ => Err(Fault::Words),
    }
}

fn sizes_of(count: &String, body: &String, with_times: bool) -> Result<Sizes, Fault> {
    match (count.as_str().parse::<u32>(), body.as_str().parse::<u32>()) {
        (Ok(count), Ok(body)) => Ok(Sizes {
            count,
            body,
            with_times,
        }),
        _ => Err(Fault::Words),
    }
}
