//! Words of a push as they are typed, which no clause names: clap's answers to them are from outside.
use command_line::{LineFault, USAGE, parse, push_complaint, read_push};
use std::alloc::{AllocError, Global};

/// Words of a push, and what they say.
static PUSHED: [(&str, &str); 5] = [
    (
        "b push-folder --to 127.0.0.1:8080 --host pc1 --kind full F",
        "Push { to: \"127.0.0.1:8080\", host: HostName { bytes: [112, 99, 49] }, kind: Full, folder: \"F\" }",
    ),
    (
        "b push-folder F --kind=incr --host=a --to=A",
        "Push { to: \"A\", host: HostName { bytes: [97] }, kind: Incr, folder: \"F\" }",
    ),
    (
        "b push-folder --to A --host a --kind full -- -F",
        "Push { to: \"A\", host: HostName { bytes: [97] }, kind: Full, folder: \"-F\" }",
    ),
    (
        "b push-folder --host a --kind full --to= F",
        "Push { to: \"\", host: HostName { bytes: [97] }, kind: Full, folder: \"F\" }",
    ),
    (
        "elsewhere/b push-folder --host a --kind incr F --to push-folder",
        "Push { to: \"push-folder\", host: HostName { bytes: [97] }, kind: Incr, folder: \"F\" }",
    ),
];

static NOT_PUSHED: [&str; 12] = [
    "b push-folder",
    "b push-folder --help",
    "b push-folder --host a --kind full F",
    "b push-folder --to A --kind full F",
    "b push-folder --to A --host a F",
    "b push-folder --to A --host a --kind full",
    "b push-folder --to A --host A --kind full F",
    "b push-folder --to A --host a --kind half F",
    "b push-folder --to A --to B --host a --kind full F",
    "b push-folder --to A --host a --kind full F G",
    "b push-folder --to A --host a --kind full --store S F",
    "b push-folder --to A --host a --kind full --settings G F",
];

fn words_of(alloc: Global, line: &str) -> Result<Vec<String>, AllocError> {
    let mut words = Vec::new(alloc);
    for word in line.split(' ') {
        words.push(String::from_str(alloc, word)?)?;
    }
    Ok(words)
}

#[test]
fn reads_pushes(rt: HostRuntime) -> Result<(), LineFault> {
    for (line, wanted) in &PUSHED {
        let words = words_of(rt.alloc(), line)?;
        let push = read_push(rt.alloc(), words.as_slice())?;
        let says = match push {
            Some(push) => format!(in rt.alloc(); "{push:?}")?,
            None => String::new(rt.alloc()),
        };
        assert_eq!(rt; says.as_str(), *wanted, "{line}");
    }
    for line in [
        "b",
        "b pipe --store push-folder",
        "push-folder",
        "b pull push-folder",
    ] {
        let words = words_of(rt.alloc(), line)?;
        let push = read_push(rt.alloc(), words.as_slice())?;
        assert_eq!(rt; push, None, "{line}");
    }
    Ok(())
}

#[test]
fn refuses_pushes(rt: HostRuntime) -> Result<(), LineFault> {
    for line in &NOT_PUSHED {
        let words = words_of(rt.alloc(), line)?;
        let fault = read_push(rt.alloc(), words.as_slice()).err();
        assert_eq!(rt; fault, Some(LineFault::NoParse), "{line}");
        let said = push_complaint(rt.alloc(), words.as_slice())?;
        assert!(rt; said.as_str().ends_with(USAGE), "{line}");
    }
    let words = words_of(rt.alloc(), "b push-folder --to A --host a --kind full F")?;
    let fault = parse(rt.alloc(), words.as_slice()).err();
    assert_eq!(rt; fault, Some(LineFault::NoParse), "a push is no other line");
    Ok(())
}
