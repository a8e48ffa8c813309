//! Lines as they are typed, which no clause names: clap's answers to them are from outside.
use command_line::{LineFault, USAGE, complaint, parse};
use std::alloc::{AllocError, Global};

/// Some words, and what they say: the work, the store and the settings.
struct Taken {
    words: &'static str,
    says: &'static str,
}

static TAKEN: [Taken; 34] = [
    Taken {
        words: "b pipe --store S",
        says: "Pipe S None",
    },
    Taken {
        words: "elsewhere/b pipe --store S",
        says: "Pipe S None",
    },
    Taken {
        words: "b pipe --store=S",
        says: "Pipe S None",
    },
    Taken {
        words: "b pipe --store=",
        says: "Pipe  None",
    },
    Taken {
        words: "b pipe --store -",
        says: "Pipe - None",
    },
    Taken {
        words: "b pipe --store pipe",
        says: "Pipe pipe None",
    },
    Taken {
        words: "b pipe --store S --settings F",
        says: "Pipe S Some(\"F\")",
    },
    Taken {
        words: "b pipe --settings F --store S",
        says: "Pipe S Some(\"F\")",
    },
    Taken {
        words: "b pipe --settings=F --store=S",
        says: "Pipe S Some(\"F\")",
    },
    Taken {
        words: "b serve --store S --listen A",
        says: "Serve { listen: \"A\", connections: None } S None",
    },
    Taken {
        words: "b serve --listen=127.0.0.1:8080 --settings F --connections 4 --store S",
        says: "Serve { listen: \"127.0.0.1:8080\", connections: Some(4) } S Some(\"F\")",
    },
    Taken {
        words: "b serve --store S --listen A --connections 0",
        says: "Serve { listen: \"A\", connections: Some(0) } S None",
    },
    Taken {
        words: "b serve --store S --listen A --connections 4294967295",
        says: "Serve { listen: \"A\", connections: Some(4294967295) } S None",
    },
    Taken {
        words: "b serve --store S --listen A --connections +4",
        says: "Serve { listen: \"A\", connections: Some(4) } S None",
    },
    Taken {
        words: "b serve --store S --listen A --connections 004",
        says: "Serve { listen: \"A\", connections: Some(4) } S None",
    },
    Taken {
        words: "b night --store S",
        says: "Night { scheduled: false } S None",
    },
    Taken {
        words: "b night --store S --scheduled",
        says: "Night { scheduled: true } S None",
    },
    Taken {
        words: "b night --scheduled --settings F --store S",
        says: "Night { scheduled: true } S Some(\"F\")",
    },
    Taken {
        words: "b night --settings F --scheduled --store S",
        says: "Night { scheduled: true } S Some(\"F\")",
    },
    Taken {
        words: "b night --store S --settings F",
        says: "Night { scheduled: false } S Some(\"F\")",
    },
    Taken {
        words: "b migrate --store S",
        says: "Migrate S None",
    },
    Taken {
        words: "b migrate --settings F --store S",
        says: "Migrate S Some(\"F\")",
    },
    Taken {
        words: "b dump-folder --store S --host pc1 --kind full F",
        says: "DumpFolder { host: HostName { bytes: [112, 99, 49] }, kind: Full, folder: \"F\" } S None",
    },
    Taken {
        words: "b dump-folder F --kind=incr --host=a --settings G --store=S",
        says: "DumpFolder { host: HostName { bytes: [97] }, kind: Incr, folder: \"F\" } S Some(\"G\")",
    },
    Taken {
        words: "b dump-folder --store S --host 9 --kind full -- -F",
        says: "DumpFolder { host: HostName { bytes: [57] }, kind: Full, folder: \"-F\" } S None",
    },
    Taken {
        words: "b dump-folder --store S --host a dump-folder --kind incr",
        says: "DumpFolder { host: HostName { bytes: [97] }, kind: Incr, folder: \"dump-folder\" } S None",
    },
    Taken {
        words: "b restore-folder --store S --host pc1 --number 0 F",
        says: "RestoreFolder { host: HostName { bytes: [112, 99, 49] }, number: 0, folder: \"F\" } S None",
    },
    Taken {
        words: "b restore-folder --number=4294967295 F --settings G --host a --store S",
        says: "RestoreFolder { host: HostName { bytes: [97] }, number: 4294967295, folder: \"F\" } S Some(\"G\")",
    },
    Taken {
        words: "b restore-folder --store S --host a --number +7 F",
        says: "RestoreFolder { host: HostName { bytes: [97] }, number: 7, folder: \"F\" } S None",
    },
    Taken {
        words: "b demo --store S 1",
        says: "Demo { number: 1 } S None",
    },
    Taken {
        words: "b demo 18446744073709551615 --settings F --store S",
        says: "Demo { number: 18446744073709551615 } S Some(\"F\")",
    },
    Taken {
        words: "b demo --store S +07",
        says: "Demo { number: 7 } S None",
    },
    Taken {
        words: "b pull --store S --host pc1 --from 127.0.0.1:8080",
        says: "Pull { host: HostName { bytes: [112, 99, 49] }, from: \"127.0.0.1:8080\" } S None",
    },
    Taken {
        words: "b pull --from=A --settings G --host=a --store=S",
        says: "Pull { host: HostName { bytes: [97] }, from: \"A\" } S Some(\"G\")",
    },
];

static REFUSED: [&str; 93] = [
    "b",
    "b frob",
    "b frob --store S",
    "b PIPE --store S",
    "b pip --store S",
    "b help",
    "b help pipe",
    "b --help",
    "b -h",
    "b pipe --help",
    "b pipe",
    "b night",
    "b night --scheduled",
    "b pipe S",
    "b pipe --store",
    "b pipe --settings F",
    "b pipe --store S --settings",
    "b pipe --store --settings F",
    "b night --store --scheduled",
    "b pipe --store S --store T",
    "b pipe --store S --store S",
    "b pipe --store S --settings F --settings G",
    "b night --store S --scheduled --scheduled",
    "b night --store S --scheduled=true",
    "b pipe --store S --scheduled",
    "b pipe --store S --verbose",
    "b pipe --store S extra",
    "b pipe --store S T",
    "b pipe --store -S",
    "b pipe --sto S",
    "b pipe -store S",
    "b --store S pipe",
    "b pipe night --store S",
    "b migrate",
    "b migrate --store S x",
    "b migrate --store S --host a",
    "b serve --store S",
    "b serve --listen A",
    "b serve --store S --listen",
    "b serve --store S --listen A --listen B",
    "b serve --store S --listen A --connections",
    "b serve --store S --listen A --connections 4 --connections 4",
    "b serve --store S --listen A --connections 4294967296",
    "b serve --store S --listen A --connections -5",
    "b serve --store S --listen A --connections=",
    "b serve --store S --listen A --connections 4x",
    "b pipe --store S --listen A",
    "b dump-folder",
    "b dump_folder --store S --host a --kind full F",
    "b dump-folder --host a --kind full F",
    "b dump-folder --store S --kind full F",
    "b dump-folder --store S --host --kind full F",
    "b dump-folder --store S --host A --kind full F",
    "b dump-folder --store S --host= --kind full F",
    "b dump-folder --store S --host .a --kind full F",
    "b dump-folder --store S --host a/b --kind full F",
    "b dump-folder --store S --host a --host a --kind full F",
    "b dump-folder --store S --host a F",
    "b dump-folder --store S --host a --kind F",
    "b dump-folder --store S --host a --kind Full F",
    "b dump-folder --store S --host a --kind= F",
    "b dump-folder --store S --host a --kind increment F",
    "b dump-folder --store S --host a --kind full",
    "b dump-folder --store S --host a --kind full F G",
    "b dump-folder --store S --host a --kind full -F",
    "b dump-folder --store S --host a --kind full --folder F",
    "b dump-folder --store S --host a --kind full --number 1 F",
    "b restore-folder --store S --number 1 F",
    "b restore-folder --store S --host a..b/ --number 1 F",
    "b restore-folder --store S --host a F",
    "b restore-folder --store S --host a --number F",
    "b restore-folder --store S --host a --number 4294967296 F",
    "b restore-folder --store S --host a --number -1 F",
    "b restore-folder --store S --host a --number 1 --number 1 F",
    "b restore-folder --store S --host a --number 1",
    "b restore-folder --store S --host a --number 1 F G",
    "b restore-folder --store S --host a --number 1 --kind full F",
    "b demo",
    "b demo 1",
    "b demo --store S",
    "b demo --store S 1 2",
    "b demo --store S 18446744073709551616",
    "b demo --store S -1",
    "b demo --store S x",
    "b demo --store S --number 1",
    "b pull",
    "b pull --host a --from A",
    "b pull --store S --from A",
    "b pull --store S --host a",
    "b pull --store S --host A --from A",
    "b pull --store S --host a --from",
    "b pull --store S --host a --from A --from A",
    "b pull --store S --host a --from A B",
];

fn words_of(alloc: Global, line: &str) -> Result<Vec<String>, AllocError> {
    let mut words = Vec::new(alloc);
    for word in line.split(' ') {
        words.push(String::from_str(alloc, word)?)?;
    }
    Ok(words)
}

#[test]
fn reads_lines(rt: HostRuntime) -> Result<(), LineFault> {
    for taken in &TAKEN {
        let words = words_of(rt.alloc(), taken.words)?;
        let line = parse(rt.alloc(), words.as_slice())?;
        let says = format!(in rt.alloc(); "{:?} {} {:?}", line.work, line.store, line.settings)?;
        assert_eq!(rt; says.as_str(), taken.says, "{}", taken.words);
    }
    Ok(())
}

#[test]
fn refuses_lines(rt: HostRuntime) -> Result<(), LineFault> {
    for line in &REFUSED {
        let words = words_of(rt.alloc(), line)?;
        let fault = parse(rt.alloc(), words.as_slice()).err();
        assert_eq!(rt; fault, Some(LineFault::NoParse), "{line}");
    }
    let fault = parse(rt.alloc(), &[]).err();
    assert_eq!(rt; fault, Some(LineFault::NoParse), "no words at all");
    Ok(())
}

#[test]
fn says_what_is_wrong(rt: HostRuntime) -> Result<(), AllocError> {
    let rows = [
        (
            "b frob",
            "error: unrecognized subcommand 'frob'\n\nUsage: b <COMMAND>\n",
        ),
        (
            "b pipe",
            "error: the following required arguments were not provided:\n  --store <store>\n\nUsage: b pipe --store <store>\n",
        ),
        (
            "b night --store S x",
            "error: unexpected argument 'x' found\n\nUsage: b night [OPTIONS] --store <store>\n",
        ),
        (
            "b dump-folder --store S --host a --kind full",
            "error: the following required arguments were not provided:\n  <folder>\n\nUsage: b dump-folder --store <store> --host <host> --kind <kind> <folder>\n",
        ),
        (
            "b restore-folder --store S --host a --number 4294967296 F",
            "error: invalid value '4294967296' for '--number <number>': 4294967296 is not in 0..=4294967295\n",
        ),
        (
            "b demo --store S 18446744073709551616",
            "error: invalid value '18446744073709551616' for '<number>': number too large to fit in target type\n",
        ),
        (
            "b pull --store S --host a",
            "error: the following required arguments were not provided:\n  --from <from>\n\nUsage: b pull --store <store> --host <host> --from <from>\n",
        ),
        ("b dump-folder --store S --host A --kind full F", ""),
        ("b pipe --store S", ""),
    ];
    for (line, message) in rows {
        let words = words_of(rt.alloc(), line)?;
        let said = complaint(rt.alloc(), words.as_slice())?;
        let wanted = format!(in rt.alloc(); "{message}{USAGE}")?;
        assert_eq!(rt; said.as_str(), wanted.as_str(), "{line}");
    }
    Ok(())
}

#[test]
fn faults_have_texts(rt: HostRuntime) -> Result<(), AllocError> {
    let no_line = format!(in rt.alloc(); "{}", LineFault::NoParse)?;
    assert_eq!(rt; no_line.as_str(), USAGE);
    let memory = format!(in rt.alloc(); "{}", LineFault::from(AllocError))?;
    assert_eq!(rt; memory.as_str(), "no memory");
    Ok(())
}
