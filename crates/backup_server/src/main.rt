//! The program: real files, streams and clock behind the traits that the layers below know.
#![tactic(auto)]

mod disk_fault;
mod fault_count;
mod folder_disk;
mod open_files;
mod pending;
mod reading;
mod serving;
mod standard_streams;
mod store_folder;
mod store_state;
mod system_clock;
mod tcp_door;
mod tcp_link;
mod told;

use crate::folder_disk::FolderDisk;
use crate::serving::{TcpWorker, explain_doors, link_to, listen_on, workers_at};
use crate::standard_streams::StandardStreams;
use crate::store_folder::lock_folder;
use crate::system_clock::SystemClock;
use admin_cli::{Done, Note, run};
use command_line::{
    CommandLine, LineFault, Parsed, Push, Work, complaint, push_complaint, read_push,
};
use pool_name::Md5Namer;
use push_work::{PushDone, push_folder};
use real_folder::{ProgressLine, RealFolder};
use std::alloc::AllocError;
use std::io::ErrorKind;
use std::process::ExitCode;
use std::sync::Wait;
use std::thread::Threads;
use std::{env, fmt, fs, io};
use stream_traits::Link;

/// The status where the settings file, the store's folder, an address, the standard streams or a folder to dump or fill can't be had.
const NOT_MADE: u8 = 8;

fn main(rt: HostRuntime) -> ExitCode {
    let status = match read_words(&rt) {
        Ok(words) => obey(&rt, &rt, words.as_slice()),
        Err(fault) => end(&rt, &note_of(fault)),
    };
    ExitCode::from(status)
}

/// The words of the command line. One that isn't UTF-8 makes it a faulty one.
fn read_words(rt: &HostRuntime) -> Result<Vec<String>, LineFault> {
    match env::args(rt) {
        Ok(words) => words.collect(rt.alloc()).map_err(|_| LineFault::Memory),
        Err(error) => match error.kind() {
            ErrorKind::OutOfMemory => Err(LineFault::Memory),
            _ => Err(LineFault::NoParse),
        },
    }
}

/// Does what the words ask, and gives the status.
fn obey<H: Threads + Wait + Sync>(rt: &HostRuntime, threads: &H, words: &[String]) -> u8 {
    match read_push(rt.alloc(), words) {
        Ok(Some(push)) => push_to(rt, push),
        Ok(None) => obey_store(rt, threads, words),
        Err(fault) => refuse(rt, fault, push_complaint(rt.alloc(), words)),
    }
}

/// Makes a folder a backup on the server at an address, and gives the status. No store is opened.
fn push_to(rt: &HostRuntime, push: Push) -> u8 {
    let Push {
        to,
        host,
        kind,
        folder,
    } = push;
    let link = match link_to(rt, to.as_str()) {
        Ok(link) => link,
        Err(error) => return not_made(rt, error, format_args!("the address {to} can't be reached")),
    };
    let mut folder = match RealFolder::open(*rt, folder.as_str()) {
        Ok(folder) => folder,
        Err(error) => return not_made(rt, error, format_args!("the folder can't be opened")),
    };
    let mut clock = SystemClock::new(*rt);
    let mut progress = ProgressLine::new(*rt);
    let PushDone { end, link: _ } = push_folder(
        rt.alloc(),
        link,
        &mut folder,
        host,
        kind,
        &mut clock,
        &mut progress,
    );
    progress.finish();
    let _ = eprintln!(rt; "{end}");
    end.status()
}

/// Does what words ask that name a store, and gives the status.
fn obey_store<H: Threads + Wait + Sync>(rt: &HostRuntime, threads: &H, words: &[String]) -> u8 {
    let parsed = Parsed::read(rt.alloc(), words);
    let line = match parsed.line() {
        Ok(line) => line,
        Err(fault) => return refuse(rt, fault, complaint(rt.alloc(), words)),
    };
    let settings = match read_settings(rt, line) {
        Ok(settings) => settings,
        Err(status) => return status,
    };
    let folder = line.store.as_str();
    match FolderDisk::open(*rt, threads, folder) {
        Ok(disk) => obey_alone(rt, threads, &parsed, settings.as_slice(), line, disk),
        Err(error) => not_made(
            rt,
            error,
            format_args!("the folder {folder} can't be made or opened"),
        ),
    }
}

/// The bytes of the settings file, none where no file is named; or the status, and why it can't be read is said.
fn read_settings(rt: &HostRuntime, line: &CommandLine) -> Result<Vec<u8>, u8> {
    let Some(file) = &line.settings else {
        return Ok(Vec::new(rt.alloc()));
    };
    match fs::read(rt, file.as_str()) {
        Ok(bytes) => Ok(bytes),
        Err(error) => Err(not_made(
            rt,
            error,
            format_args!("the settings file {file} can't be read"),
        )),
    }
}

/// Does what the words ask while no other process works on the folder, and gives the status.
fn obey_alone<H: Threads + Wait + Sync>(
    rt: &HostRuntime,
    threads: &H,
    parsed: &Parsed<'_>,
    settings: &[u8],
    line: &CommandLine,
    disk: FolderDisk<&H>,
) -> u8 {
    let folder = line.store.as_str();
    match lock_folder(rt, folder) {
        Ok(Some(lock)) => {
            let status = obey_work(rt, threads, parsed, settings, line, disk);
            drop(lock);
            status
        }
        Ok(None) => {
            let _ = eprintln!(rt; "the folder {folder} is in use");
            NOT_MADE
        }
        Err(error) => not_made(
            rt,
            error,
            format_args!("the folder {folder} can't be locked"),
        ),
    }
}

/// Does what the words ask, with workers at an address or a link to another server if they ask for one, and gives the status.
fn obey_work<H: Threads + Wait + Sync>(
    rt: &HostRuntime,
    threads: &H,
    parsed: &Parsed<'_>,
    settings: &[u8],
    line: &CommandLine,
    disk: FolderDisk<&H>,
) -> u8 {
    match &line.work {
        Work::Serve {
            listen,
            connections,
        } => serve_at(
            rt,
            threads,
            parsed,
            settings,
            line,
            disk,
            listen.as_str(),
            *connections,
        ),
        Work::Pull { host: _, from } => pull_from(
            rt,
            threads,
            parsed,
            settings,
            line,
            disk,
            from.as_str(),
        ),
        _ => over_streams(
            rt,
            threads,
            parsed,
            settings,
            line,
            disk,
            Vec::new(rt.alloc()),
        ),
    }
}

/// Does what the words ask, with workers at an address, and gives the status.
fn serve_at<H: Threads + Wait + Sync>(
    rt: &HostRuntime,
    threads: &H,
    parsed: &Parsed<'_>,
    settings: &[u8],
    line: &CommandLine,
    disk: FolderDisk<&H>,
    listen: &str,
    connections: Option<u32>,
) -> u8 {
    let listener = match listen_on(rt, listen) {
        Ok(listener) => listener,
        Err(error) => return not_made(
            rt,
            error,
            format_args!("the address {listen} can't be listened on"),
        ),
    };
    match workers_at(rt, &listener, connections) {
        Ok(workers) => over_streams(rt, threads, parsed, settings, line, disk, workers),
        Err(AllocError) => end(rt, &Note::NoMemory),
    }
}

/// Does what the words ask, over a link to the server at an address, and gives the status.
fn pull_from<H: Threads + Wait + Sync>(
    rt: &HostRuntime,
    threads: &H,
    parsed: &Parsed<'_>,
    settings: &[u8],
    line: &CommandLine,
    disk: FolderDisk<&H>,
    from: &str,
) -> u8 {
    match link_to(rt, from) {
        Ok(link) => do_asked(
            rt,
            threads,
            parsed,
            settings,
            line,
            disk,
            link,
            Vec::new(rt.alloc()),
        ),
        Err(error) => not_made(
            rt,
            error,
            format_args!("the address {from} can't be reached"),
        ),
    }
}

/// Does what the words ask, over the standard streams and these workers, and gives the status.
fn over_streams<H: Threads + Wait + Sync>(
    rt: &HostRuntime,
    threads: &H,
    parsed: &Parsed<'_>,
    settings: &[u8],
    line: &CommandLine,
    disk: FolderDisk<&H>,
    workers: Vec<TcpWorker<'_>>,
) -> u8 {
    match StandardStreams::new(rt.alloc(), rt.stdin(), rt.stdout()) {
        Ok(link) => do_asked(rt, threads, parsed, settings, line, disk, link, workers),
        Err(error) => not_made(
            rt,
            error,
            format_args!("the standard streams can't be used"),
        ),
    }
}

/// The folder that the words name, which is made for a restore if nothing is there. Of other words it is one that isn't used.
fn folder_of(rt: &HostRuntime, work: &Work) -> io::Result<RealFolder> {
    match work {
        Work::DumpFolder { folder, .. } => RealFolder::open(*rt, folder.as_str()),
        Work::RestoreFolder { folder, .. } => RealFolder::open_or_make(*rt, folder.as_str()),
        _ => Ok(RealFolder::unused(*rt)),
    }
}

/// Does what the words ask, over this link, these workers, the system's clock and the folder that they name, and gives the status. What
/// was given to a link goes out before it returns.
fn do_asked<H: Threads + Wait + Sync, L: Link + Drop>(
    rt: &HostRuntime,
    threads: &H,
    parsed: &Parsed<'_>,
    settings: &[u8],
    line: &CommandLine,
    disk: FolderDisk<&H>,
    link: L,
    workers: Vec<TcpWorker<'_>>,
) -> u8 {
    let mut folder = match folder_of(rt, &line.work) {
        Ok(folder) => folder,
        Err(error) => return not_made(rt, error, format_args!("the folder can't be opened")),
    };
    let mut clock = SystemClock::new(*rt);
    let mut progress = ProgressLine::new(*rt);
    let Done {
        note,
        disk: _,
        link: _,
        workers,
    } = run(
        threads,
        rt.alloc(),
        parsed,
        settings,
        disk,
        Md5Namer,
        &mut clock,
        link,
        workers,
        &mut folder,
        &mut progress,
    );
    if let Work::DumpFolder { .. } | Work::RestoreFolder { .. } | Work::Pull { .. } = &line.work {
        progress.finish();
    }
    let status = end(rt, &note);
    if let Note::Foreign(_) = note {
        let store = line.store.as_str();
        let _ = eprintln!(rt; "in the folder {store}");
    }
    explain_doors(rt, workers.as_slice());
    status
}

/// Says why what the program works with can't be had, and gives the status.
fn not_made(rt: &HostRuntime, error: io::Error, what: impl fmt::Display + Drop) -> u8 {
    if error.kind() == ErrorKind::OutOfMemory {
        return end(rt, &Note::NoMemory);
    }
    let _ = eprintln!(rt; "{what}: {error}");
    NOT_MADE
}

/// What is said of words that were not understood.
fn note_of(fault: LineFault) -> Note {
    match fault {
        LineFault::NoParse => Note::Usage,
        LineFault::Memory => Note::NoMemory,
    }
}

/// Says what is wrong in the words, and how the program is called; and gives the status.
fn refuse(rt: &HostRuntime, fault: LineFault, complaint: Result<String, AllocError>) -> u8 {
    let note = note_of(fault);
    if note != Note::Usage {
        return end(rt, &note);
    }
    match complaint {
        Ok(text) => {
            let _ = eprintln!(rt; "{text}");
            note.status()
        }
        Err(AllocError) => end(rt, &Note::NoMemory),
    }
}

/// Says the note on standard error, where there is one, and gives its status.
fn end(rt: &HostRuntime, note: &Note) -> u8 {
    if *note != Note::Nothing {
        let _ = eprintln!(rt; "{note}");
    }
    note.status()
}
