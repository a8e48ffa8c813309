//! Talks with the program over `pipe`, for tests: what is asked, line by line, and what is to be answered; scripts of such steps, each
//! at its moment; the disk that a run leaves, and images of it. It knows `run` and the disk in memory, and no store.
//!
//! A call: `expect_talk(&rt, blank_disk(alloc, &[])?, Md5Namer, NOW, &[HOST])?` adds a host and gives the disk back.
#![tactic(auto)]

pub mod scripts;
pub mod talks;

pub use admin_cli::Note;
