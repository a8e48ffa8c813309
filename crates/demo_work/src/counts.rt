//! What the answers told.

ghost use Rattle.std.specs.Prelude.{◌≡◌, ◌+◌, ◌++◌, length, count_by, OnOk, IfOk};
ghost use Rattle.md5.specs.Md5.{Holds};
ghost use Rattle.restore_stream.specs.Layouts.{frame_bytes};
ghost use Rattle.demo_work.specs.Asks.{lines_in};
ghost use Rattle.demo_work.specs.Told.{Told, nothing_told, stats_after, stream_in, told_with, summary_of};
ghost use Rattle.demo_work.specs.Steps.{Keeps};

use crate::ends::Summary;
use crate::follow_ups::lines_in;
use backup_rules::Line;
use disk_trait::Bytes;
use md5::{Digest, Md5};
use office_model::{Answer, Frame, OfficeStats};
use restore_stream::MAX_PIECE_BYTES;
use std::alloc::{AllocError, Global};

/// What was told so far.
#[derive(Drop)]
pub(crate) struct Tally {
    pub backups: u64,
    pub filled: u64,
    pub stats: OfficeStats,
    pub digest: Md5,
}

/// How many of these backups are filled.
fn filled_in(lines: &[Line]) -> usize
    ensures { result ≡ count_by (λ line. line.filled) lines.now }
{
    lines.iter().filter(|line| line.filled).count()
}

/// A sum that is below 2^64; else there is no memory for what is counted.
fn sum(a: u64, b: usize) -> Result<u64, AllocError>
    ensures { IfOk result (λ sum. sum ≡ a + b) }
{
    match a.checked_add(b as u64) {
        Some(sum) => Ok(sum),
        None => Err(AllocError),
    }
}

/// The bytes of a frame in a stream. A piece of no bytes or of more than 65,536, which no stream has, has none.
fn frame_bytes(alloc: Global, frame: &Frame) -> Result<Bytes, AllocError>
    ensures { IfOk result (λ bytes. bytes ≡ frame_bytes frame.now) }
{
    if let Frame::Piece(bytes) = frame {
        if bytes.len() == 0 || bytes.len() > MAX_PIECE_BYTES {
            return Err(AllocError);
        }
    }
    restore_stream::frame_bytes(alloc, frame)
}

/// What an answer gives of a stream; one begins with its magic.
fn stream_in(alloc: Global, answer: &Answer) -> Result<Bytes, AllocError>
    ensures { IfOk result (λ bytes. bytes ≡ stream_in answer.now) }
{
    match answer {
        Answer::Restore(_) => Bytes::from_slice(alloc, b"RST2"),
        Answer::Next(frame) => frame_bytes(alloc, frame),
        _ => Ok(Bytes::new(alloc)),
    }
}

/// The office's numbers that an answer told, or else those before.
fn stats_after(stats: OfficeStats, answer: &Answer) -> OfficeStats
    ensures { result ≡ stats_after stats answer.now }
{
    match answer {
        Answer::Stats(told) => *told,
        _ => stats,
    }
}

impl Tally {
    /// Nothing was told.
    pub fn new() -> Tally
        ensures { Keeps nothing_told result }
    {
        Tally {
            backups: 0,
            filled: 0,
            stats: OfficeStats {
                hosts: 0,
                backups: 0,
                dumps: 0,
                restores: 0,
                files: 0,
                marked: 0,
                bytes: 0,
            },
            digest: Md5::new(),
        }
    }

    /// Adds what an answer tells; without memory it is not known what was added.
    pub fn add(&mut self, alloc: Global, answer: &Answer) -> Result<(), AllocError>
        ensures { OnOk result ((told : Told) → Keeps told self.old → Keeps (told_with told answer.now) self.new) }
    {
        let lines = lines_in(answer);
        let stream = stream_in(alloc, answer)?;
        self.backups = sum(self.backups, lines.len())?;
        self.filled = sum(self.filled, filled_in(lines))?;
        self.stats = stats_after(self.stats, answer);
        self.digest.update(stream.as_slice());
        Ok(())
    }

    /// The summary of a number's demo.
    pub fn summary(self, number: u64) -> Summary
        ensures { (told : Told) → Keeps told self → result ≡ summary_of number told }
    {
        Summary {
            number,
            backups: self.backups,
            filled: self.filled,
            files: self.stats.files,
            bytes: self.stats.bytes,
            marked: self.stats.marked,
            check: self.digest.finalize(),
        }
    }
}
