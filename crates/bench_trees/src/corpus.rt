//! What is measured: folders of files, at paths of 34 to 60 bytes.

ghost use Rattle.std.specs.Prelude.{◌≡◌, false};
ghost use Rattle.attr_tables.specs.Records.{IsSound};
ghost use Rattle.merge_view.specs.Views.{is_mark};

use crate::fault::Fault;
use attr_records::{Attr, Dir, PathName};
use attr_tables::{Record, StoredFile};
use disk_trait::PoolId;
use std::alloc::Global;

/// The files of a folder, which is a row itself.
pub const FILES: u32 = 99;

const TAILS: [&str; 8] = [
    "",
    ".txt",
    "-letter.txt",
    "-letter-to-nobody.txt",
    ".tar.gz",
    "-budget.ods",
    "-picture.jpeg",
    "-notes-of-march.md",
];

/// The path of a folder.
pub fn folder_path(alloc: Global, folder: u32) -> Result<PathName, Fault> {
    let text = format!(in alloc; "folder-of-letters-and-notes-{folder:06}")?;
    Ok(PathName::read(alloc, text.as_bytes())?)
}

/// The path of a file of a folder. The base has those below `FILES`.
pub fn file_path(alloc: Global, folder: u32, file: u32) -> Result<PathName, Fault> {
    let tail = TAILS[file as usize % 8];
    let text = format!(in alloc; "folder-of-letters-and-notes-{folder:06}/n{file:03}{tail}")?;
    Ok(PathName::read(alloc, text.as_bytes())?)
}

/// A file of some bytes. Files of two numbers differ.
pub fn file_record(number: u32) -> Record
    ensures sound { IsSound result }
    ensures no_mark { is_mark result ≡ false }
{
    let [a, b, c, d] = number.to_be_bytes();
    Record::File(StoredFile {
        attr: Attr::file_default(),
        group: 0,
        size: u64::from(number) + 1,
        content: Some(PoolId {
            digest: [a, b, c, d, d, c, b, a, a, b, c, d, d, c, b, a],
            extension: 0,
        }),
    })
}

/// A folder.
pub fn dir_record() -> Record
    ensures sound { IsSound result }
    ensures no_mark { is_mark result ≡ false }
{
    let attr = Attr::dir_default();
    Record::Dir(Dir { attr })
}

/// Numbers that look random, the same in each run.
#[derive(Drop)]
pub struct Numbers {
    state: u64,
}

impl Numbers {
    pub fn new() -> Numbers {
        Numbers { state: 1 }
    }

    /// The next number below a bound, or 0 if the bound is 0.
    pub fn below(&mut self, bound: u32) -> u32 {
        self.state = self
            .state
            .wrapping_mul(6364136223846793005)
            .wrapping_add(1442695040888963407);
        let high = u32::try_from(self.state >> 33).unwrap_or(0);
        high.checked_rem(bound).unwrap_or(0)
    }
}
