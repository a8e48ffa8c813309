//! The images of a disk in memory, one after the other.

ghost use Rattle.std.specs.Prelude.{◌≡◌, ◌↔◌, Ok, None, IfOk, IfSome, OnErr};
ghost use Rattle.disk_trait.specs.ScriptImages.{IsFirst, IsPastLast, IsNext, HasStepped};

use crate::image::Choice;
use crate::memory::MemoryDisk;
use std::alloc::{AllocError, Global};

/// An image of a disk: the disk that a crash at the moment left, its uncertain files being as chosen.
pub struct ScriptImage {
    pub moment: usize,
    pub choice: Choice,
    pub disk: MemoryDisk,
}

/// Written out: what is in it is then dropped here, for the prover too, and not in each crate above.
impl Drop for ScriptImage {
    fn drop(self) {
        let ScriptImage {
            moment: _,
            choice: _,
            disk: _,
        } = self;
    }
}

/// All images of a disk, each made when it is asked for: those of moment 0, one for each choice in the order of the
/// choices, then those of the next moment, and so on to the disk's last moment.
#[derive(Drop)]
pub struct ScriptImages<'a> {
    disk: &'a MemoryDisk,
    choices: &'a [Choice],
    moment: usize,
    place: usize,
}

impl MemoryDisk {
    /// All images of the disk with these choices, the first of them that of moment 0 with the first choice.
    pub fn script_images<'a>(&'a self, choices: &'a [Choice]) -> ScriptImages<'a>
        ensures { IsFirst self.now choices.now result }
    {
        ScriptImages {
            disk: self,
            choices,
            moment: 0,
            place: 0,
        }
    }
}

impl<'a> ScriptImages<'a> {
    /// The next image; `None` behind the last one. Without memory the same image is next again.
    pub fn next(&mut self, alloc: Global) -> Result<Option<ScriptImage>, AllocError>
        ensures ended { result ≡ Ok None ↔ IsPastLast self.old }
        ensures image { IfOk result (λ found. IfSome found (IsNext self.old)) }
        ensures stepped { IfOk result (λ found. IfSome found (λ _. HasStepped self.old self.new)) }
        ensures stays { OnErr result (self.new ≡ self.old) }
    {
        if self.moment > self.disk.moment() {
            return Ok(None);
        }
        let choice = match self.choices.get(self.place) {
            Some(choice) => *choice,
            None => return Ok(None),
        };
        let image = ScriptImage {
            moment: self.moment,
            choice,
            disk: self.disk.image(alloc, self.moment, choice)?,
        };
        self.place += 1;
        if self.place == self.choices.len() {
            self.place = 0;
            self.moment += 1;
        }
        Ok(Some(image))
    }
}
