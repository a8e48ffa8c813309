//! The changes of a commit.

ghost use Rattle.std.specs.Prelude.{◌≡◌, ◌++◌, [], ◌∷◌, ℕ, take, IfOk, OnOk, OnErr};
ghost use Rattle.intent_journal.specs.Changes.{names};

use disk_trait::{Bytes, FileId};
use std::alloc::{AllocError, Global};
use std::marker::Model;

/// A file, and the bytes that it gets; `None` takes it away.
#[derive(Debug)]
pub struct Change {
    pub file: FileId,
    pub bytes: Option<Bytes>,
}

/// Written out: what is in it is then dropped here, for the prover too, and not in each crate above.
impl Drop for Change {
    fn drop(self) {
        let Change { file: _, bytes: _ } = self;
    }
}

impl Change {
    /// A copy of the change.
    fn copy(&self, alloc: Global) -> Result<Change, AllocError>
        ensures { IfOk result (λ copy. copy ≡ self.now) }
    {
        let file = self.file;
        match &self.bytes {
            None => Ok(Change { file, bytes: None }),
            Some(bytes) => {
                let bytes = bytes.copy(alloc)?;
                Ok(Change {
                    file,
                    bytes: Some(bytes),
                })
            }
        }
    }
}

/// Whether one of the changes names the file.
fn is_named(changes: &[Change], file: FileId) -> bool
    ensures { result ≡ names changes.now file }
{
    for change in changes {
        if file.is_same(change.file) {
            return true;
        }
    }
    false
}

/// A list of changes, which are made one after the other. A commit takes those that name metadata files, no file twice
/// (`AreChanges` of `specs/`); a change of a file that the list doesn't name yet may be pushed (`are_more`).
#[derive(Debug, Drop)]
pub struct Changes {
    inner: Vec<Change>,
}

impl Model for Changes {
    ghost use Rattle.std.specs.Prelude.{List};
    ghost use Rattle.intent_journal.specs.declared.changes.Change.{Change};

    ghost Value = { List Change };

    ghost view = { λ changes. changes.inner.items };
}

impl Changes {
    /// No changes; takes no memory.
    pub fn new(alloc: Global) -> Changes
        ensures { result ≡ [] }
    {
        Changes {
            inner: Vec::new(alloc),
        }
    }

    /// The changes of a vector, which takes no memory.
    pub fn from_vec(changes: Vec<Change>) -> Changes
        ensures { result ≡ changes.items }
    {
        Changes { inner: changes }
    }

    pub fn as_slice(&self) -> &[Change]
        ensures { result.now ≡ self.now }
    {
        self.inner.as_slice()
    }

    /// Whether one of the changes is of the file.
    pub fn names_file(&self, file: FileId) -> bool
        ensures { result ≡ names self.now file }
    {
        is_named(self.inner.as_slice(), file)
    }

    /// Puts a change at the end. Without memory the list stays as it was.
    pub fn push(&mut self, change: Change) -> Result<(), AllocError>
        ensures ok { OnOk result (self.new ≡ self.old ++ change ∷ []) }
        ensures err { OnErr result (self.new ≡ self.old) }
    {
        self.inner.push(change)?;
        Ok(())
    }

    /// Puts copies of changes at the end. Without memory some of them may stand there, the first ones, in order.
    pub fn push_copies(&mut self, alloc: Global, others: &[Change]) -> Result<(), AllocError>
        ensures ok { OnOk result (self.new ≡ self.old ++ others.now) }
        ensures err { OnErr result ((count : ℕ) × (self.new ≡ self.old ++ take count others.now)) }
    {
        for change in others {
            let copy = change.copy(alloc)?;
            self.push(copy)?;
        }
        Ok(())
    }
}
