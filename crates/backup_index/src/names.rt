//! Lists of the names of hosts.

ghost use Rattle.std.specs.Prelude.{◌≡◌, ◌↔◌, ◌≤◌, ◌<◌, [], ◌∷◌, ◌++◌, false, true, length, IsTrue, IfOk, IfErr, OnOk, OnErr, slice_get};
ghost use Rattle.std.specs.Option.{option_copied};
ghost use Rattle.backup_index.specs.Names.{has_name, AreNames};

use crate::limits::MAX_HOSTS;
use attr_records::HostName;
use std::alloc::{AllocError, Global};
use std::error::Error;
use std::fmt;
use std::marker::Model;

/// Why a name was not put behind the others.
#[derive(Clone, Copy, Debug, PartialEq, Eq)]
pub enum NameRefusal {
    /// There are as many names as there may be.
    TooMany,
    /// The name is there already.
    Twice,
    /// There was no memory for it.
    Memory,
}

impl fmt::Display for NameRefusal {
    fn fmt<W: fmt::Write>(&self, f: &mut fmt::Formatter<W>) -> fmt::Result {
        match self {
            NameRefusal::TooMany => write!(f, "there are as many names as there may be"),
            NameRefusal::Twice => write!(f, "the name is there already"),
            NameRefusal::Memory => write!(f, "no memory for the name"),
        }
    }
}

impl Error for NameRefusal {}

impl From<AllocError> for NameRefusal {
    ghost use Rattle.std.specs.Prelude.{◌≡◌};
    ghost use Rattle.backup_index.specs.declared.names.NameRefusal.TheVariants.{Memory};

    ghost from_gives = { λ _ refusal. refusal ≡ Memory };

    fn from(_fault: AllocError) -> NameRefusal {
        NameRefusal::Memory
    }
}

/// The names of at most 1,024 hosts, no two of which are one, in the order in which they were added.
#[derive(Debug, Drop)]
pub struct NameList {
    names: Vec<HostName>,
}

impl Model for NameList {
    ghost use Rattle.std.specs.Prelude.{List, ℕ};
    ghost use Rattle.backup_index.specs.Names.{AreNames};

    ghost Value = { List (List ℕ) };

    ghost view = { λ list. list.names.items };

    ghost invariant = { λ list. AreNames list.names.items };
}

impl NameList {
    /// No names; takes no memory.
    pub fn new(alloc: Global) -> NameList
        ensures { result ≡ [] }
    {
        NameList {
            names: Vec::new(alloc),
        }
    }

    /// The names, in order.
    pub fn names(&self) -> &[HostName]
        ensures names { result.now ≡ self.now }
        ensures are { AreNames self.now }
    {
        self.names.as_slice()
    }

    pub fn len(&self) -> usize
        ensures value { result ≡ length self.now }
        ensures few { result ≤ 1024 }
    {
        self.names.len()
    }

    pub fn is_empty(&self) -> bool
        ensures { IsTrue result ↔ (self.now ≡ []) }
    {
        self.names.is_empty()
    }

    /// The name of the host of this number, counted from 0.
    pub fn get(&self, number: usize) -> Option<&HostName>
        ensures { option_copied result ≡ slice_get self.now number }
    {
        self.names.as_slice().get(number)
    }

    /// Whether a name is in the list.
    pub fn contains(&self, name: &HostName) -> bool
        ensures { result ≡ has_name self.now name.now }
    {
        self.names.as_slice().contains(name)
    }

    /// Puts a name behind the others, which don't have it and leave room for it; refused for want of memory.
    pub fn add(&mut self, name: HostName) -> Result<(), AllocError>
        requires room { length self.old < 1024 }
        requires fresh { has_name self.old name ≡ false }
        ensures ok { OnOk result (self.new ≡ self.old ++ name ∷ []) }
        ensures err { OnErr result (self.new ≡ self.old) }
    {
        self.names.reserve(1)?;
        match self.names.push(name) {
            Ok(()) => Ok(()),
            Err(_) => unreachable!(),
        }
    }

    /// Puts a name behind the others; refused where there is no room for one more, where the name is there already
    /// (in this order), or for want of memory.
    pub fn push(&mut self, name: HostName) -> Result<(), NameRefusal>
        ensures ok { OnOk result (self.new ≡ self.old ++ name ∷ []) }
        ensures room { OnOk result (length self.old < 1024) }
        ensures fresh { OnOk result (has_name self.old name ≡ false) }
        ensures err { OnErr result (self.new ≡ self.old) }
        ensures too_many { IfErr result (λ why. why ≡ NameRefusal.TooMany → length self.old ≡ 1024) }
        ensures twice { IfErr result (λ why. why ≡ NameRefusal.Twice → has_name self.old name ≡ true) }
        ensures order { IfErr result (λ why. why ≡ NameRefusal.Twice → length self.old < 1024) }
    {
        if self.len() == MAX_HOSTS {
            return Err(NameRefusal::TooMany);
        }
        if self.contains(&name) {
            return Err(NameRefusal::Twice);
        }
        self.add(name)?;
        Ok(())
    }

    /// An equal list, or want of memory.
    pub fn copy(&self, alloc: Global) -> Result<NameList, AllocError>
        ensures { IfOk result (λ copy. copy ≡ self.now) }
    {
        let mut names = Vec::new(alloc);
        for name in self.names.as_slice() {
            names.push(name.copy(alloc)?)?;
        }
        Ok(NameList { names })
    }
}
