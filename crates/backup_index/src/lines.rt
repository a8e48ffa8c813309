//! The lines of a host's backups, and the rules that they keep.

ghost use Rattle.std.specs.Prelude.{◌≡◌, ◌↔◌, [], ◌∷◌, ◌++◌, ◌<◌, length, slice_set, IsTrue, IfOk, OnOk, OnErr};

use backup_rules::Line;
use std::alloc::{AllocError, Global};
use std::error::Error;
use std::fmt;
use std::marker::Model;

/// Why lines make no index of a host.
#[derive(Clone, Copy, Debug, PartialEq, Eq)]
pub enum IndexRule {
    /// The next number is above 2^32.
    NextTooLarge,
    /// The number of a line isn't above that of the line before it.
    NotRising,
    /// The number of a line isn't below the next one.
    NotBelowNext,
    /// The last line isn't filled.
    LastNotFilled,
}

impl fmt::Display for IndexRule {
    fn fmt<W: fmt::Write>(&self, f: &mut fmt::Formatter<W>) -> fmt::Result {
        match self {
            IndexRule::NextTooLarge => write!(f, "the next number is above 2^32"),
            IndexRule::NotRising => write!(f, "the numbers of the lines don't rise"),
            IndexRule::NotBelowNext => write!(f, "a number isn't below the next one"),
            IndexRule::LastNotFilled => write!(f, "the last line isn't filled"),
        }
    }
}

impl Error for IndexRule {}

/// Why a line was not put behind the others.
#[derive(Clone, Copy, Debug, PartialEq, Eq)]
pub enum AppendFault {
    /// The line breaks this rule.
    Broken(IndexRule),
    /// There was no memory for it.
    Memory,
}

impl fmt::Display for AppendFault {
    fn fmt<W: fmt::Write>(&self, f: &mut fmt::Formatter<W>) -> fmt::Result {
        match self {
            AppendFault::Broken(rule) => write!(f, "{rule}"),
            AppendFault::Memory => write!(f, "no memory for the line"),
        }
    }
}

impl Error for AppendFault {}

impl From<AllocError> for AppendFault {
    ghost use Rattle.std.specs.Prelude.{◌≡◌};
    ghost use Rattle.backup_index.specs.declared.lines.AppendFault.TheVariants.{Memory};

    ghost from_gives = { λ _ fault. fault ≡ Memory };

    fn from(_fault: AllocError) -> AppendFault {
        AppendFault::Memory
    }
}

/// Lines of a host's backups.
#[derive(Debug, Drop)]
pub struct LineList {
    lines: Vec<Line>,
}

impl Model for LineList {
    ghost use Rattle.std.specs.Prelude.{List};
    ghost use Rattle.backup_rules.specs.declared.lines.Line.{Line};

    ghost Value = { List Line };

    ghost view = { λ list. list.lines.items };
}

impl LineList {
    /// No lines; takes no memory.
    pub fn new(alloc: Global) -> LineList
        ensures { result ≡ [] }
    {
        LineList {
            lines: Vec::new(alloc),
        }
    }

    /// The lines, in order.
    pub fn lines(&self) -> &[Line]
        ensures { result.now ≡ self.now }
    {
        self.lines.as_slice()
    }

    pub fn len(&self) -> usize
        ensures { result ≡ length self.now }
    {
        self.lines.len()
    }

    pub fn is_empty(&self) -> bool
        ensures { IsTrue result ↔ (self.now ≡ []) }
    {
        self.lines.is_empty()
    }

    /// Puts a line behind the others; refused for want of memory.
    pub fn push(&mut self, line: Line) -> Result<(), AllocError>
        ensures ok { OnOk result (self.new ≡ self.old ++ line ∷ []) }
        ensures err { OnErr result (self.new ≡ self.old) }
    {
        self.lines.push(line)?;
        Ok(())
    }

    /// Puts a line in the place of another.
    pub fn set(&mut self, index: usize, line: Line)
        requires { index < length self.old }
        ensures { self.new ≡ slice_set self.old index line }
    {
        self.lines[index] = line;
    }

    /// An equal list, or want of memory.
    pub fn copy(&self, alloc: Global) -> Result<LineList, AllocError>
        ensures { IfOk result (λ copy. copy ≡ self.now) }
    {
        let lines = Vec::from_slice(alloc, self.lines.as_slice())?;
        Ok(LineList { lines })
    }
}
