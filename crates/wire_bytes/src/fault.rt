//! What is wrong with bytes that were to be read.

use std::error::Error;
use std::fmt;

/// Why a field isn't there. The offset is that of the field's first byte, from the front of all that is read.
#[derive(Clone, Copy, Debug, PartialEq, Eq)]
pub enum FieldFault {
    /// The end cuts the field off: more bytes could make it whole.
    Ended(usize),
    /// Other bytes stand there: nothing that follows could make them a field of this kind.
    Foreign(usize),
}

impl fmt::Display for FieldFault {
    fn fmt<W: fmt::Write>(&self, f: &mut fmt::Formatter<W>) -> fmt::Result {
        match self {
            FieldFault::Ended(offset) => write!(f, "the field at {offset} is cut off"),
            FieldFault::Foreign(offset) => write!(f, "no such field stands at {offset}"),
        }
    }
}

impl Error for FieldFault {}

/// The seal is wrong or missing. The offset is that of the seal's first byte, or 0 in a file too short for one.
#[derive(Clone, Copy, Debug, PartialEq, Eq)]
pub struct BadSeal(pub usize);

impl fmt::Display for BadSeal {
    fn fmt<W: fmt::Write>(&self, f: &mut fmt::Formatter<W>) -> fmt::Result {
        let offset = self.0;
        write!(f, "the seal at {offset} is wrong or missing")
    }
}

impl Error for BadSeal {}

/// More stands behind what was to be read. The offset is that of the first byte too much.
#[derive(Clone, Copy, Debug, PartialEq, Eq)]
pub struct TrailingBytes(pub usize);

impl fmt::Display for TrailingBytes {
    fn fmt<W: fmt::Write>(&self, f: &mut fmt::Formatter<W>) -> fmt::Result {
        let offset = self.0;
        write!(f, "more stands at {offset} than is to be there")
    }
}

impl Error for TrailingBytes {}
