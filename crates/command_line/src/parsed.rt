//! Words, read once.
ghost use Rattle.std.specs.Prelude.{◌≡◌, None, Some, IfErr, IfOk, map};
ghost use Rattle.std.specs.String.{string_bytes};
ghost use Rattle.std.proofs.Props.{props};
ghost use Rattle.command_line.specs.Line.{line_of, meaning};
ghost use Rattle.command_line.specs.declared.line.LineFault.{LineFault};

use crate::line::{CommandLine, LineFault, parse};
use std::alloc::Global;

/// Words, and the line that they are, or why they are none.
#[derive(Drop)]
pub struct Parsed<'a> {
    words: &'a [String],
    line: Result<CommandLine, LineFault>,
    ghost is_line: { IfOk line (λ said. line_of (map string_bytes words.now) ≡ Some (meaning said)) } by { Prim.hlevel props },
    ghost is_none: { IfErr line (λ fault. fault ≡ LineFault.NoParse → line_of (map string_bytes words.now) ≡ None) } by { Prim.hlevel props },
}

impl<'a> Parsed<'a> {
    /// Reads the words of a command line; the first is the program's name.
    pub fn read(alloc: Global, words: &'a [String]) -> Parsed<'a>
        ensures { result.words.now ≡ words.now }
    {
        Parsed {
            words,
            line: parse(alloc, words),
        }
    }

    /// The line of the words.
    pub fn line(&self) -> Result<&CommandLine, LineFault>
        ensures ok { IfOk result (λ line. line_of (map string_bytes self.now.words.now) ≡ Some (meaning line.now)) }
        ensures none { IfErr result (λ fault. fault ≡ LineFault.NoParse → line_of (map string_bytes self.now.words.now) ≡ None) }
    {
        match &self.line {
            Ok(line) => Ok(line),
            Err(fault) => Err(*fault),
        }
    }
}
