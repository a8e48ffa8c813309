//! Reads the index of a host.

ghost use Rattle.std.specs.Prelude.{◌≡◌};
ghost use Rattle.wire_bytes.specs.Grammar.{field};
ghost use Rattle.wire_bytes.specs.GrammarReading.{ReadsOrBreaks, ReadsSealed};
ghost use Rattle.backup_rules.specs.Layout.{rules_grammar, line_bytes};
ghost use Rattle.backup_index.specs.Faults.{offset_of};
ghost use Rattle.backup_index.specs.Lines.{IsKeptLine};
ghost use Rattle.backup_index.specs.Index.{rules_layout, numbers_grammar, lines_grammar};
ghost use Rattle.backup_index.specs.Stored.{index_grammar};

use crate::fault::IndexFault;
use crate::fields::{read_layout, read_name, read_next_number};
use crate::index::{HostIndex, broken_line};
use crate::layouts::IndexLayout;
use crate::lines::LineList;
use crate::receipt_reading::read_receipts;
use backup_rules::{Line, Rules, read_line, read_rules};
use std::alloc::Global;
use wire_bytes::Reader;

/// Reads the rules of an index that stands so.
fn read_host_rules(
    alloc: Global,
    reader: &mut Reader,
    layout: IndexLayout,
) -> Result<Rules, IndexFault>
    ensures { ReadsOrBreaks offset_of (λ rules. rules) (rules_grammar (rules_layout layout)) reader.old result reader.new }
{
    let rules = read_rules(alloc, reader, layout.rules())?;
    Ok(rules)
}

/// The numbers between the rules and the lines.
#[derive(Clone, Copy)]
struct Numbers {
    good: u32,
    bad: u32,
    next: u64,
    count: u64,
}

/// Reads the numbers behind the rules.
fn read_numbers(reader: &mut Reader) -> Result<Numbers, IndexFault>
    ensures { ReadsOrBreaks offset_of (λ n. (n.good, (n.bad, (n.next, n.count)))) numbers_grammar reader.old result reader.new }
{
    let good = reader.read_u32()?;
    let bad = reader.read_u32()?;
    let next = read_next_number(reader)?;
    let count = reader.read_u64()?;
    Ok(Numbers {
        good,
        bad,
        next,
        count,
    })
}

/// Reads a line whose number may be `low` at least and is to be below `next`.
fn read_next_line(
    reader: &mut Reader,
    low: u64,
    next: u64,
    is_last: bool,
) -> Result<Line, IndexFault>
    ensures { ReadsOrBreaks offset_of (λ line. line) (field (IsKeptLine low next is_last) line_bytes) reader.old result reader.new }
{
    let start = reader.offset();
    let line = match read_line(reader) {
        Ok(line) => line,
        Err(_) => return Err(IndexFault::BadIndex(start)),
    };
    match broken_line(low, next, is_last, &line) {
        None => Ok(line),
        Some(_) => Err(IndexFault::BadIndex(start)),
    }
}

/// Reads so many lines.
fn read_lines(
    alloc: Global,
    reader: &mut Reader,
    next: u64,
    count: u64,
) -> Result<LineList, IndexFault>
    ensures { ReadsOrBreaks offset_of (λ lines. lines) (lines_grammar next count) reader.old result reader.new }
{
    let mut lines = LineList::new(alloc);
    let mut low = 0u64;
    for i in 0..count {
        let line = read_next_line(reader, low, next, i + 1 == count)?;
        low = u64::from(line.number) + 1;
        lines.push(line)?;
    }
    Ok(lines)
}

/// Reads what the index of a host says, and in which layout.
fn read_index(alloc: Global, reader: &mut Reader) -> Result<(IndexLayout, HostIndex), IndexFault>
    ensures { ReadsOrBreaks offset_of (λ stored. stored) index_grammar reader.old result reader.new }
{
    let layout = read_layout(reader)?;
    let host = reader.read_u32()?;
    let name = read_name(alloc, reader)?;
    let rules = read_host_rules(alloc, reader, layout)?;
    let receipts = read_receipts(alloc, reader, layout)?;
    let numbers = read_numbers(reader)?;
    let Numbers {
        good,
        bad,
        next,
        ..
    } = numbers;
    let lines = read_lines(alloc, reader, next, numbers.count)?;
    Ok((
        layout,
        HostIndex::from_sound(host, name, rules, good, bad, next, receipts, lines),
    ))
}

/// What the index of these bytes says, and in which layout; refused exactly where they are no index of a host, with the
/// offset of the first byte that breaks the layout, or for want of memory.
pub fn read_host_index(alloc: Global, bytes: &[u8]) -> Result<(IndexLayout, HostIndex), IndexFault>
    ensures { ReadsSealed offset_of (λ stored. stored) index_grammar bytes.now result }
{
    let mut reader = Reader::of_sealed(bytes)?;
    let stored = read_index(alloc, &mut reader)?;
    reader.finish()?;
    Ok(stored)
}
