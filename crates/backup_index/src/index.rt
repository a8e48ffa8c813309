//! The index of a host: what is known of it, and a line for each of its backups.

ghost use Rattle.std.specs.Prelude.{◌≡◌, ◌↔◌, ◌≤◌, ◌<◌, ◌+◌, [], ◌∷◌, ◌++◌, true, false, length, get_or, slice_set, None, Some, IsTrue, IfOk, IfErr, OnOk, OnErr};
ghost use Rattle.backup_index.specs.Stored.{index_of_parts};
ghost use Rattle.backup_index.specs.Lines.{Follows, broken_line, broken_index, IsSound};
ghost use Rattle.backup_index.specs.Edits.{IsAppendFault};
ghost use Rattle.backup_index.specs.Index.{Index, index_of};

use crate::limits::MAX_NEXT;
use crate::lines::{AppendFault, IndexRule, LineList};
use crate::parts::HostParts;
use attr_records::HostName;
use backup_rules::{Line, Rules};
use receipts::ReceiptList;
use std::marker::Model;

/// The rule that a line breaks, whose number may be `low` at least and is to be below `next`, if it breaks one.
pub fn broken_line(low: u64, next: u64, is_last: bool, line: &Line) -> Option<IndexRule>
    ensures { result ≡ broken_line low next is_last line.now }
{
    let number = u64::from(line.number);
    if number < low {
        return Some(IndexRule::NotRising);
    }
    if next <= number {
        return Some(IndexRule::NotBelowNext);
    }
    if is_last && !line.filled {
        return Some(IndexRule::LastNotFilled);
    }
    None
}

/// The first rule that the next number and lines break, if they break one.
pub fn broken_index(next: u64, lines: &[Line]) -> Option<IndexRule>
    ensures { result ≡ broken_index next lines.now }
{
    if next > MAX_NEXT {
        return Some(IndexRule::NextTooLarge);
    }
    let mut low = 0u64;
    for (place, line) in lines.iter().enumerate() {
        let broken = broken_line(low, next, place + 1 == lines.len(), line);
        if broken.is_some() {
            return broken;
        }
        low = u64::from(line.number) + 1;
    }
    None
}

/// The number above one.
fn number_behind(number: u32) -> u64
    ensures value { result ≡ number + 1 }
    ensures small { number < 4294967296 }
{
    u64::from(number) + 1
}

/// Whether a line may stand at this index of so many lines: the last is to be filled.
fn may_stand(len: usize, index: usize, filled: bool) -> bool
    requires { index < len }
    ensures { IsTrue result ↔ (index + 1 ≡ len → filled ≡ true) }
{
    filled || len - index != 1
}

/// What the store knows of a host. The numbers of its lines strictly rise and are below the next one, which is at most
/// 2^32, and the last line is filled.
#[derive(Debug)]
pub struct HostIndex {
    host: u32,
    name: HostName,
    rules: Rules,
    good: u32,
    bad: u32,
    next: u64,
    receipts: ReceiptList,
    lines: LineList,
}

impl Model for HostIndex {
    ghost use Rattle.backup_index.specs.Index.{Index, index_of};
    ghost use Rattle.backup_index.specs.Lines.{IsSound};

    ghost Value = { Index };

    ghost view = { λ i. index_of i.host i.name i.rules i.good i.bad i.next i.receipts i.lines };

    ghost invariant = { λ i. IsSound i.next i.lines };
}

/// Written out: what is in it is then dropped here, for the prover too, and not in each crate above.
impl Drop for HostIndex {
    fn drop(self) {
        let HostIndex {
            host: _,
            name: _,
            rules: _,
            good: _,
            bad: _,
            next: _,
            receipts: _,
            lines: _,
        } = self;
    }
}

impl HostIndex {
    /// The index that is made of these parts; refused, by the first rule that they break.
    pub fn new(
        host: u32,
        name: HostName,
        rules: Rules,
        good: u32,
        bad: u32,
        next: u64,
        receipts: ReceiptList,
        lines: LineList,
    ) -> Result<HostIndex, IndexRule>
        ensures ok { IfOk result (λ index. index ≡ index_of host name rules good bad next receipts lines) }
        ensures sound { OnOk result (IsSound next lines) }
        ensures broken { IfErr result (λ rule. broken_index next lines ≡ Some rule) }
    {
        match broken_index(next, lines.lines()) {
            None => Ok(HostIndex::from_sound(host, name, rules, good, bad, next, receipts, lines)),
            Some(rule) => Err(rule),
        }
    }

    /// The index that is made of parts that break no rule (`broken_index` tells).
    pub fn from_sound(
        host: u32,
        name: HostName,
        rules: Rules,
        good: u32,
        bad: u32,
        next: u64,
        receipts: ReceiptList,
        lines: LineList,
    ) -> HostIndex
        requires { IsSound next lines }
        ensures { result ≡ index_of host name rules good bad next receipts lines }
    {
        HostIndex {
            host,
            name,
            rules,
            good,
            bad,
            next,
            receipts,
            lines,
        }
    }

    /// The host's number.
    pub fn host(&self) -> u32
        ensures { result ≡ self.now.host }
    {
        self.host
    }

    pub fn name(&self) -> &HostName
        ensures { result.now ≡ self.now.name }
    {
        &self.name
    }

    pub fn rules(&self) -> &Rules
        ensures { result.now ≡ self.now.rules }
    {
        &self.rules
    }

    /// How many times in a row the host was reached.
    pub fn good(&self) -> u32
        ensures { result ≡ self.now.good }
    {
        self.good
    }

    /// How many times in a row it wasn't.
    pub fn bad(&self) -> u32
        ensures { result ≡ self.now.bad }
    {
        self.bad
    }

    /// The number of the next backup, which is none where it is 2^32.
    pub fn next(&self) -> u64
        ensures { result ≡ self.now.next }
    {
        self.next
    }

    /// Its parts, with all lines in the first piece.
    pub fn parts(&self) -> HostParts<'_>
        ensures parts { index_of_parts result ≡ self.now }
        ensures lines { result.lines.now ≡ self.now.lines }
        ensures none { result.more.now ≡ [] }
        ensures sound { IsSound result.next (result.lines.now ++ result.more.now) }
    {
        HostParts {
            host: self.host,
            name: &self.name,
            rules: &self.rules,
            good: self.good,
            bad: self.bad,
            next: self.next,
            receipts: &self.receipts,
            lines: self.lines.lines(),
            more: &[],
        }
    }

    /// A line for each backup, by rising numbers.
    pub fn lines(&self) -> &LineList
        ensures lines { result.now ≡ self.now.lines }
        ensures sound { IsSound self.now.next self.now.lines }
    {
        &self.lines
    }

    /// The receipts of commits, the oldest first.
    pub fn receipts(&self) -> &ReceiptList
        ensures { result.now ≡ self.now.receipts }
    {
        &self.receipts
    }

    /// Gives the host other rules.
    pub fn set_rules(&mut self, rules: Rules)
        ensures { self.new ≡ record self.old { rules = rules } }
    {
        self.rules = rules;
    }

    /// Gives it other numbers of contacts.
    pub fn set_contacts(&mut self, good: u32, bad: u32)
        ensures { self.new ≡ record self.old { good = good; bad = bad } }
    {
        self.good = good;
        self.bad = bad;
    }

    /// Gives it other lines and another next number; refused by the first rule that they break, and then it is as it was.
    pub fn set_lines(&mut self, next: u64, lines: LineList) -> Result<(), IndexRule>
        ensures ok { OnOk result (self.new ≡ record self.old { next = next; lines = lines }) }
        ensures err { OnErr result (self.new ≡ self.old) }
        ensures broken { IfErr result (λ rule. broken_index next lines ≡ Some rule) }
    {
        match broken_index(next, lines.lines()) {
            Some(rule) => Err(rule),
            None => {
                self.next = next;
                self.lines = lines;
                Ok(())
            }
        }
    }

    /// Gives it what a commit changes: other lines, another next number and other receipts; refused by the first rule that the
    /// lines and the number break, and then it is as it was.
    pub fn set_commit(
        &mut self,
        next: u64,
        receipts: ReceiptList,
        lines: LineList,
    ) -> Result<(), IndexRule>
        ensures ok { OnOk result (self.new ≡ record self.old { next = next; receipts = receipts; lines = lines }) }
        ensures err { OnErr result (self.new ≡ self.old) }
        ensures broken { IfErr result (λ rule. broken_index next lines ≡ Some rule) }
    {
        self.set_lines(next, lines)?;
        self.receipts = receipts;
        Ok(())
    }

    /// Puts a line behind the others, with a number that isn't below the next one; the next number is then the one above
    /// it. Refused by the rule that this line breaks, or for want of memory, and then it is as it was.
    pub fn append(&mut self, line: Line) -> Result<(), AppendFault>
        ensures ok { OnOk result (self.new ≡ record self.old { next = line.number + 1; lines = self.old.lines ++ line ∷ [] }) }
        ensures follows { OnOk result (Follows self.old.next (line.number + 1) true line) }
        ensures err { OnErr result (self.new ≡ self.old) }
        ensures broken { IfErr result (λ fault. IsAppendFault self.old.next line fault) }
    {
        let next = number_behind(line.number);
        match broken_line(self.next, next, true, &line) {
            Some(rule) => Err(AppendFault::Broken(rule)),
            None => {
                self.lines.push(line)?;
                self.next = next;
                Ok(())
            }
        }
    }

    /// Puts a line in the place of one with the same number; refused where it is the last and isn't filled, and then the
    /// index is as it was.
    pub fn replace(&mut self, index: usize, line: Line) -> Result<(), IndexRule>
        requires within { index < length self.old.lines }
        requires same { (get_or self.old.lines index line).number ≡ line.number }
        ensures ok { OnOk result (self.new ≡ record self.old { lines = slice_set self.old.lines index line }) }
        ensures err { OnErr result (self.new ≡ self.old) }
        ensures kept { OnOk result (index + 1 ≡ length self.old.lines → line.filled ≡ true) }
        ensures broken { IfErr result (λ rule. (rule ≡ IndexRule.LastNotFilled) × ((index + 1 ≡ length self.old.lines → line.filled ≡ true) → ⊥)) }
    {
        if !may_stand(self.lines.len(), index, line.filled) {
            return Err(IndexRule::LastNotFilled);
        }
        self.lines.set(index, line);
        Ok(())
    }
}
