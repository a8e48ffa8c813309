use attr_records::HostName;
use backup_rules::{Line, Rules};
use receipts::ReceiptList;

/// The parts of a host's index, borrowed. The lines stand in two pieces, so that an index is written with a further
/// line, or without one, while none is copied.
#[derive(Clone, Copy)]
pub struct HostParts<'a> {
    /// The host's number.
    pub host: u32,
    pub name: &'a HostName,
    pub rules: &'a Rules,
    /// How many times in a row the host was reached.
    pub good: u32,
    /// How many times in a row it wasn't.
    pub bad: u32,
    /// The number of the next backup, which is none where it is 2^32.
    pub next: u64,
    /// The receipts of commits, the oldest first.
    pub receipts: &'a ReceiptList,
    /// The lines, and those behind them.
    pub lines: &'a [Line],
    pub more: &'a [Line],
}
