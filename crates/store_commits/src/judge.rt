//! What a commit of a line is for its host: whether the former newest stays filled, and the receipt.

ghost use Rattle.std.specs.Prelude.{◌≡◌, ◌≤◌, ◌<◌, ℕ, true, length, Some, OnOk, IfOk, IfErr, slice_get};
ghost use Rattle.backup_index.specs.Index.{Index};
ghost use Rattle.open_sessions.specs.declared.sessions.OpenDump.{OpenDump as Dump};
ghost use Rattle.store_commits.specs.Judged.{receipt_by, IsJudged};

use crate::former::dropped_line;
use backup_index::HostIndex;
use backup_rules::Line;
use disk_trait::Disk;
use office_model::BrokenRule;
use open_sessions::OpenDump;
use pool_name::Namer;
use receipts::Receipt;
use store_parts::StoreParts;

/// The line of a new backup, the former newest's, if it doesn't stay filled, and the commit's receipt, if it has one.
#[derive(Clone, Copy, Debug)]
pub struct Lines {
    /// The host's number, in the names of files.
    pub file: u32,
    pub line: Line,
    pub dropped: Option<Line>,
    pub receipt: Option<Receipt>,
}

/// The receipt of the commit of a dump, if it was opened with a token.
fn new_receipt(number: u32, dump: &OpenDump) -> Option<Receipt>
    ensures { result ≡ receipt_by dump.now.token dump.now.name number }
{
    match dump.token {
        Some(token) => Some(Receipt {
            token,
            name: dump.name,
            number,
        }),
        None => None,
    }
}

/// The lines of a commit of an open dump as the backup of this line. A dump of a host that isn't there is refused: a store at work
/// has none.
pub(crate) fn judge<D: Disk, N: Namer>(
    parts: &StoreParts<D, N>,
    dump: &OpenDump,
    line: Line,
) -> Result<Lines, BrokenRule>
    requires free { (index : Index) → slice_get parts.now.catalog.hosts dump.now.host ≡ Some index → index.next ≤ line.number }
    requires filled { line.filled ≡ true }
    ensures judged { IfOk result (IsJudged parts.now.catalog.hosts dump.now line) }
    ensures within { OnOk result (dump.now.host < length parts.now.catalog.hosts) }
    ensures broken { IfErr result (λ rule. (index : Index) → slice_get parts.now.catalog.hosts dump.now.host ≡ Some index → ⊥) }
{
    let Some(index) = parts.catalog.hosts().get(dump.host) else {
        return Err(BrokenRule::NoHost);
    };
    let _sound = index.lines();
    Ok(Lines {
        file: index.parts().host,
        line,
        dropped: dropped_line(index),
        receipt: new_receipt(line.number, dump),
    })
}
