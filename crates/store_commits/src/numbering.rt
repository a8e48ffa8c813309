//! The line of a new backup: with its host's next number, or with a number of its own.

ghost use Rattle.std.specs.Prelude.{◌≡◌, ◌<◌, true, false, Some, IfOk, IfErr, OnOk, slice_get};
ghost use Rattle.backup_index.specs.Index.{Index};
ghost use Rattle.office_model.specs.declared.refusal.BrokenRule.TheVariants.{NumberBehind};
ghost use Rattle.office_model.specs.events.Adopt.{adopted_line};
ghost use Rattle.store_commits.specs.Judged.{IsLineNow, IsThere};

use backup_rules::{Kind, Line};
use disk_trait::Disk;
use office_model::BrokenRule;
use open_sessions::OpenDump;
use pool_name::Namer;
use store_parts::StoreParts;
use stream_traits::Moment;

/// The line of the backup that a dump becomes with this number.
fn new_line(number: u32, dump: &OpenDump, now: Moment) -> Line
    ensures { result ≡ record { number = number; start = dump.now.start; end = now; kind = dump.now.kind; filled = true; keep = false } }
{
    Line {
        number,
        start: dump.start,
        end: now.seconds(),
        kind: dump.kind,
        filled: true,
        keep: false,
    }
}

/// The line of the backup that an open dump becomes now, with its host's next number. A dump of a host that isn't there or has no
/// number left is refused: a store at work has none.
pub(crate) fn line_now<D: Disk, N: Namer>(
    parts: &StoreParts<D, N>,
    dump: &OpenDump,
    now: Moment,
) -> Result<Line, BrokenRule>
    ensures line { IfOk result (IsLineNow parts.now.catalog.hosts dump.now now) }
    ensures broken { IfErr result (λ rule. (index : Index) → slice_get parts.now.catalog.hosts dump.now.host ≡ Some index
        → index.next < 4294967296 → ⊥) }
{
    let Some(index) = parts.catalog.hosts().get(dump.host) else {
        return Err(BrokenRule::NoHost);
    };
    let Ok(number) = u32::try_from(index.next()) else {
        return Err(BrokenRule::NumbersSpent);
    };
    Ok(new_line(number, dump, now))
}

/// The line of a backup with this number, these times and this kind.
fn given_line(number: u32, start: u64, end: u64, kind: Kind) -> Line
    ensures { result ≡ adopted_line number start end kind }
{
    Line {
        number,
        start,
        end,
        kind,
        filled: true,
        keep: false,
    }
}

/// The line of the backup that an open dump becomes with a number of its own, as another server has it. A number below the host's
/// next one is refused; so is a dump of a host that isn't there: a store at work has none.
pub(crate) fn line_there<D: Disk, N: Namer>(
    parts: &StoreParts<D, N>,
    dump: &OpenDump,
    number: u32,
    start: u64,
    end: u64,
    kind: Kind,
) -> Result<Line, BrokenRule>
    ensures line { IfOk result (λ line. line ≡ adopted_line number start end kind) }
    ensures there { OnOk result (IsThere parts.now.catalog.hosts dump.now number) }
    ensures behind { IfErr result (λ rule. (index : Index) → slice_get parts.now.catalog.hosts dump.now.host ≡ Some index
        → (number < index.next) × (rule ≡ NumberBehind)) }
{
    let Some(index) = parts.catalog.hosts().get(dump.host) else {
        return Err(BrokenRule::NoHost);
    };
    if u64::from(number) < index.next() {
        return Err(BrokenRule::NumberBehind);
    }
    Ok(given_line(number, start, end, kind))
}
