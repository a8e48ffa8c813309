//! An open reader is found by its number.

ghost use Rattle.std.specs.Prelude.{◌≡◌, ◌<◌, Some, None, length, IfOk, IfErr};
ghost use Rattle.office_model.specs.declared.refusal.BrokenRule.TheVariants.{NoSession};
ghost use Rattle.store_parts.specs.FoundLaws.{reader_place};

use disk_trait::Disk;
use office_model::BrokenRule;
use pool_name::Namer;
use store_parts::StoreParts;

/// Where the open reader of a number is. It refuses a number that no open reader has.
pub(crate) fn find_reader<D: Disk, N: Namer>(
    parts: &StoreParts<D, N>,
    number: u64,
) -> Result<usize, BrokenRule>
    ensures found { IfOk result (λ at. Some at ≡ reader_place parts.now number) }
    ensures within { IfOk result (λ at. at < length parts.now.sessions.readers.items.items) }
    ensures rule { IfErr result (λ rule. rule ≡ NoSession) }
    ensures none { IfErr result (λ rule. None ≡ reader_place parts.now number) }
{
    parts
        .sessions
        .readers
        .at(number)
        .ok_or(BrokenRule::NoSession)
}
