ghost use Rattle.std.specs.Prelude.{◌≡◌, ◌<◌, Ok, Err, IfOk, IfErr};
ghost use Rattle.office_model.specs.Office.{number_limit};
ghost use Rattle.tree_parts.specs.Endings.{ending_of};

use crate::dump::Dump;
use crate::host::Host;
use backup_rules::{Kind, Line};
use office_model::BrokenRule;
use stream_traits::Moment;

/// How the end of a dump is written down.
#[derive(Clone, Copy)]
pub enum Ending {
    /// With the host's next number, at this time.
    AtTime(Moment),
    /// With the number, the times and the kind that it has on another server.
    AsThere {
        number: u32,
        start: u64,
        end: u64,
        kind: Kind,
    },
}

/// The line of the backup that a dump of a host becomes, or the rule that this breaks.
pub(crate) fn line_of(ending: Ending, host: &Host, dump: &Dump) -> Result<Line, BrokenRule>
    requires { host.now.next < number_limit }
    ensures ok { IfOk result (λ line. ending_of ending host.now dump.now ≡ Ok line) }
    ensures err { IfErr result (λ rule. ending_of ending host.now dump.now ≡ Err rule) }
{
    match ending {
        Ending::AtTime(now) => Ok(Line {
            number: host.next() as u32,
            start: dump.start.seconds(),
            end: now.seconds(),
            kind: dump.kind,
            filled: true,
            keep: false,
        }),
        Ending::AsThere {
            number,
            start,
            end,
            kind,
        } => {
            if (number as u64) < host.next() {
                return Err(BrokenRule::NumberBehind);
            }
            Ok(Line {
                number,
                start,
                end,
                kind,
                filled: true,
                keep: false,
            })
        }
    }
}
