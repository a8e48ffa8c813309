ghost use Rattle.std.specs.Prelude.{◌≡◌, ◌↔◌, IsTrue};
ghost use Rattle.backup_rules.specs.declared.settings.Setting.TheVariants.{FillCycle};
ghost use Rattle.backup_rules.specs.Values.{number_of};
ghost use Rattle.backup_rules.specs.Fill.{stays_filled, IsLeftFilled};

use crate::rules::Rules;
use crate::settings::Setting;

/// Whether a dump takes all of a tree, or what differs from the backup before.
#[derive(Clone, Copy, Debug, PartialEq, Eq)]
pub enum Kind {
    Full,
    Incr,
}

/// A backup of a host. Start and end are seconds since 1970.
#[derive(Clone, Copy, Debug, PartialEq, Eq)]
pub struct Line {
    pub number: u32,
    pub start: u64,
    pub end: u64,
    pub kind: Kind,
    /// Whether its whole tree is stored.
    pub filled: bool,
    /// Whether it is kept whatever the rules say.
    pub keep: bool,
}

/// Whether the newest backup stays filled when a newer one is committed: without a cycle a full does, under a cycle a
/// backup whose number the cycle divides.
pub fn fill_rule(line: &Line, rules: &Rules) -> bool
    ensures value { result ≡ stays_filled rules.now line.now }
    ensures divides { IsTrue result ↔ IsLeftFilled (number_of rules.now FillCycle) line.now.kind line.now.number }
{
    match rules.number(Setting::FillCycle) {
        0 => line.kind == Kind::Full,
        cycle => line.number % cycle == 0,
    }
}
