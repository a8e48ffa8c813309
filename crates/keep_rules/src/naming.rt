//! What the keeping rules name.

ghost use Rattle.std.specs.Prelude.{◌≡◌, ◌↔◌, IsTrue, length};
ghost use Rattle.keep_rules.specs.Named.{Rise, rise_from, AreNamed};
ghost use Rattle.keep_rules.specs.Flags.{named_flags};

use crate::groups::Group;
use crate::walk::judge_group;
use backup_rules::{Line, Rules};

/// The test of `numbers_rise`.
fn rise(lines: &[Line]) -> bool
    ensures { result ≡ rise_from 0 lines.now }
{
    let mut least = 0;
    for line in lines {
        let number = u64::from(line.number);
        if number < least {
            return false;
        }
        least = number + 1;
    }
    true
}

/// Whether the numbers of backups strictly rise.
pub fn numbers_rise(lines: &[Line]) -> bool
    ensures { IsTrue result ↔ Rise lines.now }
{
    rise(lines)
}

/// Flags each backup that the rules name at a moment, in seconds since 1970, and takes each other flag. The numbers of the
/// lines rise strictly, and there is a flag for each line.
///
/// The candidates are all backups but the newest, without those that are kept whatever the rules say. If `OldAge` isn't 0, those
/// whose age exceeds it are judged among themselves by the counts for old backups, and the others likewise by the usual counts.
/// Ages and distances are signed, and nothing wraps. Takes no memory, and a time that grows as the number of lines.
pub fn named(lines: &[Line], rules: &Rules, now: u64, out: &mut [bool])
    requires flags { length out.old ≡ length lines.now }
    requires rise { Rise lines.now }
    ensures named { AreNamed rules.now now lines.now out.new }
    ensures flags { out.new ≡ named_flags rules.now now lines.now }
{
    out.fill(false);
    let Some((_newest, candidates)) = lines.split_last() else {
        return;
    };
    judge_group(Group::Recent, candidates, rules, now, out);
    judge_group(Group::Old, candidates, rules, now, out);
}
