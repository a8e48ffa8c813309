//! Which backups are the same, and which are new.

ghost use Rattle.std.specs.Prelude.{◌≡◌, nat_le};
ghost use Rattle.std.specs.List.{list_any};
ghost use Rattle.pull_work.specs.Compared.{is_same_kind, is_same_backup, base_in};

use backup_rules::{Kind, Line};

fn is_same_kind(own: Kind, there: Kind) -> bool
    ensures { result ≡ is_same_kind own there }
{
    match own {
        Kind::Full => there == Kind::Full,
        Kind::Incr => there == Kind::Incr,
    }
}

/// Whether two lines are of the same backup: number, times and kind.
fn is_same_backup(own: &Line, there: &Line) -> bool
    ensures { result ≡ is_same_backup own.now there.now }
{
    own.number == there.number
        && own.start == there.start
        && own.end == there.end
        && is_same_kind(own.kind, there.kind)
}

/// Whether a backup is among those of the other server.
fn is_there(newest: &Line, there: &[Line]) -> bool
    ensures { result ≡ list_any (is_same_backup newest.now) there.now }
{
    for line in there {
        if is_same_backup(newest, line) {
            return true;
        }
    }
    false
}

/// The number of the newest backup at home, if the other server has the same one.
pub(crate) fn base_in(own: &[Line], there: &[Line]) -> Option<u32>
    ensures { result ≡ base_in own.now there.now }
{
    match own.last() {
        Some(newest) => {
            if is_there(newest, there) {
                Some(newest.number)
            } else {
                None
            }
        }
        None => None,
    }
}

/// Whether a line is of a backup that isn't at home: its number isn't below home's next one.
pub(crate) fn is_new(line: &Line, next: u64) -> bool
    ensures { result ≡ nat_le next line.now.number }
{
    next <= u64::from(line.number)
}
