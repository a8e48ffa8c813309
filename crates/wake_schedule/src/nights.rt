//! The nightly work, and what a minute of the day asks for.

ghost use Rattle.std.specs.Prelude.{◌≡◌, ◌<◌, ◌==◌, pos, unsigned_abs};
ghost use Rattle.std.specs.Int.{int_rem_euclid};
ghost use Rattle.std.specs.List.{list_any};
ghost use Rattle.wake_schedule.specs.Nights.{nightly_of, wakeup_of, is_first};

/// How many parts the pool has that a night may clean.
pub const BUCKETS: usize = 16;

/// What a minute asks for.
#[derive(Clone, Copy, Debug, PartialEq, Eq)]
pub enum Wakeup {
    Nothing,
    /// Hosts are looked at.
    Wake,
    /// So are they, and the nightly work is done.
    Nightly,
}

/// The place of a night in its period.
fn night_of(day: i64, period: u32) -> u64
    requires { 0 < period }
    ensures { result ≡ unsigned_abs (int_rem_euclid day (pos period)) }
{
    day.rem_euclid(i64::from(period)) as u64
}

/// The buckets that a night cleans, if all are cleaned within a period of so many nights: those whose remainder by it is
/// the night's. The night is a day's number, of which 0 is 1970-01-01.
pub fn nightly_buckets(day: i64, period: u32) -> [bool; BUCKETS]
    requires { 0 < period }
    ensures { result ≡ nightly_of day period }
{
    let night = night_of(day, period);
    let mut chosen = [false; BUCKETS];
    for bucket in 0..BUCKETS {
        chosen[bucket] = bucket as u64 % u64::from(period) == night;
    }
    chosen
}

/// Whether a minute is the first one of the schedule.
fn is_first(schedule: &[u16], minute: u16) -> bool
    ensures { result ≡ is_first minute schedule.now }
{
    match schedule.first() {
        Some(&first) => first == minute,
        None => false,
    }
}

/// Whether a minute is one of the schedule.
fn is_entry(schedule: &[u16], minute: u16) -> bool
    ensures { result ≡ list_any (λ entry. entry == minute) schedule.now }
{
    schedule.iter().any(|entry| *entry == minute)
}

/// What a minute of the day asks for: the nightly work if it is the first one of the schedule, or else to wake if it is
/// one of them.
pub fn wake(schedule: &[u16], minute: u16) -> Wakeup
    ensures { result ≡ wakeup_of schedule.now minute }
{
    if is_first(schedule, minute) {
        Wakeup::Nightly
    } else if is_entry(schedule, minute) {
        Wakeup::Wake
    } else {
        Wakeup::Nothing
    }
}
