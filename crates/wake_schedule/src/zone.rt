//! Time zones, and what their clocks show.

ghost use Rattle.std.specs.Prelude.{◌≡◌, ◌↔◌, ◌<◌, ◌^◌, ◌+ℤ◌, ◌≤ℤ◌, pos, IfOk, IsOk, IfSome};
ghost use Rattle.wake_schedule.specs.Clock.{local_at, local_of};
ghost use Rattle.wake_schedule.specs.Zones.{IsZone, IsZoneText, ahead_at};

use crate::fixed::fixed_of;
use jiff::Timestamp;
use jiff::tz::{Offset, TimeZone};
use std::error::Error;
use std::fmt::{self, Formatter, Write};

/// The zone whose clock is meant.
#[derive(Clone, Copy, Debug)]
pub struct Zone {
    zone: TimeZone<'static>,
}

/// What a zone's clock shows.
#[derive(Clone, Copy, Debug, PartialEq, Eq)]
pub struct Local {
    /// The number of the day, of which 0 is 1970-01-01.
    pub day: i64,
    /// The minute of the day.
    pub minute: u16,
    /// 0 is Sunday.
    pub weekday: u8,
}

/// A text that is no time zone.
#[derive(Clone, Copy, Debug, PartialEq, Eq)]
pub struct BadZone;

impl fmt::Display for BadZone {
    fn fmt<W: Write>(&self, f: &mut Formatter<W>) -> fmt::Result {
        f.write_str("no time zone")
    }
}

impl Error for BadZone {}

/// What a clock shows at so many seconds of its own.
fn local_at(seconds: i64) -> Local
    requires low { pos 0 ≤ℤ (seconds +ℤ pos 1_000_000) }
    requires high { seconds ≤ℤ pos 1_000_000_000_000 }
    ensures { result ≡ local_at seconds }
{
    let day = seconds.div_euclid(86_400);
    Local {
        day,
        minute: (seconds.rem_euclid(86_400) / 60) as u16,
        weekday: (day + 4).rem_euclid(7) as u8,
    }
}

impl Zone {
    /// The zone of `UTC`, of `+HH:MM` or `-HH:MM` up to 14:59, which is always so far ahead of UTC, or of a POSIX rule (the
    /// TZ of POSIX, with the rules that the `jiff` crate reads). Refused exactly if the text is none of these.
    pub fn read(text: &str) -> Result<Zone, BadZone>
        ensures zone { IfOk result (λ zone. IsZone text.now zone) }
        ensures variant { IsOk result ↔ IsZoneText text.now }
    {
        if let Some(seconds) = fixed_of(text) {
            return match Offset::from_seconds(seconds) {
                Ok(offset) => Ok(Zone {
                    zone: TimeZone::fixed(offset),
                }),
                Err(_) => unreachable!(),
            };
        }
        match TimeZone::posix(text) {
            Ok(zone) => Ok(Zone { zone }),
            Err(_) => Err(BadZone),
        }
    }

    /// What the zone's clock shows at a moment, in seconds since 1970, below 2^37.
    pub fn local(&self, now: u64) -> Local
        requires { now < 2 ^ 37 }
        ensures { result ≡ local_of now (ahead_at self.now now) }
    {
        let Ok(timestamp) = Timestamp::from_second(now as i64) else {
            unreachable!();
        };
        local_at(now as i64 + i64::from(self.zone.to_offset(timestamp).seconds()))
    }
}
