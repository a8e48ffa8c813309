ghost use Rattle.std.specs.Prelude.{None};

use std::time::{Clock as Clocks, SystemTime, UNIX_EPOCH};
use stream_traits::{Clock, Moment};

/// The clock of the system. Where it can't be read, or stands before 1970 or at 2^37 seconds or
/// later, the last moment stays, at first the beginning of 1970. It tells none of its moments.
#[derive(Drop)]
pub struct SystemClock<R> {
    rt: R,
    last: Moment,
}

impl<R> SystemClock<R> {
    pub fn new(rt: R) -> SystemClock<R> {
        SystemClock {
            rt,
            last: Moment::first(),
        }
    }
}

impl<R: Clocks + Send> Clock for SystemClock<R> {
    ghost moments = { λ _. None };

    fn now(&mut self) -> Moment {
        if let Some(moment) = moment_of(&self.rt) {
            self.last = moment;
        }
        self.last
    }
}

fn moment_of<R: Clocks>(rt: &R) -> Option<Moment> {
    let now = SystemTime::now(rt).ok()?;
    let since = now.duration_since(UNIX_EPOCH).ok()?;
    Moment::new(since.as_secs())
}
