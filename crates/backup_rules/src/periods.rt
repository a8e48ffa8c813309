ghost use Rattle.std.specs.Prelude.{◌≡◌, ◌≤◌, [], ◌∷◌, ◌++◌, length, OnOk, OnErr, IfOk, IfErr, IfSome, IfNone};
ghost use Rattle.backup_rules.specs.Ranges.{IsPeriod, ArePeriods, if_period};
ghost use Rattle.backup_rules.specs.Changes.{default_period};

use std::alloc::{AllocError, AllocFailed, Global};
use std::error::Error;
use std::fmt;
use std::marker::Model;

/// How many periods there may be.
pub const MAX_PERIODS: usize = 16;

/// The last minute of a day.
const LAST_MINUTE: u16 = 1_439;
/// The bits of all weekdays.
const ALL_WEEKDAYS: u8 = 127;

/// A blackout period: minutes of the day from a beginning up to an end, on weekdays of which bit w stands for weekday
/// w, and 0 is Sunday. Beginning and end are 0 to 1,439 and differ, and there is a weekday.
#[derive(Clone, Copy, Debug, PartialEq, Eq)]
pub struct Period {
    begin: u16,
    end: u16,
    weekdays: u8,
}

impl Model for Period {
    ghost use Rattle.backup_rules.specs.Values.{Span};

    ghost Value = { Span };

    ghost use Rattle.backup_rules.specs.Ranges.{IsPeriod};

    ghost view = { λ p. record { begin = p.begin; end = p.end; weekdays = p.weekdays } };

    ghost invariant = { λ p. IsPeriod (record { begin = p.begin; end = p.end; weekdays = p.weekdays }) };

    ghost inverse = { λ s. record { begin = s.begin; end = s.end; weekdays = s.weekdays } };
}

impl Period {
    /// The period of these minutes and weekdays; None where they are no period.
    pub fn new(begin: u16, end: u16, weekdays: u8) -> Option<Period>
        ensures some { IfSome result (λ period. period ≡ record { begin = begin; end = end; weekdays = weekdays }) }
        ensures in_range { IfSome result IsPeriod }
        ensures value { result ≡ if_period (record { begin = begin; end = end; weekdays = weekdays }) }
        ensures none { IfNone result (IsPeriod (record { begin = begin; end = end; weekdays = weekdays }) → ⊥) }
    {
        if begin > LAST_MINUTE || end > LAST_MINUTE || begin == end {
            return None;
        }
        if weekdays == 0 || weekdays > ALL_WEEKDAYS {
            return None;
        }
        Some(Period {
            begin,
            end,
            weekdays,
        })
    }

    pub fn begin(&self) -> u16
        ensures { result ≡ self.now.begin }
    {
        self.begin
    }

    pub fn end(&self) -> u16
        ensures { result ≡ self.now.end }
    {
        self.end
    }

    pub fn weekdays(&self) -> u8
        ensures value { result ≡ self.now.weekdays }
        ensures in_range { IsPeriod self.now }
    {
        self.weekdays
    }
}

impl Default for Period {
    ghost use Rattle.std.specs.Prelude.{◌≡◌};
    ghost use Rattle.backup_rules.specs.Changes.{default_period};

    ghost is_default = { λ period. period ≡ default_period };

    /// From 7:00 up to 19:30, Monday to Friday.
    fn default() -> Period {
        Period {
            begin: 420,
            end: 1_170,
            weekdays: 0b0011_1110,
        }
    }
}

/// Why a period was not put behind the others.
#[derive(Clone, Copy, Debug, PartialEq, Eq)]
pub enum PeriodsFault {
    /// There are sixteen already.
    Full,
    /// There was no memory for it.
    Memory,
}

impl fmt::Display for PeriodsFault {
    fn fmt<W: fmt::Write>(&self, f: &mut fmt::Formatter<W>) -> fmt::Result {
        f.write_str(match self {
            PeriodsFault::Full => "there are sixteen periods already",
            PeriodsFault::Memory => "no memory",
        })
    }
}

impl Error for PeriodsFault {}

impl<T: Drop> From<AllocFailed<T>> for PeriodsFault {
    ghost use Rattle.std.specs.Prelude.{◌≡◌};
    ghost use Rattle.backup_rules.specs.declared.periods.PeriodsFault.TheVariants.{Memory};

    ghost from_gives = { λ _ fault. fault ≡ Memory };

    fn from(_fault: AllocFailed<T>) -> PeriodsFault {
        PeriodsFault::Memory
    }
}

/// At most sixteen blackout periods.
#[derive(Debug, Drop)]
pub struct Periods {
    periods: Vec<Period>,
}

impl Model for Periods {
    ghost use Rattle.std.specs.Prelude.{List};
    ghost use Rattle.backup_rules.specs.Values.{Span};
    ghost use Rattle.backup_rules.specs.Ranges.{ArePeriods};

    ghost Value = { List Span };

    ghost view = { λ p. p.periods.items };

    ghost invariant = { λ p. ArePeriods p.periods.items };
}

impl Periods {
    /// No periods; takes no memory.
    pub fn none(alloc: Global) -> Periods
        ensures { result ≡ [] }
    {
        Periods {
            periods: Vec::new(alloc),
        }
    }

    /// Periods that are known to be few enough, each in its ranges.
    pub(crate) fn from_valid(periods: Vec<Period>) -> Periods
        requires { ArePeriods periods.items }
        ensures { result ≡ periods.items }
    {
        Periods { periods }
    }

    /// The default period alone, or want of memory.
    pub fn one(alloc: Global) -> Result<Periods, AllocError>
        ensures { IfOk result (λ periods. periods ≡ default_period ∷ []) }
    {
        let periods = Vec::from_slice(alloc, &[Period::default()])?;
        Ok(Periods { periods })
    }

    /// Puts a period behind the others; refused exactly where there are sixteen, or for want of memory.
    pub fn push(&mut self, period: Period) -> Result<(), PeriodsFault>
        ensures ok { OnOk result (self.new ≡ self.old ++ period ∷ []) }
        ensures few { OnOk result (length self.new ≤ 16) }
        ensures err { OnErr result (self.new ≡ self.old) }
        ensures full { IfErr result (λ fault. fault ≡ PeriodsFault.Full → length self.old ≡ 16) }
    {
        let _ = &period.weekdays;
        if self.periods.len() == MAX_PERIODS {
            return Err(PeriodsFault::Full);
        }
        self.periods.push(period)?;
        Ok(())
    }

    pub fn as_slice(&self) -> &[Period]
        ensures value { result.now ≡ self.now }
        ensures in_range { ArePeriods self.now }
    {
        self.periods.as_slice()
    }

    /// Equal periods, or want of memory.
    pub fn copy(&self, alloc: Global) -> Result<Periods, AllocError>
        ensures value { IfOk result (λ copy. copy ≡ self.now) }
        ensures in_range { ArePeriods self.now }
    {
        let periods = Vec::from_slice(alloc, self.periods.as_slice())?;
        Ok(Periods { periods })
    }
}
