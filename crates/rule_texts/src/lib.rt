//! The texts of the lists among a host's rules: `BlackoutPeriods`, as `420-1170:12345;1320-360:6`, which a settings file and a
//! query write so, and `FullKeepCnt`, as `4,2,3`, in a query. It knows bytes and rules. The main clauses: what is read is
//! `periods_of` or `counts_of` of the text, and a text is refused exactly if that is nothing.
//!
//! ```text
//! let periods = read_periods(alloc, b"420-1170:12345")?;
//! let counts = read_counts(alloc, b"4,2,3")?;
//! ```
#![tactic(auto)]

mod counts;
mod fault;
mod periods;
mod pieces;

pub use counts::read_counts;
pub use fault::TextFault;
pub use periods::read_periods;
