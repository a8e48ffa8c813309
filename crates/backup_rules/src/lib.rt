//! The rules of a host: its settings, as BackupPC 4's documentation names them, with their ranges, their defaults and
//! changes of them; a backup's line; the rule that tells which backup stays filled; and the layouts of rules and lines.
#![tactic(auto)]

mod change;
mod counts;
mod faults;
mod layouts;
mod lines;
mod numbers;
mod periods;
mod reading;
mod rules;
mod settings;
mod writing;

pub use change::RuleChange;
pub use counts::{KeepCounts, MAX_COUNT, MAX_COUNTS};
pub use faults::{OutOfRange, RulesFault};
pub use layouts::RulesLayout;
pub use lines::{Kind, Line, fill_rule};
pub use periods::{MAX_PERIODS, Period, Periods, PeriodsFault};
pub use reading::{read_kind, read_line, read_rules};
pub use rules::Rules;
pub use settings::{SETTING_COUNT, SETTINGS, Setting};
pub use writing::{put_kind, put_line, put_rules};
