//! The files that say what a store keeps: the head file, with the names of its hosts, and the index of each host.
#![tactic(auto)]

mod fault;
mod fields;
mod head;
mod head_reading;
mod head_writing;
mod index;
mod index_reading;
mod index_writing;
mod layouts;
mod limits;
mod lines;
mod names;
mod parts;
mod receipt_reading;
mod receipt_writing;

pub use backup_rules::{
    KeepCounts, Kind, Line, OutOfRange, Period, Periods, PeriodsFault, RuleChange, Rules, SETTINGS,
    Setting, fill_rule,
};
pub use fault::IndexFault;
pub use head::HeadFile;
pub use head_reading::read_head_file;
pub use head_writing::write_head_file;
pub use index::{HostIndex, broken_index};
pub use index_reading::read_host_index;
pub use index_writing::write_host_index;
pub use layouts::IndexLayout;
pub use limits::{MAX_HOSTS, MAX_NEXT};
pub use lines::{AppendFault, IndexRule, LineList};
pub use names::{NameList, NameRefusal};
pub use parts::HostParts;
