use backup_rules::Rules;
use wake_schedule::Zone;

/// What the settings of the server add to a request.
#[derive(Debug, Drop)]
pub struct Defaults {
    /// The rules of a host that is added.
    pub rules: Rules,
    /// The zone whose clock decides what is due.
    pub zone: Zone,
}
