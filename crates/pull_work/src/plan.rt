//! What a pull is to do.

use attr_records::HostName;
use backup_rules::Rules;
use stream_traits::Moment;

/// What a pull is to do: the backups of a host are brought.
#[derive(Debug, Drop)]
pub struct Plan {
    pub host: HostName,
    /// With these rules the host is added, if it isn't at home.
    pub rules: Rules,
    /// The moment at which its dumps are opened.
    pub start: Moment,
}
