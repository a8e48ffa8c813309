/// How rules stand in a file.
#[derive(Clone, Copy, Debug, PartialEq, Eq)]
pub enum RulesLayout {
    /// The settings up to BlackoutPeriods; those of old backups have their defaults.
    First,
    /// All settings, those of old backups last.
    Second,
}
