use backup_rules::RulesLayout;

/// How the index of a host stands in a file, which its first four bytes tell.
#[derive(Clone, Copy, Debug, PartialEq, Eq)]
pub enum IndexLayout {
    /// `RHI1`: rules without settings of old backups.
    First,
    /// `RHI2`: rules with all settings.
    Second,
    /// `RHI3`: receipts, too.
    Third,
}

impl IndexLayout {
    ghost use Rattle.std.specs.Prelude.{◌≡◌};
    ghost use Rattle.backup_index.specs.Index.{rules_layout};

    /// How its rules stand.
    pub fn rules(self) -> RulesLayout
        ensures { result ≡ rules_layout self }
    {
        match self {
            IndexLayout::First => RulesLayout::First,
            IndexLayout::Second | IndexLayout::Third => RulesLayout::Second,
        }
    }
}
