//! Look-ups of hosts, backups and open sessions, which refuse what isn't there by the rule that it breaks.

ghost use Rattle.std.specs.Prelude.{◌≡◌, ◌<◌, Some, None, length, IfOk, IfErr, slice_get};
ghost use Rattle.std.specs.List.{position_from};
ghost use Rattle.backup_index.specs.Index.{Index};
ghost use Rattle.office_model.specs.declared.refusal.BrokenRule.TheVariants.{NoHost, NoBackup, NoSession};

use crate::parts::StoreParts;
use attr_records::HostName;
use disk_trait::Disk;
use office_model::{BrokenRule, SessionName};
use pool_name::Namer;

impl<D: Disk, N: Namer> StoreParts<D, N> {
    ghost use Rattle.office_catalog.specs.Known.{host_named, names_of, line_numbered};
    ghost use Rattle.receipts.specs.Session.{is_same_session};

    /// The number of the host of a name. It refuses a name that no host has.
    pub fn host(&self, name: &HostName) -> Result<usize, BrokenRule>
        ensures found { IfOk result (λ host. Some host ≡ host_named (names_of self.now.catalog.hosts) name.now) }
        ensures within { IfOk result (λ host. host < length self.now.catalog.hosts) }
        ensures rule { IfErr result (λ rule. rule ≡ NoHost) }
        ensures none { IfErr result (λ rule. None ≡ host_named (names_of self.now.catalog.hosts) name.now) }
    {
        self.catalog.host_at(name).ok_or(BrokenRule::NoHost)
    }

    /// Where the line of the backup of a number stands among the lines of a host. It refuses a number that none of the host's
    /// backups has.
    pub fn line(&self, host: usize, number: u32) -> Result<usize, BrokenRule>
        requires { host < length self.now.catalog.hosts }
        ensures found { IfOk result (λ line. (index : Index) → slice_get self.now.catalog.hosts host ≡ Some index
            → Some line ≡ line_numbered index.lines number) }
        ensures within { IfOk result (λ line. (index : Index) → slice_get self.now.catalog.hosts host ≡ Some index → line < length index.lines) }
        ensures rule { IfErr result (λ rule. rule ≡ NoBackup) }
        ensures none { IfErr result (λ rule. (index : Index) → slice_get self.now.catalog.hosts host ≡ Some index
            → None ≡ line_numbered index.lines number) }
    {
        self.catalog
            .line_at(host, number)
            .ok_or(BrokenRule::NoBackup)
    }

    /// Where the open dump of a name is. It refuses a name that no open dump has.
    pub fn dump(&self, name: SessionName) -> Result<usize, BrokenRule>
        ensures found { IfOk result (λ index. Some index
            ≡ position_from (λ dump. is_same_session dump.name name) 0 self.now.sessions.dumps.items) }
        ensures within { IfOk result (λ index. index < length self.now.sessions.dumps.items) }
        ensures rule { IfErr result (λ rule. rule ≡ NoSession) }
        ensures none { IfErr result (λ rule. None
            ≡ position_from (λ dump. is_same_session dump.name name) 0 self.now.sessions.dumps.items) }
    {
        self.sessions.dump_at(name).ok_or(BrokenRule::NoSession)
    }

    /// Where the open restore of a name is. It refuses a name that no open restore has.
    pub fn restore(&self, name: SessionName) -> Result<usize, BrokenRule>
        ensures found { IfOk result (λ index. Some index
            ≡ position_from (λ restore. is_same_session restore.name name) 0 self.now.sessions.restores.items) }
        ensures within { IfOk result (λ index. index < length self.now.sessions.restores.items) }
        ensures rule { IfErr result (λ rule. rule ≡ NoSession) }
        ensures none { IfErr result (λ rule. None
            ≡ position_from (λ restore. is_same_session restore.name name) 0 self.now.sessions.restores.items) }
    {
        self.sessions.restore_at(name).ok_or(BrokenRule::NoSession)
    }
}
