use crate::office::MemoryOffice;
use attr_records::{HostName, PathName};
use office_model::{Answer, BrokenRule, OfficeStats, Refusal};
use std::alloc::Global;
use stream_traits::Moment;
use tree_parts::{
    count_backups, count_bytes, count_marked, entries_of, host_index, host_names, lines_of,
    node_of_path, partial_at, read_of,
};
use tree_tokens::open_dump_of;
use wake_schedule::{Local, blackout, due};

/// Events that change nothing.
impl MemoryOffice {
    ghost use Rattle.std.specs.Prelude.{◌≡◌, Ok};
    ghost use Rattle.std.specs.Option.{option_copied};
    ghost use Rattle.office_model.specs.events.PartialInfo.{carried as partial_info};
    ghost use Rattle.office_model.specs.events.List.{carried as list};
    ghost use Rattle.office_model.specs.events.Lookup.{carried as lookup};
    ghost use Rattle.office_model.specs.events.ReadFile.{carried as read_file};
    ghost use Rattle.office_model.specs.events.Migrate.{carried as migrate};
    ghost use Rattle.office_model.specs.events.Due.{carried as due};
    ghost use Rattle.office_model.specs.events.Stats.{carried as stats};
    ghost use Rattle.office_model.specs.events.Hosts.{carried as host_list};
    ghost use Rattle.office_model.specs.events.Backups.{carried as backups};
    ghost use Rattle.tree_office.specs.Steps.{IsMemoryStep};

    pub(crate) fn partial_info(&self, name: &HostName) -> Result<Answer, Refusal>
        ensures { IsMemoryStep (partial_info name.now self.now) self.now result self.now }
    {
        let partial = partial_at(&self.hosts, name)?;
        Ok(Answer::Partial {
            entries: partial.tree().len() as u64,
            kind: partial.kind(),
            start: partial.start().seconds(),
        })
    }

    pub(crate) fn list(
        &self,
        alloc: Global,
        name: &HostName,
        number: u32,
        directory: Option<&PathName>,
    ) -> Result<Answer, Refusal>
        ensures { IsMemoryStep (list name.now number (option_copied directory.entry) self.now) self.now result self.now }
    {
        let entries = entries_of(alloc, &self.hosts, name, number, directory)?;
        Ok(Answer::Entries(entries))
    }

    pub(crate) fn lookup(
        &self,
        alloc: Global,
        name: &HostName,
        number: u32,
        path: &PathName,
    ) -> Result<Answer, Refusal>
        ensures { IsMemoryStep (lookup name.now number path.now self.now) self.now result self.now }
    {
        let node = node_of_path(alloc, &self.hosts, name, number, path)?;
        Ok(Answer::Entry(node))
    }

    pub(crate) fn read_file(
        &self,
        alloc: Global,
        name: &HostName,
        number: u32,
        path: &PathName,
    ) -> Result<Answer, Refusal>
        ensures { IsMemoryStep (read_file name.now number path.now self.now) self.now result self.now }
    {
        let bytes = read_of(&self.hosts, name, number, path)?;
        Ok(Answer::Content(bytes.copy(alloc)?))
    }

    /// There are no tables here, and so none of the first layout: a host that is there is done.
    pub(crate) fn migrate(&self, name: &HostName) -> Result<Answer, Refusal>
        ensures { IsMemoryStep (migrate name.now self.now) self.now result self.now }
    {
        match host_index(&self.hosts, name) {
            Some(_) => Ok(Answer::Done),
            None => Err(Refusal::Broken(BrokenRule::NoHost)),
        }
    }

    pub(crate) fn due(
        &self,
        alloc: Global,
        name: &HostName,
        now: Moment,
        local: &Local,
    ) -> Result<Answer, Refusal>
        ensures { IsMemoryStep (due name.now now local.now self.now) self.now result self.now }
    {
        let Some(index) = host_index(&self.hosts, name) else {
            return Err(Refusal::Broken(BrokenRule::NoHost));
        };
        let host = &self.hosts[index];
        let lines = lines_of(alloc, host.backups())?;
        let kind = due(lines.as_slice(), host.rules(), now.seconds());
        let blackout = blackout(host.rules(), host.good(), local);
        Ok(Answer::Due { blackout, kind })
    }

    pub(crate) fn stats(&self) -> Answer
        ensures { stats self.now ≡ Ok (record { answer = result; after = self.now }) }
    {
        Answer::Stats(OfficeStats {
            hosts: self.hosts.len() as u64,
            backups: count_backups(&self.hosts),
            dumps: self.dumps.len() as u64,
            restores: self.restores.len() as u64,
            files: self.pool.len() as u64,
            marked: count_marked(&self.pool),
            bytes: count_bytes(&self.pool),
        })
    }

    pub(crate) fn host_list(&self, alloc: Global) -> Result<Answer, Refusal>
        ensures { IsMemoryStep (host_list self.now) self.now result self.now }
    {
        Ok(Answer::Hosts(host_names(alloc, &self.hosts)?))
    }

    pub(crate) fn backups(&self, alloc: Global, name: &HostName) -> Result<Answer, Refusal>
        ensures { IsMemoryStep (backups name.now self.now) self.now result self.now }
    {
        let Some(index) = host_index(&self.hosts, name) else {
            return Err(Refusal::Broken(BrokenRule::NoHost));
        };
        let host = &self.hosts[index];
        let lines = lines_of(alloc, host.backups())?;
        let next = host.next();
        let dump = open_dump_of(&self.dumps, index);
        Ok(Answer::Backups { lines, next, dump })
    }
}
