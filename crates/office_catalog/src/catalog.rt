//! The catalog, its look-ups and how a change is made.

ghost use Rattle.std.specs.Prelude.{◌≡◌, ◌↔◌, ◌<◌, ◌≤◌, ℕ, [], true, false, length, IsTrue, IfOk, IfSome, Some, slice_get};
ghost use Rattle.std.specs.Option.{option_copied};
ghost use Rattle.backup_index.specs.Names.{has_name};
ghost use Rattle.backup_index.specs.Lines.{IsSound};
ghost use Rattle.backup_index.specs.Index.{Index};
ghost use Rattle.office_catalog.specs.Known.{known_of, names_of, host_named, line_numbered, with_host, with_change, with_epoch, given_rules, given_contacts, given_lines, given_commit, receipt_named, IsCatalog};
ghost use Rattle.office_catalog.specs.Changed.{IsNewHost};

use crate::edits::{CatalogChange, CatalogEdit};
use crate::named::{NamedHost, find, place_of};
use attr_records::HostName;
use backup_index::{HostIndex, Line, LineList, MAX_HOSTS, Rules};
use receipts::{Receipt, ReceiptList, SessionName};
use std::alloc::{AllocError, Global};
use std::marker::Model;

/// The place of the line of a number, by halving lines whose numbers rise.
fn line_place(lines: &[Line], number: u32) -> Option<usize>
    requires { (next : ℕ) × IsSound next lines.now }
    ensures value { result ≡ line_numbered lines.now number }
    ensures within { IfSome result (λ index. index < length lines.now) }
{
    match lines.binary_search_by(|line| line.number.cmp(&number)) {
        Ok(index) => Some(index),
        Err(_) => None,
    }
}

/// The epoch of a store and the indices of its hosts, in the order of adding. Room for all hosts is taken when it is
/// made, so that adding one takes no memory.
#[derive(Drop)]
pub struct Catalog {
    epoch: u64,
    hosts: Vec<HostIndex>,
    named: Vec<NamedHost>,
}

impl Model for Catalog {
    ghost use Rattle.office_catalog.specs.Known.{Known, known_of};
    ghost use Rattle.office_catalog.specs.Kept.{IsKept};

    ghost Value = { Known };

    ghost view = { λ c. known_of c.epoch c.hosts.items };

    ghost invariant = { λ c. IsKept c.hosts c.named };
}

impl Catalog {
    /// No hosts, at this epoch.
    pub(crate) fn with_epoch(alloc: Global, epoch: u64) -> Result<Catalog, AllocError>
        ensures { IfOk result (λ catalog. catalog ≡ known_of epoch []) }
    {
        Ok(Catalog {
            epoch,
            hosts: Vec::with_capacity(alloc, MAX_HOSTS)?,
            named: Vec::with_capacity(alloc, MAX_HOSTS)?,
        })
    }

    /// How many times the store was opened.
    pub fn epoch(&self) -> u64
        ensures { result ≡ self.now.epoch }
    {
        self.epoch
    }

    /// The index of each host, in the order of adding.
    pub fn hosts(&self) -> &[HostIndex]
        ensures hosts { result.now ≡ self.now.hosts }
        ensures are { IsCatalog self.now.hosts }
    {
        self.hosts.as_slice()
    }

    /// Whether there are as many hosts as there may be.
    pub fn is_full(&self) -> bool
        ensures full { IsTrue result ↔ (length self.now.hosts ≡ 1024) }
        ensures room { result ≡ false → length self.now.hosts < 1024 }
    {
        self.hosts.len() == MAX_HOSTS
    }

    /// The number of the host of a name, by halving.
    pub fn host_at(&self, name: &HostName) -> Option<usize>
        ensures value { result ≡ host_named (names_of self.now.hosts) name.now }
        ensures within { IfSome result (λ host. host < length self.now.hosts) }
    {
        match find(self.named.as_slice(), name) {
            Some(named) => Some(named.number as usize),
            None => None,
        }
    }

    /// Whether a host has the name.
    pub fn has(&self, name: &HostName) -> bool
        ensures { result ≡ has_name (names_of self.now.hosts) name.now }
    {
        self.host_at(name).is_some()
    }

    /// The index of a host, if there is one of this number.
    pub fn index(&self, host: usize) -> Option<&HostIndex>
        ensures { option_copied result ≡ slice_get self.now.hosts host }
    {
        self.hosts.as_slice().get(host)
    }

    /// Where the line of the backup of a number stands among the lines of a host, by halving.
    pub fn line_at(&self, host: usize, number: u32) -> Option<usize>
        requires { host < length self.now.hosts }
        ensures value { (index : Index) → slice_get self.now.hosts host ≡ Some index → result ≡ line_numbered index.lines number }
        ensures within { IfSome result (λ line. (index : Index) → slice_get self.now.hosts host ≡ Some index → line < length index.lines) }
    {
        line_place(self.hosts[host].lines().lines(), number)
    }

    /// The receipt of the commit of the dump of this name, of whatever host.
    pub fn receipt_named(&self, name: SessionName) -> Option<Receipt>
        ensures { result ≡ receipt_named self.now.hosts name }
    {
        for index in self.hosts() {
            let receipt = index.receipts().of_dump(name);
            if receipt.is_some() {
                return receipt;
            }
        }
        None
    }

    /// Puts a host behind the others; takes no memory.
    pub(crate) fn add(&mut self, named: NamedHost, index: HostIndex)
        requires { IsNewHost self.old named index }
        ensures { self.new ≡ with_host self.old index }
    {
        let place = place_of(self.named.as_slice(), &named.name);
        match self.named.insert(place, named) {
            Ok(()) => {}
            Err(_) => unreachable!(),
        }
        match self.hosts.push(index) {
            Ok(()) => {}
            Err(_) => unreachable!(),
        }
    }

    /// Gives a host other rules.
    fn set_rules(&mut self, host: usize, rules: Rules)
        requires { host < length self.old.hosts }
        ensures { self.new ≡ with_change self.old host (given_rules rules) }
    {
        self.hosts[host].set_rules(rules);
    }

    /// Gives a host other numbers of contacts.
    fn set_contacts(&mut self, host: usize, good: u32, bad: u32)
        requires { host < length self.old.hosts }
        ensures { self.new ≡ with_change self.old host (given_contacts good bad) }
    {
        self.hosts[host].set_contacts(good, bad);
    }

    /// Gives a host other lines and another next number.
    fn set_lines(&mut self, host: usize, next: u64, lines: LineList)
        requires host { host < length self.old.hosts }
        requires sound { IsSound next lines }
        ensures { self.new ≡ with_change self.old host (given_lines next lines) }
    {
        match self.hosts[host].set_lines(next, lines) {
            Ok(()) => {}
            Err(_) => unreachable!(),
        }
    }

    /// Gives a host what a commit changes: other lines, another next number and other receipts.
    fn set_commit(&mut self, host: usize, next: u64, receipts: ReceiptList, lines: LineList)
        requires host { host < length self.old.hosts }
        requires sound { IsSound next lines }
        ensures { self.new ≡ with_change self.old host (given_commit next receipts lines) }
    {
        match self.hosts[host].set_commit(next, receipts, lines) {
            Ok(()) => {}
            Err(_) => unreachable!(),
        }
    }

    /// Gives the store another epoch.
    fn set_epoch(&mut self, epoch: u64)
        ensures { self.new ≡ with_epoch self.old epoch }
    {
        self.epoch = epoch;
    }
}

impl Catalog {
    ghost use Rattle.office_catalog.specs.Changed.{after, IsFor};

    /// Makes a change that was proposed, after the journal's commit; takes no memory.
    pub fn accept(&mut self, change: CatalogChange)
        requires { IsFor self.old change }
        ensures { self.new ≡ after change self.old }
    {
        let CatalogChange {
            edit,
            changes: _changes,
        } = change;
        match edit {
            CatalogEdit::AddHost { named, index } => self.add(named, index),
            CatalogEdit::SetRules { host, rules } => self.set_rules(host, rules),
            CatalogEdit::SetContacts { host, good, bad } => self.set_contacts(host, good, bad),
            CatalogEdit::SetLines { host, next, lines } => self.set_lines(host, next, lines),
            CatalogEdit::SetCommit {
                host,
                next,
                receipts,
                lines,
            } => self.set_commit(host, next, receipts, lines),
            CatalogEdit::SetEpoch { epoch } => self.set_epoch(epoch),
        }
    }
}
