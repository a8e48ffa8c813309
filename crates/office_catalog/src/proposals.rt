//! Changes that are proposed: what is known after each, and the files that change. A proposal changes nothing, and is
//! refused for want of memory alone.

ghost use Rattle.std.specs.Prelude.{◌≡◌, ◌<◌, ◌≤◌, ◌+◌, ◌++◌, ℕ, true, false, [], ◌∷◌, length, IfOk, OnOk, Some, slice_get};
ghost use Rattle.disk_trait.specs.declared.ids.FileId.TheVariants.{Head, Host};
ghost use Rattle.intent_journal.specs.declared.changes.Change.{Change as FileChange};
ghost use Rattle.backup_index.specs.Names.{AreNames, has_name};
ghost use Rattle.backup_index.specs.Lines.{IsSound};
ghost use Rattle.backup_index.specs.Index.{Index};
ghost use Rattle.backup_index.specs.Stored.{index_of_parts};
ghost use Rattle.office_catalog.specs.Known.{names_of, with_host, with_change, with_epoch, new_host, given_rules, given_contacts, given_lines, given_commit, with_given, last_filled, kept_at, with_line, with_keep};
ghost use Rattle.office_catalog.specs.Held.{HoldsHead, HoldsIndex};
ghost use Rattle.office_catalog.specs.Changed.{Proposes, IsFor};

use crate::catalog::Catalog;
use crate::edits::{CatalogChange, CatalogEdit};
use crate::named::NamedHost;
use attr_records::HostName;
use backup_index::{
    HeadFile, HostIndex, HostParts, Line, LineList, NameList, Rules, broken_index, write_head_file,
    write_host_index,
};
use disk_trait::FileId;
use intent_journal::{Change, Changes};
use receipts::{Receipt, ReceiptList};
use std::alloc::{AllocError, Global};

/// The change of Head to what a head says.
fn head_change(alloc: Global, head: &HeadFile) -> Result<Change, AllocError>
    ensures file { IfOk result (λ change. change.file ≡ Head) }
    ensures holds { IfOk result (λ change. HoldsHead head.now change.bytes) }
{
    let bytes = write_head_file(alloc, head)?;
    Ok(Change {
        file: FileId::Head,
        bytes: Some(bytes),
    })
}

/// The change of a host's file to the index of these parts.
fn host_change(alloc: Global, parts: &HostParts) -> Result<Change, AllocError>
    requires { IsSound parts.now.next (parts.now.lines.now ++ parts.now.more.now) }
    ensures file { IfOk result (λ change. change.file ≡ Host parts.now.host) }
    ensures holds { IfOk result (λ change. HoldsIndex (index_of_parts parts.now) change.bytes) }
{
    let bytes = write_host_index(alloc, parts)?;
    Ok(Change {
        file: FileId::Host(parts.host),
        bytes: Some(bytes),
    })
}

/// The number above one.
fn number_above(number: u32) -> u64
    ensures value { result ≡ number + 1 }
    ensures small { number < 4294967296 }
{
    u64::from(number) + 1
}

/// One change.
fn one_change(alloc: Global, change: Change) -> Result<Changes, AllocError>
    ensures { IfOk result (λ changes. changes ≡ change ∷ []) }
{
    let mut changes = Changes::new(alloc);
    changes.push(change)?;
    Ok(changes)
}

/// Fills the last line so.
fn fill_last(lines: &mut LineList, filled: bool)
    ensures { lines.new ≡ last_filled filled lines.old }
{
    let len = lines.len();
    if len == 0 {
        return;
    }
    let line = lines.lines()[len - 1];
    lines.set(len - 1, Line { filled, ..line });
}

/// Keeps a line so.
fn keep_line(lines: &mut LineList, index: usize, keep: bool)
    requires { index < length lines.old }
    ensures { lines.new ≡ kept_at keep index lines.old }
{
    let line = lines.lines()[index];
    lines.set(index, Line { keep, ..line });
}

/// The receipts with one more, if there is one, which takes the place of the oldest if there are 256.
fn receipts_with(
    alloc: Global,
    receipts: &ReceiptList,
    receipt: Option<Receipt>,
) -> Result<ReceiptList, AllocError>
    ensures { IfOk result (λ new. new ≡ with_given receipt receipts.now) }
{
    let mut new = receipts.copy(alloc)?;
    if let Some(receipt) = receipt {
        new.keep(receipt)?;
    }
    Ok(new)
}

impl Catalog {
    /// The names of the hosts, in the order of adding.
    fn names(&self, alloc: Global) -> Result<NameList, AllocError>
        ensures { IfOk result (λ names. names ≡ names_of self.now.hosts) }
    {
        let mut names = NameList::new(alloc);
        for index in self.hosts() {
            names.add(index.name().copy(alloc)?)?;
        }
        Ok(names)
    }

    /// Adds a host with these rules, of which nothing else is known: Head and its file change.
    pub fn propose_host(
        &self,
        alloc: Global,
        name: HostName,
        rules: Rules,
    ) -> Result<CatalogChange, AllocError>
        requires room { length self.now.hosts < 1024 }
        requires fresh { has_name (names_of self.now.hosts) name ≡ false }
        ensures proposes { IfOk result (Proposes self.now (with_host self.now (new_host (length self.now.hosts) name rules))
            (Head ∷ Host (length self.now.hosts) ∷ [])) }
        ensures fits { IfOk result (IsFor self.now) }
    {
        let number = self.hosts().len() as u32;
        let index = HostIndex::from_sound(
            number,
            name,
            rules,
            0,
            0,
            0,
            ReceiptList::new(alloc),
            LineList::new(alloc),
        );
        let mut names = self.names(alloc)?;
        names.add(index.name().copy(alloc)?)?;
        let epoch = self.epoch();
        let head = head_change(alloc, &HeadFile { epoch, names })?;
        let host = host_change(alloc, &index.parts())?;
        let name = index.name().copy(alloc)?;
        let named = NamedHost { name, number };
        let mut changes = one_change(alloc, head)?;
        changes.push(host)?;
        let edit = CatalogEdit::AddHost { named, index };
        Ok(CatalogChange { edit, changes })
    }

    /// Gives a host other rules: its file changes.
    pub fn propose_rules(
        &self,
        alloc: Global,
        host: usize,
        rules: Rules,
    ) -> Result<CatalogChange, AllocError>
        requires { host < length self.now.hosts }
        ensures proposes { IfOk result (Proposes self.now (with_change self.now host (given_rules rules)) (Host host ∷ [])) }
        ensures fits { IfOk result (IsFor self.now) }
    {
        let parts = self.hosts()[host].parts();
        let change = host_change(
            alloc,
            &HostParts {
                rules: &rules,
                ..parts
            },
        )?;
        let changes = one_change(alloc, change)?;
        let edit = CatalogEdit::SetRules { host, rules };
        Ok(CatalogChange { edit, changes })
    }

    /// Gives a host other numbers of contacts: its file changes.
    pub fn propose_contacts(
        &self,
        alloc: Global,
        host: usize,
        good: u32,
        bad: u32,
    ) -> Result<CatalogChange, AllocError>
        requires { host < length self.now.hosts }
        ensures proposes { IfOk result (Proposes self.now (with_change self.now host (given_contacts good bad)) (Host host ∷ [])) }
        ensures fits { IfOk result (IsFor self.now) }
    {
        let parts = self.hosts()[host].parts();
        let change = host_change(alloc, &HostParts { good, bad, ..parts })?;
        let changes = one_change(alloc, change)?;
        let edit = CatalogEdit::SetContacts { host, good, bad };
        Ok(CatalogChange { edit, changes })
    }

    /// Gives a host other lines and another next number, which break no rule: its file changes.
    fn propose_next(
        &self,
        alloc: Global,
        host: usize,
        next: u64,
        lines: LineList,
    ) -> Result<CatalogChange, AllocError>
        requires host { host < length self.now.hosts }
        requires sound { IsSound next lines }
        ensures proposes { IfOk result (Proposes self.now (with_change self.now host (given_lines next lines)) (Host host ∷ [])) }
        ensures fits { IfOk result (IsFor self.now) }
    {
        let parts = self.hosts()[host].parts();
        let change = host_change(
            alloc,
            &HostParts {
                next,
                lines: lines.lines(),
                more: &[],
                ..parts
            },
        )?;
        let changes = one_change(alloc, change)?;
        let edit = CatalogEdit::SetLines { host, next, lines };
        Ok(CatalogChange { edit, changes })
    }

    /// Gives a host what a commit changes: other lines and another next number, which break no rule, and other receipts; its file
    /// changes.
    fn propose_commit(
        &self,
        alloc: Global,
        host: usize,
        next: u64,
        receipts: ReceiptList,
        lines: LineList,
    ) -> Result<CatalogChange, AllocError>
        requires host { host < length self.now.hosts }
        requires sound { IsSound next lines }
        ensures proposes { IfOk result (Proposes self.now (with_change self.now host (given_commit next receipts lines)) (Host host ∷ [])) }
        ensures fits { IfOk result (IsFor self.now) }
    {
        let parts = self.hosts()[host].parts();
        let change = host_change(
            alloc,
            &HostParts {
                next,
                receipts: &receipts,
                lines: lines.lines(),
                more: &[],
                ..parts
            },
        )?;
        let changes = one_change(alloc, change)?;
        let edit = CatalogEdit::SetCommit {
            host,
            next,
            receipts,
            lines,
        };
        Ok(CatalogChange { edit, changes })
    }

    /// Whether a backup of this number may follow the others of a host: it isn't below the next number.
    pub fn may_follow(&self, host: usize, number: u32) -> bool
        requires { host < length self.now.hosts }
        ensures follows { result ≡ true → (index : Index) → slice_get self.now.hosts host ≡ Some index → index.next ≤ number }
        ensures below { result ≡ false → (index : Index) → slice_get self.now.hosts host ≡ Some index → number < index.next }
    {
        self.hosts()[host].next() <= u64::from(number)
    }

    /// Whether a host may have these lines: they break no rule below its next number.
    pub fn may_have(&self, host: usize, lines: &LineList) -> bool
        requires { host < length self.now.hosts }
        ensures sound { result ≡ true → (index : Index) → slice_get self.now.hosts host ≡ Some index → IsSound index.next lines.now }
        ensures broken { result ≡ false → (index : Index) → slice_get self.now.hosts host ≡ Some index → IsSound index.next lines.now → ⊥ }
    {
        broken_index(self.hosts()[host].next(), lines.lines()).is_none()
    }

    /// Puts the line of a further backup behind the others of a host, fills the former newest so, and keeps the receipt of the
    /// commit, if it has one: the host's file changes. The next number is then the one above the line's, which isn't below the
    /// next one (`may_follow` tells).
    pub fn propose_line(
        &self,
        alloc: Global,
        host: usize,
        line: Line,
        filled: bool,
        receipt: Option<Receipt>,
    ) -> Result<CatalogChange, AllocError>
        requires host { host < length self.now.hosts }
        requires rising { (index : Index) → slice_get self.now.hosts host ≡ Some index → index.next ≤ line.number }
        requires filled { line.filled ≡ true }
        ensures proposes { IfOk result (Proposes self.now (with_change self.now host (with_line line filled receipt)) (Host host ∷ [])) }
        ensures fits { IfOk result (IsFor self.now) }
    {
        let index = &self.hosts()[host];
        let receipts = receipts_with(alloc, index.receipts(), receipt)?;
        let mut lines = index.lines().copy(alloc)?;
        fill_last(&mut lines, filled);
        lines.push(line)?;
        self.propose_commit(alloc, host, number_above(line.number), receipts, lines)
    }

    /// Sets the keep flag of a line of a host: its file changes.
    pub fn propose_keep(
        &self,
        alloc: Global,
        host: usize,
        line: usize,
        keep: bool,
    ) -> Result<CatalogChange, AllocError>
        requires host { host < length self.now.hosts }
        requires line { (index : Index) → slice_get self.now.hosts host ≡ Some index → line < length index.lines }
        ensures proposes { IfOk result (Proposes self.now (with_change self.now host (with_keep line keep)) (Host host ∷ [])) }
        ensures fits { IfOk result (IsFor self.now) }
    {
        let index = &self.hosts()[host];
        let mut lines = index.lines().copy(alloc)?;
        keep_line(&mut lines, line, keep);
        self.propose_next(alloc, host, index.next(), lines)
    }

    /// Gives a host other lines, which break no rule below its next number (`may_have` tells): its file changes.
    pub fn propose_lines(
        &self,
        alloc: Global,
        host: usize,
        lines: LineList,
    ) -> Result<CatalogChange, AllocError>
        requires host { host < length self.now.hosts }
        requires sound { (index : Index) → slice_get self.now.hosts host ≡ Some index → IsSound index.next lines }
        ensures proposes { IfOk result (Proposes self.now (with_change self.now host (λ index. given_lines index.next lines index)) (Host host ∷ [])) }
        ensures fits { IfOk result (IsFor self.now) }
    {
        let next = self.hosts()[host].next();
        self.propose_next(alloc, host, next, lines)
    }

    /// Raises the epoch by one: Head changes.
    pub fn propose_epoch(&self, alloc: Global) -> Result<CatalogChange, AllocError>
        requires { self.now.epoch < 18446744073709551615 }
        ensures proposes { IfOk result (Proposes self.now (with_epoch self.now (self.now.epoch + 1)) (Head ∷ [])) }
        ensures fits { IfOk result (IsFor self.now) }
    {
        let epoch = self.epoch() + 1;
        let names = self.names(alloc)?;
        let change = head_change(alloc, &HeadFile { epoch, names })?;
        let changes = one_change(alloc, change)?;
        let edit = CatalogEdit::SetEpoch { epoch };
        Ok(CatalogChange { edit, changes })
    }
}
