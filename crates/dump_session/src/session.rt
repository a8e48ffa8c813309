ghost use Rattle.std.specs.Prelude.{◌≡◌, ◌↔◌, ◌+◌, [], None, Some, true, false, cond, length, is_some, IsTrue, IfOk, IfErr, IfSome, IfNone, OnOk, OnErr};
ghost use Rattle.std.specs.Arc.{arc_value};
ghost use Rattle.std.specs.Option.{option_copied};
ghost use Rattle.attr_records.specs.Paths.{parent};
ghost use Rattle.attr_records.specs.declared.trees.PutRule.{PutRule};
ghost use Rattle.attr_records.specs.Trees.{node_at, with_node, without, IsTree, is_dir_at, is_parent_in, broken_rule};
ghost use Rattle.attr_tables.specs.Records.{IsSound, is_dir};
ghost use Rattle.merge_view.specs.Views.{is_mark};
ghost use Rattle.merge_view.specs.Runs.{within_rows};
ghost use Rattle.dump_session.specs.Kinds.{is_dir_kind};
ghost use Rattle.dump_session.specs.Rules.{IsReason, HasRoom, IsWholeTree, is_full};

use crate::edits::{found_at, is_dir_above, merged, put_node, take_out};
use crate::nodes::{Node, NodeKind};
use crate::subtree::rows_within;
use attr_records::{MAX_PATHS, PathName, PutRule};
use attr_tables::{Record, Table};
use std::alloc::{AllocError, Global};
use std::collections::BTreeMap;
use std::marker::Model;
use std::sync::Arc;

/// Why a node was not put.
#[derive(Clone, Copy, Debug, PartialEq, Eq)]
pub enum PutFault {
    /// The first rule that the put breaks.
    Broken(PutRule),
    /// There was no memory for it.
    Memory,
}

impl From<AllocError> for PutFault {
    ghost use Rattle.dump_session.specs.declared.session.PutFault.TheVariants.{Memory};

    ghost from_gives = { λ _ fault. fault ≡ Memory };

    fn from(_error: AllocError) -> PutFault {
        PutFault::Memory
    }
}

/// Why a path was not removed.
#[derive(Clone, Copy, Debug, PartialEq, Eq)]
pub enum RemoveFault {
    /// Nothing is at the path.
    NoPath,
    /// There was no memory for it.
    Memory,
}

impl From<AllocError> for RemoveFault {
    ghost use Rattle.dump_session.specs.declared.session.RemoveFault.TheVariants.{Memory};

    ghost from_gives = { λ _ fault. fault ≡ Memory };

    fn from(_error: AllocError) -> RemoveFault {
        RemoveFault::Memory
    }
}

/// An open dump's tree. Its base is shared and stays as it is; a put or a removal costs a logarithm of the tree
/// and of the edits, a removal also what it takes out of the puts. The base comes from a disk, which may lie: any
/// rows in order will do, and each call is the edit on them. Which parent is there is told if they are a tree.
#[derive(Debug, Drop)]
pub struct Session {
    base: Arc<Table>,
    removed: BTreeMap<PathName, ()>,
    puts: BTreeMap<PathName, Node>,
    count: usize,
}

impl Model for Session {
    ghost use Rattle.std.specs.Prelude.{List, ℕ};
    ghost use Rattle.std.specs.Arc.{arc_value};
    ghost use Rattle.attr_tables.specs.declared.records.Record.{Record};
    ghost use Rattle.dump_session.specs.Edits.{edited, AreEdits};

    ghost Value = { List (List ℕ × Record) };

    ghost view = { λ s. edited (arc_value s.base) s.removed.entries s.puts.entries };

    ghost invariant = { λ s. AreEdits (arc_value s.base) s.removed.entries s.puts.entries s.count };
}

impl Session {
    /// A dump that begins with the empty tree, or want of memory.
    pub fn begin_full(alloc: Global) -> Result<Session, AllocError>
        ensures { IfOk result (λ session. session ≡ []) }
    {
        let base = Arc::new(alloc, Table::new(alloc))?;
        Ok(Session::begin_incr(alloc, base))
    }

    /// A dump that begins with the rows of a base. Takes no memory, and copies no row.
    pub fn begin_incr(alloc: Global, base: Arc<Table>) -> Session
        ensures { result ≡ arc_value base }
    {
        let count = base.rows().len();
        Session {
            base,
            removed: BTreeMap::new(alloc),
            puts: BTreeMap::new(alloc),
            count,
        }
    }

    /// How many paths the tree has.
    pub fn len(&self) -> usize
        ensures { result ≡ length self.now }
    {
        self.count
    }

    pub fn is_empty(&self) -> bool
        ensures { IsTrue result ↔ (self.now ≡ []) }
    {
        self.count == 0
    }

    /// What is at a path of the tree.
    pub fn find(&self, path: &PathName) -> Option<&Record>
        ensures { option_copied result ≡ node_at self.now path.now }
    {
        found_at(self.base.rows(), &self.removed, &self.puts, path)
    }

    /// Whether a Dir is at a path of the tree.
    fn is_dir_at(&self, path: &PathName) -> bool
        ensures { result ≡ is_dir_at is_dir self.now path.now }
    {
        match self.find(path) {
            Some(node) => node.is_dir(),
            None => false,
        }
    }

    /// Whether a path lies in the root or in a Dir of the tree.
    fn has_parent(&self, path: &PathName) -> bool
        ensures { IsTree is_dir self.now → result ≡ is_parent_in is_dir self.now (parent path.now) }
    {
        match path.parent() {
            None => true,
            Some(directory) => is_dir_above(
                self.base.rows(),
                &self.removed,
                &self.puts,
                path,
                directory,
            ),
        }
    }

    /// The first rule that a put breaks, of a Dir or of another node.
    fn broken_rule(&self, path: &PathName, dir: bool) -> Option<PutRule>
        ensures exact { IsTree is_dir self.now → result ≡ broken_rule is_dir self.now path.now dir false }
        ensures reason { IfSome result (IsReason self.now path.now dir) }
        ensures room { IfNone result (HasRoom self.now path.now dir) }
    {
        if !self.has_parent(path) {
            return Some(PutRule::NoParent);
        }
        if self.is_dir_at(path) && !dir {
            return Some(PutRule::IsDirectory);
        }
        if self.len() >= MAX_PATHS && self.find(path).is_none() {
            return Some(PutRule::TooManyEntries);
        }
        None
    }

    /// The first rule that a put of such a node at a path breaks, and no change. Takes no memory.
    pub fn check_put(&self, path: &PathName, kind: NodeKind) -> Result<(), PutRule>
        ensures ok { IsTree is_dir self.now → OnOk result (broken_rule is_dir self.now path.now (is_dir_kind kind) false ≡ None) }
        ensures rule { IsTree is_dir self.now → IfErr result (λ rule. broken_rule is_dir self.now path.now (is_dir_kind kind) false ≡ Some rule) }
        ensures room { OnOk result (HasRoom self.now path.now (is_dir_kind kind)) }
        ensures reason { IfErr result (IsReason self.now path.now (is_dir_kind kind)) }
    {
        match self.broken_rule(path, kind.is_dir()) {
            Some(rule) => Err(rule),
            None => Ok(()),
        }
    }

    /// Puts a node at a path, in the place of what was there; or says the first rule that this breaks, or want of
    /// memory, and leaves the tree as it was.
    pub fn put(&mut self, path: PathName, node: Record) -> Result<(), PutFault>
        requires sound { IsSound node }
        requires no_mark { is_mark node ≡ false }
        ensures put { OnOk result (self.new ≡ with_node self.old path node) }
        ensures ok { IsTree is_dir self.old → OnOk result (broken_rule is_dir self.old path (is_dir node) false ≡ None) }
        ensures room { OnOk result (HasRoom self.old path (is_dir node)) }
        ensures err { OnErr result (self.new ≡ self.old) }
        ensures rule { IsTree is_dir self.old → IfErr result (λ fault. (rule : PutRule) → fault ≡ PutFault.Broken rule
            → broken_rule is_dir self.old path (is_dir node) false ≡ Some rule) }
        ensures reason { IfErr result (λ fault. (rule : PutRule) → fault ≡ PutFault.Broken rule → IsReason self.old path (is_dir node) rule) }
        ensures whole { IsWholeTree self.old → IsWholeTree self.new }
    {
        match self.broken_rule(&path, node.is_dir()) {
            Some(rule) => return Err(PutFault::Broken(rule)),
            None => {}
        }
        let count = self.count_with(&path);
        put_node(&mut self.puts, path, Node::new(node))?;
        self.count = count;
        Ok(())
    }

    /// How many paths the tree has with this one.
    fn count_with(&self, path: &PathName) -> usize
        requires { is_full self.now path.now ≡ false }
        ensures { result ≡ cond (is_some (node_at self.now path.now)) (length self.now) (length self.now + 1) }
    {
        match self.find(path) {
            Some(_) => self.count,
            None => self.count + 1,
        }
    }

    /// Takes a path and all below it out of the tree; or says that nothing is there, or want of memory, and leaves
    /// the tree as it was.
    pub fn remove(&mut self, alloc: Global, path: &PathName) -> Result<(), RemoveFault>
        ensures ok { OnOk result ((is_some (node_at self.old path.now) ≡ true) × (self.new ≡ without self.old path.now)) }
        ensures err { OnErr result (self.new ≡ self.old) }
        ensures no_path { IfErr result (λ fault. fault ≡ RemoveFault.NoPath → node_at self.old path.now ≡ None) }
        ensures whole { IsWholeTree self.old → IsWholeTree self.new }
    {
        if self.find(path).is_none() {
            return Err(RemoveFault::NoPath);
        }
        let count = take_out(
            alloc,
            self.base.rows(),
            &mut self.removed,
            &mut self.puts,
            path,
        )?;
        self.count -= count;
        Ok(())
    }

    /// The rows of the tree within a path, or want of memory: linear in what the base and the puts have there.
    pub fn within(&self, alloc: Global, path: &PathName) -> Result<Table, AllocError>
        ensures { IfOk result (λ rows. rows ≡ within_rows path.now self.now) }
    {
        let rows = rows_within(alloc, self.base.rows(), &self.removed, &self.puts, path)?;
        Ok(rows)
    }

    /// All rows of the tree, or want of memory: one merge.
    pub fn tree(&self, alloc: Global) -> Result<Table, AllocError>
        ensures { IfOk result (λ tree. tree ≡ self.now) }
    {
        let rows = merged(alloc, self.base.rows(), &self.removed, &self.puts)?;
        Ok(Table::from_rows(rows))
    }
}
