ghost use Rattle.std.specs.Prelude.{◌≡◌, ◌≤◌, ◌++◌, ◌∷◌, ◌↔◌, [], true, false, length, OnOk, OnErr, IfErr, IsTrue};
ghost use Rattle.std.specs.Option.{option_copied};
ghost use Rattle.attr_records.specs.Items.{is_dir};
ghost use Rattle.attr_records.specs.Paths.{path_cmp, parent};
ghost use Rattle.attr_records.specs.Trees.{node_at, is_parent_in};
ghost use Rattle.ordered_lists.specs.Order.{IsInOrder, is_after};
ghost use Rattle.restore_stream.specs.Trees.{IsAttr, IsItem, IsInRange, IsMadeTree, may_follow};

use attr_records::{Attr, Item, MAX_PATHS, PathName, compare, parent};
use ordered_lists::Entry;
use std::alloc::Global;
use std::cmp::Ordering;
use std::marker::Model;

/// The numbers of attributes are in their ranges.
fn attr_in_range(attr: Attr)
    ensures { IsAttr attr }
{
    let _mode = attr.mode();
    let _uid = attr.uid();
    let _gid = attr.gid();
    let _mtime = attr.mtime();
    let _nanos = attr.nanos();
}

/// The numbers and texts of an item are in their ranges.
fn item_in_range(item: &Item)
    ensures { IsItem item.now }
{
    match item {
        Item::File(file) => {
            attr_in_range(file.attr);
            let _group = file.group;
            let _size = file.bytes.len();
        }
        Item::Dir(dir) => attr_in_range(dir.attr),
        Item::Link(link) => {
            attr_in_range(link.attr);
            let _target = link.target.as_slice();
        }
    }
}

/// A path, and what stands at it.
#[derive(Debug, Drop)]
pub struct Made {
    path: PathName,
    item: Item,
}

impl Model for Made {
    ghost use Rattle.std.specs.Prelude.{List, ℕ};
    ghost use Rattle.attr_records.specs.declared.nodes.Item.{Item};
    ghost use Rattle.restore_stream.specs.Trees.{IsInRange};

    ghost Value = { List ℕ × Item };

    ghost view = { λ m. (m.path, m.item) };

    ghost invariant = { λ m. IsInRange (m.path, m.item) };
}

impl Made {
    pub fn new(path: PathName, item: Item) -> Made
        ensures { result ≡ (path, item) }
    {
        let _valid = path.as_slice();
        item_in_range(&item);
        Made { path, item }
    }

    pub fn path(&self) -> &PathName
        ensures value { result.now ≡ self.now.0 }
        ensures range { IsInRange self.now }
    {
        &self.path
    }

    pub fn item(&self) -> &Item
        ensures { result.now ≡ self.now.1 }
    {
        &self.item
    }

    /// The path and what stands at it, which takes no memory.
    pub fn into_parts(self) -> (PathName, Item)
        ensures { result ≡ self }
    {
        (self.path, self.item)
    }
}

impl Entry for Made {
    ghost use Rattle.std.specs.Prelude.{List, ℕ};
    ghost use Rattle.attr_records.specs.Paths.{path_cmp};
    ghost use Rattle.attr_records.specs.PathLaws.{path_cmp_total};
    ghost use Rattle.attr_records.specs.declared.nodes.Item.{Item};

    ghost Key = { List ℕ };

    ghost Held = { Item };

    ghost entry = { λ made. made };

    ghost order = { path_cmp };

    ghost total = { path_cmp_total };

    fn compare(&self, other: &Made) -> Ordering {
        self.path.cmp(&other.path)
    }
}

/// The item at a path of rows in order, by halving them.
fn find<'a>(rows: &'a [Made], path: &[u8]) -> Option<&'a Item>
    requires { IsInOrder path_cmp rows.now }
    ensures { option_copied result ≡ node_at rows.now path.now }
{
    match ordered_lists::find(rows, |made: &Made| compare(made.path().as_slice(), path)) {
        Some(made) => Some(made.item()),
        None => None,
    }
}

/// Whether a path lies in the root or in a Dir of the rows.
fn has_parent(rows: &[Made], path: &[u8]) -> bool
    requires { IsInOrder path_cmp rows.now }
    ensures { result ≡ is_parent_in is_dir rows.now (parent path.now) }
{
    let Some(directory) = parent(path) else {
        return true;
    };
    match find(rows, directory) {
        Some(item) => item.is_dir(),
        None => false,
    }
}

/// Whether a path comes after that of the last row, if there is one.
fn is_after(rows: &[Made], path: &[u8]) -> bool
    ensures { result ≡ is_after path_cmp rows.now path.now }
{
    match rows {
        [] => true,
        [.., last] => compare(last.path().as_slice(), path).is_lt(),
    }
}

/// Why a path was not appended.
#[derive(Clone, Copy, Debug, PartialEq, Eq)]
pub enum PushFault {
    /// It may not come next: it isn't after the paths of the tree, its parent is no Dir among them, or there are
    /// 1,048,576 of them.
    NotNext,
    /// There was no memory for it.
    Memory,
}

/// A tree with the bytes of its files, in the order of its paths; at most 1,048,576 paths.
#[derive(Debug, Drop)]
pub struct MadeList {
    rows: Vec<Made>,
}

impl Model for MadeList {
    ghost use Rattle.attr_records.specs.Items.{Tree};
    ghost use Rattle.restore_stream.specs.Trees.{IsMadeTree};

    ghost Value = { Tree };

    ghost view = { λ t. t.rows.items };

    ghost invariant = { λ t. IsMadeTree t.rows.items };
}

impl MadeList {
    /// The empty tree; takes no memory.
    #[tactic(auto, using(crate::proofs::TreeLaws::no_paths))]
    pub fn new(alloc: Global) -> MadeList
        ensures { result ≡ [] }
    {
        MadeList {
            rows: Vec::new(alloc),
        }
    }

    pub fn rows(&self) -> &[Made]
        ensures rows { result.now ≡ self.now }
        ensures tree { IsMadeTree self.now }
    {
        self.rows.as_slice()
    }

    pub fn len(&self) -> usize
        ensures value { result ≡ length self.now }
        ensures few { result ≤ 1048576 }
    {
        self.rows.len()
    }

    pub fn is_empty(&self) -> bool
        ensures { IsTrue result ↔ (self.now ≡ []) }
    {
        self.rows.is_empty()
    }

    /// Whether a path may come next.
    #[tactic(auto, unfolding(crate::specs::Trees::may_follow))]
    pub fn may_follow(&self, path: &[u8]) -> bool
        ensures { result ≡ may_follow self.now path.now }
    {
        let rows = self.rows.as_slice();
        is_after(rows, path) && has_parent(rows, path) && rows.len() < MAX_PATHS
    }

    /// Appends a path with what stands at it; refused exactly if it may not come next, or for want of memory.
    pub fn push(&mut self, made: Made) -> Result<(), PushFault>
        ensures ok { OnOk result (self.new ≡ self.old ++ made ∷ []) }
        ensures next { OnOk result (may_follow self.old made.0 ≡ true) }
        ensures err { OnErr result (self.new ≡ self.old) }
        ensures not_next { IfErr result (λ fault. fault ≡ PushFault.NotNext → may_follow self.old made.0 ≡ false) }
    {
        if !self.may_follow(made.path().as_slice()) {
            return Err(PushFault::NotNext);
        }
        if self.rows.reserve(1).is_err() {
            return Err(PushFault::Memory);
        }
        match self.rows.push(made) {
            Ok(()) => Ok(()),
            Err(_) => unreachable!(),
        }
    }
}
