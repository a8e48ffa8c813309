ghost use Rattle.std.specs.Prelude.{◌≡◌, false};
ghost use Rattle.attr_tables.specs.Records.{IsSound};
ghost use Rattle.merge_view.specs.Views.{is_mark};
ghost use Rattle.dump_session.specs.Kinds.{is_dir_kind};

use attr_tables::Record;
use std::marker::Model;

/// The kinds of what stands at a path.
#[derive(Clone, Copy, Debug, PartialEq, Eq)]
pub enum NodeKind {
    File,
    Dir,
    Link,
}

impl NodeKind {
    pub fn is_dir(self) -> bool
        ensures { result ≡ is_dir_kind self }
    {
        match self {
            NodeKind::Dir => true,
            NodeKind::File | NodeKind::Link => false,
        }
    }
}

/// A record that may be put: no deletion mark, and with a content exactly where it is a File of some bytes.
#[derive(Debug)]
pub struct Node {
    inner: Record,
}

impl Model for Node {
    ghost use Rattle.std.specs.Prelude.{◌≡◌, false};
    ghost use Rattle.attr_tables.specs.declared.records.Record.{Record};
    ghost use Rattle.attr_tables.specs.Records.{IsSound};
    ghost use Rattle.merge_view.specs.Views.{is_mark};

    ghost Value = { Record };

    ghost view = { λ n. n.inner };

    ghost invariant = { λ n. IsSound n.inner × (is_mark n.inner ≡ false) };
}

/// Written out: what is in it is then dropped here, for the prover too, and not in each crate above.
impl Drop for Node {
    fn drop(self) {
        let Node { inner: _ } = self;
    }
}

impl Node {
    pub fn new(node: Record) -> Node
        requires sound { IsSound node }
        requires no_mark { is_mark node ≡ false }
        ensures { result ≡ node }
    {
        Node { inner: node }
    }

    pub fn as_record(&self) -> &Record
        ensures value { result.now ≡ self.now }
        ensures sound { IsSound self.now }
        ensures no_mark { is_mark self.now ≡ false }
    {
        &self.inner
    }
}
