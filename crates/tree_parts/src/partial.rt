use crate::dump::Dump;
use crate::trees::copy_tree;
use attr_records::{Item, PathName};
use backup_rules::Kind;
use std::alloc::{AllocError, Global};
use std::collections::BTreeMap;
use std::marker::Model;
use stream_traits::Moment;

/// What a host keeps of a dump that may be gone on with.
pub struct Partial {
    kind: Kind,
    start: Moment,
    tree: BTreeMap<PathName, Item>,
}

impl Model for Partial {
    ghost use Rattle.office_model.specs.Office.{Partial as PartialValue};

    ghost Value = { PartialValue };

    ghost view = { λ p. record { kind = p.kind; start = p.start; tree = p.tree.entries } };
}

/// Written out: what is in it is then dropped here, for the prover too, and not in each crate above.
impl Drop for Partial {
    fn drop(self) {
        let Partial {
            kind: _,
            start: _,
            tree: _,
        } = self;
    }
}

impl Partial {
    ghost use Rattle.std.specs.Prelude.{◌≡◌, IfOk};
    ghost use Rattle.office_model.specs.events.Park.{partial_of};

    /// What a dump has so far, or want of memory.
    pub fn of_dump(alloc: Global, dump: &Dump) -> Result<Partial, AllocError>
        ensures { IfOk result (λ partial. partial ≡ partial_of dump.now) }
    {
        let tree = copy_tree(alloc, &dump.tree)?;
        Ok(Partial {
            kind: dump.kind,
            start: dump.start,
            tree,
        })
    }

    pub fn kind(&self) -> Kind
        ensures { result ≡ self.now.kind }
    {
        self.kind
    }

    pub fn start(&self) -> Moment
        ensures { result ≡ self.now.start }
    {
        self.start
    }

    pub fn tree(&self) -> &BTreeMap<PathName, Item>
        ensures { result.now.entries ≡ self.now.tree }
    {
        &self.tree
    }
}
