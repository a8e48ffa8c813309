//! What a command says on the link.

ghost use Rattle.std.specs.Prelude.{◌≡◌, OnOk, IsErr};
ghost use Rattle.fault_counts.specs.Counts.{Counted};
ghost use Rattle.stream_traits.specs.Seen.{seen_of};
ghost use Rattle.stream_traits.specs.Told.{behind, WroteFront};
ghost use Rattle.admin_cli.specs.Nights.{Says};

use short_text::ShortText;
use stream_traits::{Failed, Faults, Link, write_all};

/// Writes a text on the link, and sends it.
fn send<L: Link>(link: &mut L, text: &[u8]) -> Result<(), Failed>
    ensures whole { OnOk result (L.written link.new ≡ behind (L.written link.old) text.now) }
    ensures sent { OnOk result (L.sent link.new ≡ L.written link.new) }
    ensures front { WroteFront (L.written link.old) (L.written link.new) text.now }
    ensures left { L.left link.new ≡ L.left link.old }
    ensures counted { Counted (L.faults link.old) (L.faults link.new) (IsErr result) }
{
    match write_all(link, text) {
        Ok(()) => {}
        Err(Failed) => return Err(Failed),
    }
    match link.flush() {
        Ok(()) => Ok(()),
        Err(Failed) => Err(Failed),
    }
}

/// Says on the link what there is to say, and whether the link failed.
pub fn say<L: Link>(link: &mut L, text: Option<ShortText>) -> bool
    ensures { Says text (seen_of ⟦<L as Faults>⟧ link.old) (seen_of ⟦<L as Faults>⟧ link.new) result }
{
    match text {
        Some(text) => send(link, text.as_slice()).is_err(),
        None => false,
    }
}
