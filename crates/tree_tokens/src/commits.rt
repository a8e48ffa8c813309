ghost use Rattle.std.specs.Prelude.{◌≡◌};
ghost use Rattle.std.specs.Option.{option_map};
ghost use Rattle.office_model.specs.declared.answer.Answer.TheVariants.{Committed};
ghost use Rattle.office_model.specs.Repeats.{receipt_named};
ghost use Rattle.office_model.specs.events.Commit.{repeated};

use office_model::{Receipt, SessionName};
use tree_parts::{Dump, Host, dump_index};

/// The receipt of the commit of the dump of this name, of any host.
fn receipt_named(hosts: &[Host], name: SessionName) -> Option<Receipt>
    ensures { result ≡ receipt_named hosts.now name }
{
    for host in hosts {
        if let Some(receipt) = host.receipts().of_dump(name) {
            return Some(receipt);
        }
    }
    None
}

/// The number that a commit repeats, if the dump isn't open and there is the receipt of its commit.
pub fn repeated_commit(hosts: &[Host], dumps: &[Dump], session: SessionName) -> Option<u32>
    ensures { option_map Committed result ≡ repeated session hosts.now dumps.now }
{
    if dump_index(dumps, session).is_some() {
        return None;
    }
    let receipt = receipt_named(hosts, session)?;
    Some(receipt.number)
}
