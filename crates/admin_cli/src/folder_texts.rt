//! What the folder commands say on the link.

ghost use Rattle.std.specs.Prelude.{◌≡◌, ◌≤◌, ◌+◌, ◌++◌, length, codes, decimal};
ghost use Rattle.admin_cli.specs.FolderTexts.{committed_line, restored_line, text_of_dump, text_of_restore};

use attr_records::HostName;
use folder_restore::RestoreRefusal;
use folder_walk::DumpRefusal;
use short_text::ShortText;

/// A word and the name of a host behind it.
fn begun(word: &[u8], host: &HostName) -> ShortText
    requires { length word.now ≤ 20 }
    ensures value { result ≡ word.now ++ host.now }
    ensures len { length result ≤ 84 }
{
    let mut text = ShortText::new();
    text.push(word);
    text.push(host.as_slice());
    text
}

/// Appends a space and a number in decimal.
fn push_number(text: &mut ShortText, number: u32)
    requires { length text.old ≤ 300 }
    ensures value { text.new ≡ text.old ++ (codes " " ++ decimal number) }
    ensures len { length text.new ≤ length text.old + 21 }
{
    text.push(b" ");
    text.push_number(u64::from(number));
}

/// The line of a backup that was committed.
#[tactic(auto, unfolding(crate::specs::FolderTexts::committed_line))]
fn committed_line(host: &HostName, number: u32) -> ShortText
    ensures { result ≡ committed_line host.now number }
{
    let mut text = begun(b"committed ", host);
    push_number(&mut text, number);
    text.push(b"\n");
    text
}

/// The line of a backup that was restored, with the number of its entries.
#[tactic(auto, unfolding(crate::specs::FolderTexts::restored_line))]
fn restored_line(host: &HostName, number: u32, entries: u32) -> ShortText
    ensures { result ≡ restored_line host.now number entries }
{
    let mut text = begun(b"restored ", host);
    push_number(&mut text, number);
    push_number(&mut text, entries);
    text.push(b"\n");
    text
}

/// What is said of a dump: nothing of one that was refused.
pub fn text_of_dump(host: &HostName, dumped: &Result<u32, DumpRefusal>) -> Option<ShortText>
    ensures { result ≡ text_of_dump host.now dumped.now }
{
    match dumped {
        Ok(number) => Some(committed_line(host, *number)),
        Err(_) => None,
    }
}

/// What is said of a restore: nothing of one that was refused.
pub fn text_of_restore(
    host: &HostName,
    number: u32,
    restored: &Result<u32, RestoreRefusal>,
) -> Option<ShortText>
    ensures { result ≡ text_of_restore host.now number restored.now }
{
    match restored {
        Ok(entries) => Some(restored_line(host, number, *entries)),
        Err(_) => None,
    }
}
