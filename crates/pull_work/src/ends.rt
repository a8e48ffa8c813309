//! How a pull ends, and what is said of it.

ghost use Rattle.std.specs.Prelude.{◌≡◌, ◌≤◌, ◌++◌, length, codes};
ghost use Rattle.pull_work.specs.Script.{end_by};
ghost use Rattle.pull_work.specs.Parts.{lay_end};
ghost use Rattle.pull_work.specs.Texts.{pulled_line};

use attr_records::HostName;
use frame_puts::LayFault;
use office_model::Refusal;
use peer_exchange::PeerFault;
use short_text::ShortText;

/// How a pull ended. Where it isn't `Done`, the backups that were adopted before are at home, and no dump is open at home that the pull
/// opened, unless its abort was refused.
#[derive(Debug, Drop)]
pub enum PullEnd {
    /// All backups of the other server from home's next number on were brought, this many.
    Done(u64),
    /// The home office refused a call so, and behind it at most an open dump was aborted.
    Refused(Refusal),
    /// The other server answered with this status in place of the wanted one.
    PeerRefused(u16),
    /// The other server gave no answer to what it was asked, or a frame that doesn't fit those before it.
    PeerForeign,
    /// The link failed; its count of faults rose.
    LinkFault,
    /// There was no memory, or an answer of the other server has more bytes than are taken.
    Memory,
}

/// The end by a fault of the other server, or of the way to it.
pub(crate) fn end_by(fault: PeerFault) -> PullEnd
    ensures { result ≡ end_by fault }
{
    match fault {
        PeerFault::Refused(status) => PullEnd::PeerRefused(status),
        PeerFault::Foreign => PullEnd::PeerForeign,
        PeerFault::Link => PullEnd::LinkFault,
        PeerFault::Memory => PullEnd::Memory,
    }
}

/// The end by a frame that wasn't laid.
pub(crate) fn lay_end(fault: LayFault) -> PullEnd
    ensures { result ≡ lay_end fault }
{
    match fault {
        LayFault::Refused(refusal) => PullEnd::Refused(refusal),
        LayFault::Foreign => PullEnd::PeerForeign,
    }
}

/// `pulled `, and the name of a host behind it.
fn begun(host: &HostName) -> ShortText
    ensures value { result ≡ codes "pulled " ++ host.now }
    ensures len { length result ≤ 84 }
{
    let mut text = ShortText::new();
    text.push(b"pulled ");
    text.push(host.as_slice());
    text
}

/// The line of a pull.
#[tactic(auto, unfolding(crate::specs::Texts::pulled_line))]
fn line(host: &HostName, count: u64) -> ShortText
    ensures { result ≡ pulled_line host.now count }
{
    let mut text = begun(host);
    text.push(b" ");
    text.push_number(count);
    text.push(b"\n");
    text
}

impl PullEnd {
    ghost use Rattle.std.specs.Prelude.{◌≡◌};
    ghost use Rattle.pull_work.specs.Texts.{text_of};

    /// What is said at the end, with its line feed: the host, and how many backups were brought. Nothing is said of a pull that was cut
    /// off.
    pub fn text(&self, host: &HostName) -> Option<ShortText>
        ensures { result ≡ text_of host.now self.now }
    {
        match self {
            PullEnd::Done(count) => Some(line(host, *count)),
            PullEnd::Refused(_)
            | PullEnd::PeerRefused(_)
            | PullEnd::PeerForeign
            | PullEnd::LinkFault
            | PullEnd::Memory => None,
        }
    }
}
