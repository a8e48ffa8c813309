ghost use Rattle.std.specs.Prelude.{◌≡◌};
ghost use Rattle.request_events.specs.Names.{host_in, number_in, session_of, session_in};
ghost use Rattle.request_events.specs.Said.{Says};

use crate::refusal::{RequestFault, RequestRefusal};
use attr_records::{BadHostName, HostName};
use http_query::read_number;
use http_routes::{first_part, second_part};
use office_model::SessionName;
use std::alloc::Global;

/// The host that a path names.
pub fn host_in(alloc: Global, path: &str) -> Result<HostName, RequestFault>
    ensures { Says result (host_in path.now) }
{
    match HostName::read(alloc, first_part(path).as_bytes()) {
        Ok(name) => Ok(name),
        Err(BadHostName::BadName) => Err(RequestFault::Refused(RequestRefusal::BadName)),
        Err(BadHostName::Memory) => Err(RequestFault::Memory),
    }
}

/// The number that a path names.
pub fn number_in(path: &str) -> Result<u32, RequestFault>
    ensures { Says result (number_in path.now) }
{
    match read_number(second_part(path).as_bytes(), u32::MAX as u64) {
        Some(number) => Ok(number as u32),
        None => Err(RequestFault::Refused(RequestRefusal::BadNumber)),
    }
}

/// The session whose name a text is.
#[tactic(auto, unfolding(crate::specs::Names::session_of))]
fn session_of(text: &str) -> Option<SessionName>
    ensures { result ≡ session_of text.now }
{
    let (epoch, sequence) = match text.split_once('-') {
        Some((epoch, sequence)) => (epoch, sequence),
        None => (text, ""),
    };
    let epoch = read_number(epoch.as_bytes(), u64::MAX)?;
    let sequence = read_number(sequence.as_bytes(), u64::MAX)?;
    Some(SessionName { epoch, sequence })
}

/// The session that a path names.
pub fn session_in(path: &str) -> SessionName
    ensures { result ≡ session_in path.now }
{
    match session_of(first_part(path)) {
        Some(name) => name,
        None => SessionName {
            epoch: 0,
            sequence: 0,
        },
    }
}
