//! The office in memory, asked over a connection as a run of the program is.

use backup_rules::Rules;
use browse_http::{End, Interface, Served, serve_connection};
use pool_name::Md5Namer;
use request_events::Defaults;
use std::alloc::Global;
use std::test::Fail;
use store_talks::talks::clock_of;
use stream_traits::{MemoryLink, OpenGate};
use tree_office::TreeOffice;
use wake_schedule::Zone;

/// The interface with the default rules, and UTC.
fn interface(alloc: Global) -> Result<Interface, Fail> {
    let Ok(zone) = Zone::read("UTC") else {
        return Err(Fail::new("no zone"));
    };
    let rules = Rules::defaults(alloc)?;
    Ok(Interface::new(alloc, Defaults { rules, zone })?)
}

/// What the office in memory answers.
pub fn office_answers(
    alloc: Global,
    office: &mut TreeOffice<Md5Namer>,
    seconds: &[u64],
    input: Vec<u8>,
) -> Result<Vec<u8>, Fail> {
    let link = MemoryLink::new(alloc, input, 65_536, Vec::new(alloc))?;
    let mut clock = clock_of(alloc, seconds)?;
    let Served { end, link } = serve_connection(
        alloc,
        office,
        link,
        &mut clock,
        &mut OpenGate,
        &interface(alloc)?,
    );
    match end {
        End::Ended => Ok(Vec::from_slice(alloc, link.output())?),
        _ => Err(Fail::new("the office in memory didn't answer")),
    }
}
