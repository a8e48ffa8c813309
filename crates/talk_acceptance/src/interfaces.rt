//! What the tests serve connections by, and what the ends of connections are called.

use backup_rules::Rules;
use browse_http::{End, Interface};
use request_events::Defaults;
use std::alloc::Global;
use std::test::Fail;
use wake_schedule::Zone;

/// The interface with the default rules, and UTC.
pub fn interface(alloc: Global) -> Result<Interface, Fail> {
    let Ok(zone) = Zone::read("UTC") else {
        return Err(Fail::new("no zone"));
    };
    let rules = Rules::defaults(alloc)?;
    Ok(Interface::new(alloc, Defaults { rules, zone })?)
}

/// What an end is called.
pub fn name_of(end: &End) -> &'static str {
    match end {
        End::Ended => "ended",
        End::Truncated => "truncated",
        End::BadRequest => "bad request",
        End::LinkFault => "link fault",
        End::Memory => "memory",
        End::Cut(_) => "cut",
    }
}
