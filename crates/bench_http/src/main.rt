//! Measures how fast requests are read from a link, responses written to it, and whole exchanges made, over a link in memory. The words
//! `COUNT BODY` give the sizes, and a third word `time` asks for the times; without words it runs a small size.
#![tactic(auto)]

mod exchanges;
mod fault;
mod input;
mod report;
mod requests;
mod responses;
mod sizes;

use crate::fault::Fault;
use crate::report::Report;
use crate::sizes::read_sizes;

fn main(rt: HostRuntime) -> Result<(), Fault> {
    let sizes = read_sizes(&rt)?;
    let report = Report::new(rt, sizes.with_times);
    requests::measure(&report, sizes)?;
    responses::measure(&report, sizes.count)?;
    exchanges::measure(&report, sizes.count)
}
