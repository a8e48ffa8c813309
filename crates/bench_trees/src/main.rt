//! Measures the crates of trees: tables and their files, edits of an open dump, and views; and the deletion of one
//! backup of many. The words `FOLDERS PUTS` or `fold BACKUPS FOLDERS` give the sizes, and a further word `time` asks
//! for the times; without words it runs small sizes of both.
#![tactic(auto)]

mod corpus;
mod deletes;
mod dumps;
mod fault;
mod report;
mod sizes;
mod tables;
mod views;

use crate::fault::Fault;
use crate::report::Report;
use crate::sizes::{Sizes, read_plan};
use std::sync::Arc;

/// Measures tables, dumps and views.
fn measure_trees(report: &Report, sizes: Sizes) -> Result<(), Fault> {
    tables::measure(report, sizes.folders)?;
    let base = Arc::new(report.alloc(), dumps::fill(report, sizes.folders)?)?;
    let tree = dumps::edit(report, &base, sizes)?;
    views::measure(report, &base, tree, sizes.folders)
}

fn main(rt: HostRuntime) -> Result<(), Fault> {
    let plan = read_plan(&rt)?;
    let report = Report::new(rt, plan.with_times);
    if let Some(sizes) = plan.trees {
        measure_trees(&report, sizes)?;
    }
    if let Some(sizes) = plan.fold {
        deletes::measure(&report, sizes)?;
    }
    Ok(())
}
