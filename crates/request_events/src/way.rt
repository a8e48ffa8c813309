//! The way of a planned request: a file goes by stages, or the event is made of what is looked at of the body.

ghost use Rattle.std.specs.Prelude.{◌≡◌, ◌≤◌};
ghost use Rattle.request_events.specs.Asked.{looked_at, goes_by_stages, staged_by, IsWay};

use crate::plan::{FilePut, Plan};
use http_heads::Head;
use office_model::PIECE_LIMIT;

/// How many bytes of the target of a link are looked at: a longer one is refused by as many.
const TARGET_BYTES: usize = 4_097;

/// The way of a planned request.
#[derive(Debug, Drop)]
pub enum Way {
    /// The file goes into a stage, piece by piece as it comes.
    Staged(FilePut),
    /// The plan has an event, of what is looked at of the body.
    Planned(Plan),
}

/// Whether a file with this head goes by stages: it comes in chunks, or is longer than a piece.
#[tactic(auto, unfolding(office_model::specs::Office::piece_limit))]
fn goes_by_stages(head: &Head) -> bool
    ensures { result ≡ goes_by_stages head.now }
{
    head.is_chunked() || head.length().unwrap_or(0) > PIECE_LIMIT as u64
}

/// The way of a plan, if files go by stages or not.
fn way_by(by_stages: bool, plan: Plan) -> Way
    ensures { IsWay (staged_by by_stages plan) plan result }
{
    match plan {
        Plan::PutFile(put) if by_stages => Way::Staged(put),
        plan => Way::Planned(plan),
    }
}

/// The way of the plan of a head.
pub fn way_of(head: &Head, plan: Plan) -> Way
    ensures { IsWay (staged_by (goes_by_stages head.now) plan) plan result }
{
    way_by(goes_by_stages(head), plan)
}

/// How many bytes of a body the event of a plan needs: of a file that goes whole all, of the target of a link at most one more than
/// it may have, and else none.
#[tactic(auto, unfolding(office_model::specs::Office::piece_limit))]
pub fn looked_at(plan: &Plan) -> usize
    ensures value { result ≡ looked_at plan.now }
    ensures fits { result ≤ 65536 }
{
    match plan {
        Plan::PutFile(_) => PIECE_LIMIT,
        Plan::PutLink { .. } => TARGET_BYTES,
        _ => 0,
    }
}
