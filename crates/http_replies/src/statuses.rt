//! The statuses of responses (RFC 9110, section 15).

ghost use Rattle.std.specs.Prelude.{◌≡◌, ◌≤◌, length};
ghost use Rattle.http_heads.specs.Names.{head_refusal_status};
ghost use Rattle.http_wire.specs.Message.{phrase};
ghost use Rattle.http_replies.specs.Messages.{request_refusal_status, put_rule_status, rule_status, refusal_status, done_status, answer_status};

use attr_records::PutRule;
use http::StatusCode;
use http_heads::HeadRefusal;
use office_model::{Answer, BrokenRule, Event, Refusal};
use request_events::RequestRefusal;

/// The status of what refuses a head.
#[tactic(auto, unfolding(http_wire::specs::Message::phrase))]
pub fn head_status(refusal: HeadRefusal) -> StatusCode
    ensures value { result ≡ head_refusal_status refusal }
    ensures short { length (phrase result) ≤ 64 }
{
    match refusal {
        HeadRefusal::BadHead => StatusCode::BAD_REQUEST,
        HeadRefusal::NoLength => StatusCode::LENGTH_REQUIRED,
        HeadRefusal::FileTooLarge => StatusCode::PAYLOAD_TOO_LARGE,
        HeadRefusal::HeadTooLarge => StatusCode::REQUEST_HEADER_FIELDS_TOO_LARGE,
    }
}

/// The status of what refuses a request.
#[tactic(auto, unfolding(http_wire::specs::Message::phrase))]
pub fn request_status(refusal: RequestRefusal) -> StatusCode
    ensures value { result ≡ request_refusal_status refusal }
    ensures short { length (phrase result) ≤ 64 }
{
    match refusal {
        RequestRefusal::NoRoute => StatusCode::NOT_FOUND,
        RequestRefusal::NoMethod(_) => StatusCode::METHOD_NOT_ALLOWED,
        RequestRefusal::NoLength => StatusCode::LENGTH_REQUIRED,
        _ => StatusCode::BAD_REQUEST,
    }
}

/// The status of a rule of trees.
#[tactic(auto, unfolding(http_wire::specs::Message::phrase))]
fn put_rule_status(rule: PutRule) -> StatusCode
    ensures value { result ≡ put_rule_status rule }
    ensures short { length (phrase result) ≤ 64 }
{
    match rule {
        PutRule::NoParent => StatusCode::CONFLICT,
        PutRule::IsDirectory => StatusCode::CONFLICT,
        PutRule::TooManyEntries => StatusCode::UNPROCESSABLE_ENTITY,
        PutRule::FileTooLarge => StatusCode::PAYLOAD_TOO_LARGE,
    }
}

/// The status of a broken rule.
#[tactic(auto, unfolding(http_wire::specs::Message::phrase))]
fn rule_status(rule: BrokenRule) -> StatusCode
    ensures value { result ≡ rule_status rule }
    ensures short { length (phrase result) ≤ 64 }
{
    match rule {
        BrokenRule::HostExists => StatusCode::CONFLICT,
        BrokenRule::HostsFull => StatusCode::UNPROCESSABLE_ENTITY,
        BrokenRule::NoHost => StatusCode::NOT_FOUND,
        BrokenRule::SessionOpen => StatusCode::CONFLICT,
        BrokenRule::NumbersSpent => StatusCode::UNPROCESSABLE_ENTITY,
        BrokenRule::NoSession => StatusCode::NOT_FOUND,
        BrokenRule::Put(rule) => put_rule_status(rule),
        BrokenRule::NoBackup => StatusCode::NOT_FOUND,
        BrokenRule::NoPartial => StatusCode::NOT_FOUND,
        BrokenRule::ChainFull => StatusCode::UNPROCESSABLE_ENTITY,
        BrokenRule::NoPath => StatusCode::NOT_FOUND,
        BrokenRule::NotAFile => StatusCode::CONFLICT,
        BrokenRule::NotADirectory => StatusCode::CONFLICT,
        BrokenRule::Kept => StatusCode::CONFLICT,
        BrokenRule::BadBucket => StatusCode::UNPROCESSABLE_ENTITY,
        BrokenRule::BadPiece => StatusCode::BAD_REQUEST,
        BrokenRule::TokensFull => StatusCode::UNPROCESSABLE_ENTITY,
        BrokenRule::NumberBehind => StatusCode::CONFLICT,
        BrokenRule::NoContent => StatusCode::NOT_FOUND,
    }
}

/// The status of a refusal of the office.
#[tactic(auto, unfolding(http_wire::specs::Message::phrase))]
pub fn refusal_status(refusal: &Refusal) -> StatusCode
    ensures value { result ≡ refusal_status refusal.now }
    ensures short { length (phrase result) ≤ 64 }
{
    match refusal {
        Refusal::Broken(rule) => rule_status(*rule),
        Refusal::Halted => StatusCode::SERVICE_UNAVAILABLE,
        Refusal::DiskFault => StatusCode::INTERNAL_SERVER_ERROR,
        Refusal::Damaged { .. } => StatusCode::BAD_GATEWAY,
        Refusal::Memory => StatusCode::INSUFFICIENT_STORAGE,
    }
}

/// The status of an event that was done and gives nothing.
#[tactic(auto, unfolding(http_wire::specs::Message::phrase))]
fn done_status(event: &Event) -> StatusCode
    ensures value { result ≡ done_status event.now }
    ensures short { length (phrase result) ≤ 64 }
{
    match event {
        Event::AddHost { .. } => StatusCode::CREATED,
        _ => StatusCode::OK,
    }
}

/// The status of a file's bytes.
#[tactic(auto, unfolding(http_wire::specs::Message::phrase))]
pub fn bytes_status() -> StatusCode
    ensures value { result ≡ 200 }
    ensures short { length (phrase result) ≤ 64 }
{
    StatusCode::OK
}

/// The status of an answer.
#[tactic(auto, unfolding(http_wire::specs::Message::phrase))]
pub fn answer_status(event: &Event, answer: &Answer) -> StatusCode
    ensures value { result ≡ answer_status event.now answer.now }
    ensures short { length (phrase result) ≤ 64 }
{
    match answer {
        Answer::Done => done_status(event),
        Answer::Dump(_) => StatusCode::CREATED,
        Answer::Committed(_) => StatusCode::CREATED,
        Answer::Stage(_) => StatusCode::CREATED,
        Answer::Opened { .. } => StatusCode::CREATED,
        Answer::Restore(_) => StatusCode::CREATED,
        _ => StatusCode::OK,
    }
}
