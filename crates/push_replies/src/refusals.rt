//! Refusals by their names.

ghost use Rattle.std.specs.Prelude.{◌≡◌, IfOk};
ghost use Rattle.serde_json.specs.View.{view};
ghost use Rattle.push_replies.specs.Refusals.{put_rule_named, limit_named, rule_named, refusal_named, refusal_in, refusal_of};

use crate::members::text_at;
use attr_records::PutRule;
use json_back::read_json;
use office_model::{BrokenRule, Refusal};
use serde_json::Value;
use std::alloc::{AllocError, Global};

/// The rule of trees that a name is of.
fn put_rule_named(name: &str) -> Option<PutRule>
    ensures { result ≡ put_rule_named name.now }
{
    if name == "NoParent" {
        Some(PutRule::NoParent)
    } else if name == "IsDirectory" {
        Some(PutRule::IsDirectory)
    } else if name == "TooManyEntries" {
        Some(PutRule::TooManyEntries)
    } else if name == "FileTooLarge" {
        Some(PutRule::FileTooLarge)
    } else {
        None
    }
}

/// The rule that a name is of, but for those of what is there already or not there.
fn limit_named(name: &str) -> Option<BrokenRule>
    ensures { result ≡ limit_named name.now }
{
    if name == "HostsFull" {
        Some(BrokenRule::HostsFull)
    } else if name == "NumbersSpent" {
        Some(BrokenRule::NumbersSpent)
    } else if name == "ChainFull" {
        Some(BrokenRule::ChainFull)
    } else if name == "TokensFull" {
        Some(BrokenRule::TokensFull)
    } else if name == "NumberBehind" {
        Some(BrokenRule::NumberBehind)
    } else if name == "BadBucket" {
        Some(BrokenRule::BadBucket)
    } else if name == "BadPiece" {
        Some(BrokenRule::BadPiece)
    } else {
        Some(BrokenRule::Put(put_rule_named(name)?))
    }
}

/// The rule that a name is of.
fn rule_named(name: &str) -> Option<BrokenRule>
    ensures { result ≡ rule_named name.now }
{
    if name == "HostExists" {
        Some(BrokenRule::HostExists)
    } else if name == "NoHost" {
        Some(BrokenRule::NoHost)
    } else if name == "NoBackup" {
        Some(BrokenRule::NoBackup)
    } else if name == "NoPartial" {
        Some(BrokenRule::NoPartial)
    } else if name == "SessionOpen" {
        Some(BrokenRule::SessionOpen)
    } else if name == "NoSession" {
        Some(BrokenRule::NoSession)
    } else if name == "NoPath" {
        Some(BrokenRule::NoPath)
    } else if name == "NoContent" {
        Some(BrokenRule::NoContent)
    } else if name == "NotAFile" {
        Some(BrokenRule::NotAFile)
    } else if name == "NotADirectory" {
        Some(BrokenRule::NotADirectory)
    } else if name == "Kept" {
        Some(BrokenRule::Kept)
    } else {
        limit_named(name)
    }
}

/// The refusal that a name is of, if it has a name alone.
fn refusal_named(name: &str) -> Option<Refusal>
    ensures { result ≡ refusal_named name.now }
{
    if name == "Halted" {
        Some(Refusal::Halted)
    } else if name == "DiskFault" {
        Some(Refusal::DiskFault)
    } else {
        Some(Refusal::Broken(rule_named(name)?))
    }
}

/// The refusal that an object names.
fn refusal_in(value: &Value) -> Option<Refusal>
    ensures { result ≡ refusal_in (view value.now) }
{
    refusal_named(text_at(value, "refused")?)
}

/// The refusal that the body of a response names; none, if it is no such JSON.
pub(crate) fn read_refusal(alloc: Global, bytes: &[u8]) -> Result<Option<Refusal>, AllocError>
    ensures { IfOk result (λ refusal. refusal ≡ refusal_of bytes.now) }
{
    match read_json(alloc, bytes)? {
        Some(value) => Ok(refusal_in(&value)),
        None => Ok(None),
    }
}
