//! The names of what refuses requests.

ghost use Rattle.std.specs.Prelude.{◌≡◌, ◌≤◌, length, IfSome};
ghost use Rattle.std.specs.Option.{option_copied};
ghost use Rattle.http_replies.specs.Messages.{query_rule_name, path_rule_name, request_refusal_name, allowed_by};

use attr_records::BadPath;
use http_query::QueryRule;
use request_events::RequestRefusal;

/// The name of what refuses a query.
fn query_rule_name(rule: QueryRule) -> &'static str
    ensures value { result.now ≡ query_rule_name rule }
    ensures short { length result.now ≤ 64 }
{
    match rule {
        QueryRule::Utf8 => "BadQuery.Utf8",
        QueryRule::Unknown => "BadQuery.Unknown",
        QueryRule::Repeated => "BadQuery.Repeated",
        QueryRule::Missing => "BadQuery.Missing",
        QueryRule::Value => "BadQuery.Value",
    }
}

/// The name of what refuses a path.
fn path_rule_name(rule: BadPath) -> &'static str
    ensures value { result.now ≡ path_rule_name rule }
    ensures short { length result.now ≤ 64 }
{
    match rule {
        BadPath::NotUtf8 => "BadPath.NotUtf8",
        BadPath::Empty => "BadPath.Empty",
        BadPath::TooLong => "BadPath.TooLong",
        BadPath::Nul => "BadPath.Nul",
        BadPath::EmptyComponent => "BadPath.EmptyComponent",
        BadPath::Dot => "BadPath.Dot",
        BadPath::LongComponent => "BadPath.LongComponent",
        BadPath::Memory => "BadPath",
    }
}

/// The name of what refuses a request.
pub fn request_name(refusal: RequestRefusal) -> &'static str
    ensures value { result.now ≡ request_refusal_name refusal }
    ensures short { length result.now ≤ 64 }
{
    match refusal {
        RequestRefusal::NoRoute => "NoRoute",
        RequestRefusal::NoMethod(_) => "NoMethod",
        RequestRefusal::BadName => "BadName",
        RequestRefusal::BadNumber => "BadNumber",
        RequestRefusal::BadQuery(rule) => query_rule_name(rule),
        RequestRefusal::BadPath(rule) => path_rule_name(rule),
        RequestRefusal::BadTarget => "BadTarget",
        RequestRefusal::NoLength => "NoLength",
    }
}

/// The methods that the target takes, if the method was refused.
pub fn allowed_by(refusal: RequestRefusal) -> Option<&'static str>
    ensures value { option_copied result ≡ allowed_by refusal }
    ensures short { IfSome (option_copied result) (λ methods. length methods ≤ 64) }
{
    match refusal {
        RequestRefusal::NoMethod(route) => Some(route.allow()),
        _ => None,
    }
}
