use attr_records::BadPath;
use http_query::QueryRule;
use http_routes::Route;
use std::alloc::AllocError;

/// Why a request has no event, in the order in which it is judged.
#[derive(Clone, Copy, Debug, PartialEq, Eq)]
pub enum RequestRefusal {
    /// No route has this path.
    NoRoute,
    /// The route doesn't take the method.
    NoMethod(Route),
    /// The path names no host as hosts are named.
    BadName,
    /// The path names no number of 32 bits.
    BadNumber,
    /// The first rule of queries that the query breaks.
    BadQuery(QueryRule),
    /// The first rule of paths that the value of `path` breaks.
    BadPath(BadPath),
    /// The body is no target of a link.
    BadTarget,
    /// A file's bytes came without their number.
    NoLength,
}

/// Why there is no event: the request is refused, or there is no memory.
#[derive(Clone, Copy, Debug, PartialEq, Eq)]
pub enum RequestFault {
    Refused(RequestRefusal),
    Memory,
}

impl From<AllocError> for RequestFault {
    ghost use Rattle.std.specs.Prelude.{◌≡◌};
    ghost use Rattle.request_events.specs.declared.refusal.RequestFault.TheVariants.{Memory};

    ghost from_gives = { λ _ fault. fault ≡ Memory };

    fn from(_error: AllocError) -> RequestFault {
        RequestFault::Memory
    }
}
