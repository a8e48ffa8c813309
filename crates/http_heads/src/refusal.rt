use http::StatusCode;
use std::error::Error;
use std::fmt;

/// Why a request's head is refused.
#[derive(Clone, Copy, Debug, PartialEq, Eq)]
pub enum HeadRefusal {
    /// 400: no head, or its fields contradict each other.
    BadHead,
    /// 411: the body comes in another encoding than chunks.
    NoLength,
    /// 413: the body is larger than 1,099,511,627,775 bytes.
    FileTooLarge,
    /// 431: more than 16,384 bytes or 64 fields.
    HeadTooLarge,
}

impl HeadRefusal {
    ghost use Rattle.std.specs.Prelude.{◌≡◌, ◌≤◌, length};
    ghost use Rattle.http_heads.specs.Names.{head_refusal_name, head_refusal_status};

    /// The refusal's name, as a response says it.
    pub fn name(self) -> &'static str
        ensures value { result.now ≡ head_refusal_name self }
        ensures short { length result.now ≤ 64 }
    {
        match self {
            HeadRefusal::BadHead => "BadHead",
            HeadRefusal::NoLength => "NoLength",
            HeadRefusal::FileTooLarge => "FileTooLarge",
            HeadRefusal::HeadTooLarge => "HeadTooLarge",
        }
    }

    /// The status of its response.
    pub fn status(self) -> StatusCode
        ensures { result ≡ head_refusal_status self }
    {
        match self {
            HeadRefusal::BadHead => StatusCode::BAD_REQUEST,
            HeadRefusal::NoLength => StatusCode::LENGTH_REQUIRED,
            HeadRefusal::FileTooLarge => StatusCode::PAYLOAD_TOO_LARGE,
            HeadRefusal::HeadTooLarge => StatusCode::REQUEST_HEADER_FIELDS_TOO_LARGE,
        }
    }
}

impl fmt::Display for HeadRefusal {
    ghost use Rattle.std.specs.Prelude.{Some};
    ghost use Rattle.http_heads.specs.Names.{head_refusal_name};

    ghost output = { λ refusal. Some (head_refusal_name refusal) };

    fn fmt<W: fmt::Write>(&self, f: &mut fmt::Formatter<W>) -> fmt::Result {
        write!(f, "{}", self.name())
    }
}

impl Error for HeadRefusal {}
