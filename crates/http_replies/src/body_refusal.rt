use http::StatusCode;
use std::error::Error;
use std::fmt;

/// Why a body is refused while it is read.
#[derive(Clone, Copy, Debug, PartialEq, Eq)]
pub enum BodyRefusal {
    /// 400: its chunks break their grammar.
    BadChunk,
    /// 413: its chunks are more than 1,099,511,627,775 bytes.
    FileTooLarge,
}

impl BodyRefusal {
    ghost use Rattle.std.specs.Prelude.{◌≡◌, ◌≤◌, length};
    ghost use Rattle.http_wire.specs.Message.{phrase};
    ghost use Rattle.http_replies.specs.Messages.{body_refusal_name, body_refusal_status};

    /// The refusal's name, as a response says it.
    pub fn name(self) -> &'static str
        ensures value { result.now ≡ body_refusal_name self }
        ensures short { length result.now ≤ 64 }
    {
        match self {
            BodyRefusal::BadChunk => "BadChunk",
            BodyRefusal::FileTooLarge => "FileTooLarge",
        }
    }

    /// The status of its response.
    #[tactic(auto, unfolding(http_wire::specs::Message::phrase))]
    pub fn status(self) -> StatusCode
        ensures value { result ≡ body_refusal_status self }
        ensures short { length (phrase result) ≤ 64 }
    {
        match self {
            BodyRefusal::BadChunk => StatusCode::BAD_REQUEST,
            BodyRefusal::FileTooLarge => StatusCode::PAYLOAD_TOO_LARGE,
        }
    }
}

impl fmt::Display for BodyRefusal {
    ghost use Rattle.std.specs.Prelude.{Some};
    ghost use Rattle.http_replies.specs.Messages.{body_refusal_name};

    ghost output = { λ refusal. Some (body_refusal_name refusal) };

    fn fmt<W: fmt::Write>(&self, f: &mut fmt::Formatter<W>) -> fmt::Result {
        write!(f, "{}", self.name())
    }
}

impl Error for BodyRefusal {}
