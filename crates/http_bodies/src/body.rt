use crate::pieces::PIECE_SIZE;
use http_heads::BODY_LIMIT;

/// Where the reading of a body stands.
#[derive(Clone, Copy, Debug, PartialEq, Eq)]
pub enum Place {
    /// Of a body of a known length so many bytes are to come.
    Counted(u64),
    /// A chunk line is to come.
    Line,
    /// Of a chunk so many bytes are to come, and then the end of its line.
    InChunk(u64),
    /// The trailer section is to come.
    Trailer,
    Done,
}

/// The body of a request, which is being read.
#[derive(Clone, Copy, Debug, PartialEq, Eq)]
pub struct Body {
    pub(crate) place: Place,
    /// How many bytes further chunks may have.
    pub(crate) room: u64,
}

impl Body {
    ghost use Rattle.std.specs.Prelude.{◌≡◌, ◌≤◌, []};
    ghost use Rattle.http_bodies.specs.Bodies.{OfLength, Chunked, IsAt, is_done, IsLined};
    ghost use Rattle.http_bodies.specs.Steps.{after_item, behind_line};

    /// A body of a known length, of which nothing was read.
    pub fn of_length(count: u64) -> Body
        ensures { IsAt (OfLength count) result [] [] }
    {
        Body {
            place: Place::Counted(count),
            room: 0,
        }
    }

    /// A body in chunks, of which nothing was read.
    pub fn chunked() -> Body
        ensures { IsAt Chunked result [] [] }
    {
        Body {
            place: Place::Line,
            room: BODY_LIMIT,
        }
    }

    /// Whether all was read.
    pub fn is_done(&self) -> bool
        ensures { result ≡ is_done self.now }
    {
        match self.place {
            Place::Counted(left) => left == 0,
            Place::Done => true,
            _ => false,
        }
    }

    /// The room for the next piece.
    pub(crate) fn piece_room(&self) -> usize
        ensures { result ≤ 65536 }
    {
        match self.place {
            Place::Counted(left) => left.min(PIECE_SIZE as u64) as usize,
            Place::Done => 0,
            _ => PIECE_SIZE,
        }
    }

    /// Where it stands behind what comes here, which announces so many bytes.
    pub(crate) fn passed(self, size: u64) -> Body
        requires lined { IsLined self.place }
        requires fits { size ≤ self.room }
        ensures { result ≡ after_item self size }
    {
        match self.place {
            Place::Line => self.behind_line(size),
            Place::InChunk(_) => Body {
                place: Place::Line,
                room: self.room,
            },
            _ => Body {
                place: Place::Done,
                room: self.room,
            },
        }
    }

    /// The same behind a chunk line.
    fn behind_line(self, size: u64) -> Body
        requires { size ≤ self.room }
        ensures { result ≡ behind_line self.room size }
    {
        if size == 0 {
            return Body {
                place: Place::Trailer,
                room: self.room,
            };
        }
        Body {
            place: Place::InChunk(size),
            room: self.room - size,
        }
    }
}
