/// Why a server left its door.
#[derive(Clone, Copy, Debug, PartialEq, Eq)]
pub enum DoorEnd {
    /// The door is closed: no link comes any more.
    Closed,
    /// The door failed; its count of faults rose.
    Failed,
}
