/// What a door answers.
#[derive(Debug, Drop)]
pub enum Came<L> {
    /// This link came.
    Link(L),
    /// No link comes any more.
    Closed,
    /// The door failed; its count of faults rose.
    Failed,
}
