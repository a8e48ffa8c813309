use office_model::Refusal;

/// How a connection ended.
#[derive(Debug, Drop)]
pub enum End {
    /// At the end of the input between two requests, or after a response that was to be the last.
    Ended,
    /// At the end of the input inside a request.
    Truncated,
    /// After the response to a request that is refused while it is read: its head or its body isn't understood, or is more than is taken.
    BadRequest,
    /// The link failed; its count of faults rose.
    LinkFault,
    /// There was no memory.
    Memory,
    /// A part of a file was refused when the head of its response was out.
    Cut(Refusal),
}
