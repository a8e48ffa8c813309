/// What may hold a connection between the head of a request and its body. It can't fail, and says nothing of
/// how long it holds.
pub trait Gate: Send {
    /// Holds the request at this index of its connection, counted from 0.
    fn hold(&mut self, index: u64);
}

/// A gate that never holds.
#[derive(Clone, Copy, Debug, PartialEq, Eq)]
pub struct OpenGate;

impl Gate for OpenGate {
    fn hold(&mut self, _index: u64) {}
}
