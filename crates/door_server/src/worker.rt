/// A server's door, and the clock and the gate of the connections that it serves there.
#[derive(Debug, Drop)]
pub struct Worker<T, C, G> {
    pub door: T,
    pub clock: C,
    pub gate: G,
}

/// A worker, and the port through which it makes its calls.
#[derive(Drop)]
pub struct Caller<P, T, C, G> {
    pub port: P,
    pub worker: Worker<T, C, G>,
}
