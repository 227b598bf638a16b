/// What a worker passes when it begins a piece of shared work. Nothing that a contract speaks of depends on it: a test
/// may set an order of the workers by it.
pub trait Gate: Sync {
    /// The worker, numbered from 0, begins the piece of this number, from 0 on too.
    fn at_piece(&self, worker: u32, piece: u64);
}

/// The gate that stands open: passing it does nothing.
#[derive(Clone, Copy)]
pub struct OpenGate;

impl Gate for OpenGate {
    fn at_piece(&self, _worker: u32, _piece: u64) {}
}
