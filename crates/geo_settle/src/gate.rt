//! Who is told of a search while it goes on.

/// It is told of each claim: by which worker, and of which chunk; None says that no chunk
/// was left. No answer of a search depends on it. Tests count the calls and hold them.
pub trait Gate {
    fn passed(&self, worker: u64, chunk: Option<u64>);
}

/// A gate that does nothing.
#[derive(Clone, Copy, Debug)]
pub struct OpenGate;

impl Gate for OpenGate {
    fn passed(&self, _worker: u64, _chunk: Option<u64>) {}
}
