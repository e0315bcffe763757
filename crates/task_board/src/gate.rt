//! What a worker passes before each task.

/// A worker calls it before it performs a task, and holds no lock then.
pub trait Gate {
    fn before(&self, ticket: u32);
}

/// The gate that does nothing.
#[derive(Clone, Copy)]
pub struct NoGate;

impl Gate for NoGate {
    fn before(&self, _ticket: u32) {}
}
