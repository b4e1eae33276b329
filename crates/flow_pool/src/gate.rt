//! Gates, which are told of each prefix before a worker searches it.

/// A worker calls a gate for each prefix, before it searches the prefix. All workers share one gate.
pub trait Gate {
    /// The worker of index `lane`, counted from 0, has received the prefix of this number.
    fn reached(&self, lane: u32, number: u32);
}

/// The gate that does nothing.
#[derive(Clone, Copy, Debug)]
pub struct Open;

impl Gate for Open {
    fn reached(&self, _lane: u32, _number: u32) {}
}
