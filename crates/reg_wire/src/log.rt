//! What is told of connections while they are served.
use http::StatusCode;
use reg_keeper::keeper::Fault;
use reg_parse::shown::Shown;

/// An answer that was written whole.
#[derive(Clone, Copy, Debug, PartialEq, Eq)]
pub struct Sent {
    /// Its status.
    pub status: StatusCode,
    /// How many bytes its body has.
    pub body: usize,
}

/// What is told of each connection that a listener had: what it asks, where that could be read, and
/// what failed. It changes nothing of what is answered.
pub trait Log {
    /// Whether it keeps what it is told.
    const IS_KEPT: bool;

    /// The connection asks by this method for a path, of which no more is told than may be shown.
    fn asked(&mut self, method: &[u8], path: Shown<'_>);

    /// The connection is answered `storage`, since memory or the store failed.
    fn failed(&mut self, fault: Fault);
}

/// The log that keeps nothing.
#[derive(Clone, Copy, Debug, Drop)]
pub struct Unlogged;

impl Log for Unlogged {
    const IS_KEPT: bool = false;

    fn asked(&mut self, _method: &[u8], _path: Shown<'_>) {}

    fn failed(&mut self, _fault: Fault) {}
}
