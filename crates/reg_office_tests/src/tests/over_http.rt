//! Requests over HTTP that break off or fail, what stands in front of an office, and its log.
mod failures;
mod front;
mod logged;
