//! Scripts whose reader or writer fails.
mod devices;
