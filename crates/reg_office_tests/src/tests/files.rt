//! Offices in files of the system: each job, and an opening by itself.
mod openings;
mod performing;
