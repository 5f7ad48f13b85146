//! The tests: of whole offices, of the jobs over files, of disks that stop, of the program where what is
//! around it fails, and of libraries where the program does not reach them. They are one crate, since the
//! gate proves a crate that has tests twice, and compiles all that it stands on.
#![tactic(auto)]

#[cfg(test)]
mod tests;
