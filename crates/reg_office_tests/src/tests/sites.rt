//! Published sites, where a source fails or files take the places of others, and how much is read of an answer.
mod bounded;
mod faults;
mod replacements;
