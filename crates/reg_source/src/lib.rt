//! Whom is asked what is published, what was told, and why nothing was; and where the files of a site are
//! read and published.
#![tactic(auto)]

pub mod bounded;
pub mod comparing;
pub mod directory;
pub mod disk;
pub mod folder;
pub mod lock;
pub mod modes;
pub mod offices;
pub mod regular;
pub mod replacement;
pub mod source;
pub mod told;
pub mod unpublished;
