//! What a store is to an office that opens it: the columns of each row are read once, and fed to an audit.
#![tactic(auto)]

mod acts;
pub mod audit;
pub mod beside;
mod blocks;
mod fed;
mod feed;
mod feeder;
pub mod flaw;
mod free;
pub mod grows;
pub mod kind;
pub mod laws;
mod marks;
mod numbered;
pub mod opens;
mod partitions;
mod parts;
mod requests;
pub mod row;
mod rowids;
mod values;
