//! The tests, by what they ask.
mod devices;
mod disks;
mod exercise;
mod facts;
mod files;
mod folders;
mod jobs;
mod libraries;
mod over_http;
mod sites;
mod transcript;
mod worked;
