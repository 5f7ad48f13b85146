//! Libraries where the program does not reach them, against values worked by hand and other programs.
mod asks;
mod blocks;
mod digits;
mod early;
mod expecting;
mod free_values;
mod places;
