//! Blocks by their digits.
use reg_blocks::block::Block;
use std::process::Abort;

/// The block of these digits.
pub fn block(rt: &impl Abort, digits: &str) -> Block {
    Block::read(digits.as_bytes()).expect(rt, "digits of a block")
}

/// The block of these digits, if there are any.
pub fn block_if(rt: &impl Abort, digits: Option<&str>) -> Option<Block> {
    match digits {
        Some(digits) => Some(block(rt, digits)),
        None => None,
    }
}
