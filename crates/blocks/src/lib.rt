// The block layer of our files: checking, reading and writing rows of 512-byte blocks.
#![tactic(auto)]

pub mod check;
pub mod fault;
pub mod reader;
pub mod writer;

// The bytes of a block, and of its payload.
pub const BLOCK_LEN: usize = 512;

pub const PAYLOAD_LEN: usize = 504;

// A block's number has two bytes.
pub const MAX_BLOCKS: usize = 65_536;
