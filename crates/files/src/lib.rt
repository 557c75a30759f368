// Pattern files: the record and table layers over the block layer, reading, writing and matching.
#![tactic(auto)]

mod entry;
pub mod fault;
pub mod heading;
pub mod line;
pub mod matching;
pub mod reading;
pub mod writing;
