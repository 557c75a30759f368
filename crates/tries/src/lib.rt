// The trie: a store of configurations by their keys.
#![tactic(auto)]

mod asking;
mod changing;
mod exchanging;
mod forest;
pub mod row;
pub mod trie;
mod word;
