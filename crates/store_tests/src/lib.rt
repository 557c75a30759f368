// Tests of stores: a small kind, what its stores answer after each insertion, and what a new list answers by its contracts.
#![tactic(auto)]

pub mod fresh;
#[cfg(test)]
mod insertions;
pub mod spots;
