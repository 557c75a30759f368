// Patterns: alternating automata in tables that the caller lends, the questions asked of them, and the matcher.
#![tactic(auto)]

pub mod examples;
pub mod fault;
mod over;
pub mod parts;
pub mod pattern;
pub mod questions;
pub mod row;
