// What the verdict of a search means for a pattern, and for a pattern with a model: which tables a search may be made
// over, and searches worked out by hand.
#![tactic(auto)]

pub mod examples;
pub mod rows;
