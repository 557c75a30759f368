// The pattern kind: a pattern by itself as a transition system that is worked backwards.
#![tactic(auto)]

mod language;
pub mod pattern;
