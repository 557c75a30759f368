// The joint kind: a pattern with a model as a transition system that is worked backwards.
#![tactic(auto)]

pub mod fault;
pub mod joint;
mod language;
mod members;
pub mod parts;
