// What the pattern kind and the joint kind mean, and their laws: see specs/. The code here is what both kinds share.
#![tactic(auto)]

use sets::States;

pub mod reading;

// A state of a model with a set of states of a pattern.
#[derive(Clone, Copy, PartialEq, Eq, Debug)]
pub struct JointConfig {
    pub state: u8,
    pub set: States,
}
