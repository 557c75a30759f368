// Models of what a controller's box sends: machines in tables that the caller lends, and the questions asked of them.
#![tactic(auto)]

pub mod arrow;
pub mod fault;
pub mod model;
mod questions;
mod sources;
