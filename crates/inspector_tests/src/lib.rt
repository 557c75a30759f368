// The inspector tried on a small kind: cells of a building, worked back from storey to storey.
#![tactic(auto)]

pub mod building;
#[cfg(test)]
mod tests;
