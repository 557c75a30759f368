#![tactic(auto)]

// Tests of the pattern kind and the joint kind, and of inspections for them.
#[cfg(test)]
mod calls;
#[cfg(test)]
mod joint;
#[cfg(test)]
mod pattern;
#[cfg(test)]
mod tables;
