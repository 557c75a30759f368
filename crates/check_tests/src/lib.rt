#![tactic(auto)]

// Tests of the check: searches worked out by hand, in one grant and in several, and rows that are not recorded.
#[cfg(test)]
mod calls;
#[cfg(test)]
mod searches;
#[cfg(test)]
mod tables;
