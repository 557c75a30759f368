// Tests of pattern files: reading and writing with their refusals, and round trips.
#![tactic(auto)]

#[cfg(test)]
mod making;
#[cfg(test)]
mod reading;
#[cfg(test)]
mod writing;
