#![tactic(auto)]

// Tests of the block layer: worked files, every refusal, writing and reading.
#[cfg(test)]
mod files;
#[cfg(test)]
mod refusals;
#[cfg(test)]
mod walks;
#[cfg(test)]
mod writes;
