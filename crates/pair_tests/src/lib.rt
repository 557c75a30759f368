#![tactic(auto)]

// Tests of "B without A": what it accepts, its tables, and the refusals of two patterns and of two files.
#[cfg(test)]
mod accepting;
#[cfg(test)]
mod making;
#[cfg(test)]
mod sizes;
#[cfg(test)]
mod two_files;
