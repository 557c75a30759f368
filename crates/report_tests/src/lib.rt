// Tests of the report of a check, each of its whole text.
#![tactic(auto)]

#[cfg(test)]
mod tests;
