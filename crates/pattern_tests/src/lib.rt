// Tests of patterns: the questions with their numbers and places, predecessors of sets, and the matcher.
#![tactic(auto)]

#[cfg(test)]
mod matching;
#[cfg(test)]
mod questions;
