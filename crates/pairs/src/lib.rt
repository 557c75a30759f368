// "B without A": from two patterns, or two pattern files, the pattern of what B accepts and A does not.
#![tactic(auto)]

mod dual;
pub mod fault;
pub mod line;
pub mod reading;
pub mod tables;
