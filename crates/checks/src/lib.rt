// The check: a backward antichain search that runs over a lent table and a lent store, some queries at a time.
//
// A check comes only from `open`. It is `Running` until it has a verdict and then `Matched`, `Never` or `Full`, each a
// type of its own: only a running check can be advanced, only a matched one has a sequence, and only one that ended in
// NEVER has a certificate. A check holds counts and no memory, so every later call is lent the table again. What it is
// lent is asked whether it is as the check left it; a call is safe, and exactly defined, whatever it holds.
#![tactic(auto)]

pub mod advancing;
mod asking;
mod counts;
mod lending;
pub mod opening;
mod querying;
pub mod reading;
pub mod states;
