// The search's tables tried on a small kind.
#![tactic(auto)]

pub mod beginnings;
#[cfg(test)]
mod tests;
