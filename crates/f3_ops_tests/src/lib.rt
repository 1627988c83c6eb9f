//! The ops that are found in small programs.
#![tactic(auto)]

#[cfg(test)]
mod tests;
