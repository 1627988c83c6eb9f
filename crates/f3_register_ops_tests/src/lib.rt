//! Which acts are one op together.
#![tactic(auto)]

#[cfg(test)]
mod tests;
