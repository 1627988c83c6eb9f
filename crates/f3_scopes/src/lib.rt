//! Scopes: what of program units, procedures and constructs the rules on names speak of.
#![tactic(auto)]

pub mod constructs;
pub mod lists;
pub mod outline;
pub mod scopes;
pub mod walk;
