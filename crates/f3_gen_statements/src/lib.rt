//! Code of statements: actions, blocks and constructs, with the ways out of them.
#![tactic(auto)]

pub mod chain;
pub mod leaving;
pub mod parts;
pub mod site;
pub mod statement;
