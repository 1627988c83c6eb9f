//! The syntax tree of a list of sources: every statement and expression of the language (docs/LANGUAGE.md).
#![tactic(auto)]

pub mod declaration;
pub mod expression;
pub mod program;
pub mod statement;
