//! What the names of a program mean: its entities, and what each of its scopes sees of them.
#![tactic(auto)]

mod describing;
pub mod entity;
mod naming;
mod numbering;
mod reading;
pub mod table;
mod texts;

pub use naming::names;
pub use reading::{lookup, resolve, visible_is_entity};
