//! What a run holds in memory: values, stores, paths and references.
#![tactic(auto, using(crate::proofs::Rows::rows))]

pub mod account;
pub mod copies;
mod elements;
pub mod lent;
pub mod parts;
pub mod reference;
pub mod store;
pub mod value;
