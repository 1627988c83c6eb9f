//! The states of a machine that runs code over words: values lie in blocks of a heap, and what stands on its stack tells where.
#![tactic(auto)]

pub mod cell;
pub mod giving;
pub mod scene;
pub mod stack;
pub mod state;
