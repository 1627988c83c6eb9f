//! What a machine over words makes before the first instruction of a program without allocatables.
#![tactic(auto)]

pub mod beginning;
mod declared;
pub mod frames;
pub mod plain;
pub mod ranks;
pub mod stacks;
