//! When the blocks in which variables stand are pinned: as often as lent references go through them.
#![tactic(auto)]

pub mod laws;
