//! What activations stand for whose variables are words of a heap, with blocks of their own for what allocatables hold, at whatever
//! depth; how these variables are laid out, and with which words they begin.
#![tactic(auto)]

pub mod bare;
pub mod beginning;
pub mod changes;
pub mod flatness;
pub mod laws;
pub mod laying;
pub mod layout;
pub mod layouts;
pub mod parts;
pub mod places;
