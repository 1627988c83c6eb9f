//! Graphs of numbered nodes, each with the nodes that it uses: an order in which used ones come first, which node
//! reaches which, and levels by which most steps are seen to lie on no cycle.
#![tactic(auto)]

pub mod graph;
pub mod levels;
pub mod search;
pub mod walk;
