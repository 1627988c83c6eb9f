//! Which names each scope sees, and what each module exports.
#![tactic(auto)]

mod bringing;
mod building;
mod exporting;
mod filling;
pub mod pairs;
mod reading;
pub mod table;

pub use filling::tables;
pub use reading::{
    exports, host, is_private, lookup, module, own, used, visible, visible_is_declared,
};
