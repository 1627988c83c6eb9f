//! Changes of variables in words of blocks of a heap: allocatables get and lose what they hold.
#![tactic(auto)]

mod allocating;
mod bounds;
mod clearing;
mod copying;
mod deallocating;
mod moving;

pub use allocating::allocate;
pub use clearing::clear;
pub use copying::copy;
pub use deallocating::deallocate;
pub use moving::move_allocation;
