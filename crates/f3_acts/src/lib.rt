//! What the rules on types and on definitions say of actions, conditions and the controls of DO constructs (ISO/IEC 1539-1:2004,
//! 6.3, 7.4.1, 8.1, 9.5, 12.4, 16.5.7).
#![tactic(auto)]

pub mod actions;
mod calls;
pub mod conditions;
pub mod controls;
mod impurity;
mod moving;
