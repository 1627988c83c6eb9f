//! What is known along statements: inside of an ASSOCIATE construct, and again behind it (ISO/IEC 1539-1:2004, 8.1.4, 16.3).
#![tactic(auto)]

pub mod inside;
pub mod names;
pub mod state;
