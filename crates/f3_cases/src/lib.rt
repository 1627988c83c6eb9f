//! The rules on the selector and the values of SELECT CASE (ISO/IEC 1539-1:2004, 8.1.3).
#![tactic(auto)]

mod overlaps;
pub mod select;
mod spans;
mod union;
mod values;
