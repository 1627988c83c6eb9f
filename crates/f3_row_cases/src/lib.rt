//! What f3_rows needs and stands on no command line: cases of what users see of f3, as they are written, and acts as lines.
#![tactic(auto)]

pub mod cases;
pub mod showing;
