//! The calls that emit code and show it, run on small programs with ample memory.
#![tactic(auto)]

#[cfg(test)]
mod program;
#[cfg(test)]
mod shown;
