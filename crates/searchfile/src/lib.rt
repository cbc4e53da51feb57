// The search file: a search as people write it down, one statement a line.
// Promises how the figures of a line are read, which number a mode has, and which fault is told where a figure is none.
// Rests on `signal` and `ciphers`.
#![tactic(auto)]

mod fault;
mod grammar;

pub use fault::Fault;
pub use grammar::{Action, Role, Statement, parse};
