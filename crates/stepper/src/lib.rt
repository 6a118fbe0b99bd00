//! The loop that carries out a turn, whatever it works on.
//!
//! `machine` says where a statement leads, and what a turn works on: a `Machine`, which carries out one statement at a time. `turn` has
//! `run`, which puts the statements of a body together, and is proved to come out as the rules say that the turn does.
#![tactic(auto)]

pub mod machine;
#[cfg(test)]
mod tests;
pub mod turn;
