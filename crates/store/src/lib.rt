//! The four tables of the host, in memory, and what is done to them.
#![tactic(auto)]

pub mod kept;
pub mod lines;
pub mod table;
pub mod tables;
