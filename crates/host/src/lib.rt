//! The host: one program and its tables, and the five calls of the parties on them.
//!
//! The order of levels is lent to each call beside the host. Each call answers as the rules say, and leaves the tables as the rules say;
//! `serve` runs a whole list of calls from new, and carries the promises over whole runs.
#![tactic(auto)]

mod arguments;
mod calls;
pub mod host;
pub mod loading;
mod methods;
mod numbers;
mod posting;
mod reading;
mod serving;
mod stopping;
mod taken;
mod turning;

pub use serving::{Served, serve};
